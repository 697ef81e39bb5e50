//! The one verdict that calls of every architecture but x86-64 get.
ghost use Rattle.std.specs.Prelude.{◌≡◌, IfOk};
ghost use Rattle.std.specs.List.{list_all};
ghost use Rattle.sk_filter.specs.Chains.{IsWithinLimit};
ghost use Rattle.sk_survey.specs.Answers.{answers_of};
ghost use Rattle.sk_survey.specs.AnswersByArchitecture.{only_value};
ghost use Rattle.sk_policy_when.specs.Smaller.{IsOthersVerdict, gets, gets_alone, is_native, shared_by};

use sk_filter::Chain;
use sk_names::Architecture;
use sk_survey::{Answered, Answers, Other, Surveyor, answered_all, answered_other};
use std::alloc::{AllocError, Global};

/// The verdict of the chain on all calls whose architecture is shown to filters by another number than that of x86-64, which is
/// that of x32 too.
pub fn others_verdict(alloc: Global, chain: &Chain) -> Result<Other, AllocError>
    requires limited { IsWithinLimit chain.now }
    ensures others { IfOk result (IsOthersVerdict chain.now) }
{
    let its = answered_all(alloc, chain)?;
    let mut survey = Surveyor::new(alloc)?;
    let other = answered_other(alloc, &mut survey, chain)?;
    Ok(shared_by(&its, other))
}

fn shared_by(its: &[Answered], other: Other) -> Other
    ensures shared { result ≡ shared_by its.now other }
{
    match other {
        Other::Verdict(value) if !all_get(its, value) => Other::Several,
        Other::Verdict(_) | Other::Several | Other::Unknown => other,
    }
}

fn all_get(its: &[Answered], value: u32) -> bool
    ensures all { result ≡ list_all (gets_alone value) its.now }
{
    its.iter().all(|it| gets_alone(it, value))
}

fn gets_alone(it: &Answered, value: u32) -> bool
    ensures gets { result ≡ gets_alone value it.now }
{
    is_native(it.architecture) || only_value(&it.row.answers).is_some_and(|other| other == value)
}

fn is_native(architecture: Architecture) -> bool
    ensures native { result ≡ is_native architecture }
{
    architecture.audit() == Architecture::X86_64.audit()
}

fn only_value(answers: &Answers) -> Option<u32>
    ensures value { result ≡ only_value (answers_of answers.now) }
{
    match answers {
        Answers::Among(values) if values.len() == 1 => Some(values[0]),
        _ => None,
    }
}
