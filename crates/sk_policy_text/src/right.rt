//! Whether sentences may stand where they stand.
ghost use Rattle.std.specs.Prelude.{◌≡◌, false, [], IfOk, IfErr, IfSome, IfNone, OnOk};
ghost use Rattle.sk_policy_text.specs.declared.policy_fault.PolicyFault.TheVariants as fault;
ghost use Rattle.sk_policy_text.specs.declared.policy_fault.Wrong.TheVariants as wrong;
ghost use Rattle.sk_policy_text.specs.PolicyRows.{sentences_of, is_case};
ghost use Rattle.sk_policy_text.specs.PolicyFaults.{IsCaseOf, IsRight, AreRight, IsUnreadAt, IsFaultAt, IsSentenceFault};

use crate::condition::{ConditionFault, condition_of};
use crate::policy_fault::{PolicyFault, Wrong};
use crate::sentence::Sentence;
use crate::stated::{Above, Stated, above_with, misplaced_at, nothing};
use sk_policy::Case;
use std::alloc::Global;

fn unread(line: usize, why: ConditionFault) -> PolicyFault
    ensures fault { result ≡ fault.Wrong line (wrong.Unread why) }
{
    PolicyFault::Wrong(line, Wrong::Unread(why))
}

/// The case of a sentence, if it is one.
pub fn case_in(alloc: Global, stated: &Stated<'_>) -> Result<Option<Case>, PolicyFault>
    ensures none { IfOk result (λ found. IfNone found (is_case stated.now.sentence ≡ false)) }
    ensures some { IfOk result (λ found. IfSome found (IsCaseOf stated.now.sentence)) }
    ensures fault { IfErr result (IsUnreadAt stated.now) }
{
    let Sentence::Case(value, words) = &stated.sentence else {
        return Ok(None);
    };
    match condition_of(alloc, words) {
        Ok(choices) => Ok(Some(Case {
            choices,
            value: *value,
        })),
        Err(ConditionFault::Memory) => Err(PolicyFault::Memory),
        Err(ConditionFault::NotUnderstood(at)) => {
            Err(unread(stated.line, ConditionFault::NotUnderstood(at)))
        }
        Err(ConditionFault::TooDeep(at)) => Err(unread(stated.line, ConditionFault::TooDeep(at))),
    }
}

// Whether a sentence may stand between what is above and what is behind, and its condition is one.
fn right_at(
    alloc: Global,
    above: Above,
    stated: &Stated<'_>,
    behind: &[Stated<'_>],
) -> Result<(), PolicyFault>
    ensures right { OnOk result (IsRight above stated.now.sentence (sentences_of behind.now)) }
    ensures fault { IfErr result (IsFaultAt above stated.now (sentences_of behind.now)) }
{
    if let Some(why) = misplaced_at(above, &stated.sentence, behind) {
        return Err(PolicyFault::Wrong(stated.line, Wrong::Misplaced(why)));
    }
    match case_in(alloc, stated) {
        Ok(_) => Ok(()),
        Err(fault) => Err(fault),
    }
}

/// Whether each sentence may stand where it stands, and each condition is one.
pub fn all_right(alloc: Global, text: &[Stated<'_>]) -> Result<(), PolicyFault>
    ensures right { OnOk result (AreRight [] text.now) }
    ensures fault { IfErr result (IsSentenceFault [] text.now) }
{
    let mut above = nothing();
    let (_, mut left) = text.split_at(0);
    while let Some((first, rest)) = left.split_first() {
        right_at(alloc, above, first, rest)?;
        above = above_with(above, &first.sentence);
        left = rest;
    }
    Ok(())
}
