//! What a chain answers to all calls of an architecture.
ghost use Rattle.std.specs.Prelude.{◌≡◌, ◌≤◌, IfOk};
ghost use Rattle.sk_filter.specs.Chains.{IsWithinLimit};
ghost use Rattle.sk_survey.specs.AnswersByArchitecture.{first_of, last_of, AreAnswered, IsAnswered};

use crate::chain::chain_for;
use crate::{Row, Surveyor};
use sk_filter::Chain;
use sk_names::Architecture;
use std::alloc::{AllocError, Global};

/// The bit that the numbers of x32 have, and those of x86-64 have not.
pub(crate) const X32_BIT: u32 = 0x4000_0000;

/// What a chain answers to the calls of an architecture.
#[derive(Debug, Drop)]
pub struct Answered {
    pub architecture: Architecture,
    /// All numbers of its calls, and what may be answered to them.
    pub row: Row,
}

/// What a chain answers to the calls of each architecture, in their order.
pub fn answered_all(alloc: Global, chain: &Chain) -> Result<Vec<Answered>, AllocError>
    requires limited { IsWithinLimit chain.now }
    ensures each { IfOk result (λ all. AreAnswered chain.now all.items) }
{
    let mut survey = Surveyor::new(alloc)?;
    let mut all = Vec::with_capacity(alloc, Architecture::ALL.len())?;
    for architecture in &Architecture::ALL {
        all.push(answered_for(alloc, &mut survey, chain, *architecture)?)?;
    }
    Ok(all)
}

/// What a chain answers to the calls of one architecture.
pub fn answered_for(
    alloc: Global,
    survey: &mut Surveyor,
    chain: &Chain,
    architecture: Architecture,
) -> Result<Answered, AllocError>
    requires limited { IsWithinLimit chain.now }
    ensures answered { IfOk result (IsAnswered chain.now) }
    ensures architecture { IfOk result (λ it. it.architecture ≡ architecture) }
{
    let own = chain_for(alloc, chain, architecture.audit())?;
    let (first, last) = numbers_of(architecture);
    let answers = survey.chain(alloc, &own, first, last)?;
    Ok(Answered {
        architecture,
        row: Row {
            first,
            last,
            answers,
        },
    })
}

// The first and the last number of its calls.
fn numbers_of(architecture: Architecture) -> (u32, u32)
    ensures first { result.0 ≡ first_of architecture }
    ensures last { result.1 ≡ last_of architecture }
    ensures range { result.0 ≤ result.1 }
{
    match architecture {
        Architecture::X86_64 => (0, X32_BIT - 1),
        Architecture::X32 => (X32_BIT, 2 * X32_BIT - 1),
        _ => (0, u32::MAX),
    }
}
