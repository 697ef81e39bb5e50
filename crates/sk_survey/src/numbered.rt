//! Whether the calls of an architecture are judged by the numbers of x86-64, and whether they are by their names.
ghost use Rattle.std.specs.Prelude.{◌≡◌, IfOk};
ghost use Rattle.sk_filter.specs.Chains.{IsWithinLimit};
ghost use Rattle.sk_names.specs.Architectures.{audit_of};
ghost use Rattle.sk_survey.specs.ChainsFor.{chain_for};
ghost use Rattle.sk_survey.specs.Alike.{AreAlike, AreAsNamesakes, IsAlike, IsAsNamesake, namesake};

use crate::Surveyor;
use crate::chain::chain_for;
use sk_filter::Chain;
use sk_names::{Architecture, name, number};
use std::alloc::{AllocError, Global};

/// Whether a chain answers the same to the calls of x86-64 with these numbers and to those of another architecture with these
/// bits set in them.
pub fn are_judged_alike(
    alloc: Global,
    survey: &mut Surveyor,
    chain: &Chain,
    architecture: Architecture,
    bits: u32,
    numbers: &[u32],
) -> Result<bool, AllocError>
    requires limited { IsWithinLimit chain.now }
    ensures alike { IfOk result (AreAlike chain.now (chain_for (audit_of architecture) chain.now) bits numbers.now) }
{
    let own = chain_for(alloc, chain, architecture.audit())?;
    for nr in numbers {
        if !is_judged_alike(alloc, survey, chain, &own, *nr, *nr | bits)? {
            return Ok(false);
        }
    }
    Ok(true)
}

/// Whether a chain answers the same to the calls of another architecture with these numbers and to those of x86-64 with their
/// names. A call whose name x86-64 does not have is passed over.
pub fn are_judged_by_name(
    alloc: Global,
    survey: &mut Surveyor,
    chain: &Chain,
    architecture: Architecture,
    numbers: &[u32],
) -> Result<bool, AllocError>
    requires limited { IsWithinLimit chain.now }
    ensures alike { IfOk result (AreAsNamesakes chain.now (chain_for (audit_of architecture) chain.now) architecture numbers.now) }
{
    let own = chain_for(alloc, chain, architecture.audit())?;
    for nr in numbers {
        if !is_as_namesake(alloc, survey, chain, &own, namesake(architecture, *nr), *nr)? {
            return Ok(false);
        }
    }
    Ok(true)
}

// The number of x86-64's call with the name that a number has on another architecture.
fn namesake(architecture: Architecture, nr: u32) -> Option<u32>
    ensures namesake { result ≡ namesake architecture nr }
{
    number(Architecture::X86_64, name(architecture, nr)?.as_bytes())
}

fn is_as_namesake(
    alloc: Global,
    survey: &mut Surveyor,
    chain: &Chain,
    own: &Chain,
    namesake: Option<u32>,
    nr: u32,
) -> Result<bool, AllocError>
    ensures alike { IfOk result (IsAsNamesake chain.now own.now namesake nr) }
{
    match namesake {
        Some(namesake) => is_judged_alike(alloc, survey, chain, own, namesake, nr),
        None => Ok(true),
    }
}

fn is_judged_alike(
    alloc: Global,
    survey: &mut Surveyor,
    chain: &Chain,
    own: &Chain,
    nr: u32,
    other: u32,
) -> Result<bool, AllocError>
    ensures alike { IfOk result (IsAlike chain.now own.now nr other) }
{
    let answers = survey.chain(alloc, chain, nr, nr)?;
    let others = survey.chain(alloc, own, other, other)?;
    Ok(answers.same(&others))
}
