//! Chains with other loads.
ghost use Rattle.std.specs.Prelude.{◌≡◌, IfOk};
ghost use Rattle.sk_filter.specs.Chains.{IsWithinLimit};
ghost use Rattle.sk_survey.specs.ByArchitecture.{chain_by_architecture};
ghost use Rattle.sk_survey.specs.ChainsFor.{chain_for};
ghost use Rattle.sk_survey.specs.Changes.{all_changed, IsMade};
ghost use Rattle.sk_survey.specs.Without.{chain_without};

use crate::change::Change;
use crate::looks::free_place;
use crate::program::changed_program;
use sk_filter::{Chain, ChainFault, Checked};
use std::alloc::{AllocError, Global};

/// The chain in which each filter has this number wherever it loads the architecture.
pub fn chain_for(alloc: Global, chain: &Chain, architecture: u32) -> Result<Chain, AllocError>
    requires limited { IsWithinLimit chain.now }
    ensures chain { IfOk result (λ it. it ≡ chain_for architecture chain.now) }
{
    changed_chain(alloc, chain, Change::Constant(architecture))
}

/// The chain that looks for the architecture where the number is; none where each word of a call is loaded, so that none is
/// left for the number.
pub fn chain_by_architecture(alloc: Global, chain: &Chain) -> Result<Option<Chain>, AllocError>
    requires limited { IsWithinLimit chain.now }
    ensures chain { IfOk result (λ it. it ≡ chain_by_architecture chain.now) }
{
    match free_place(chain) {
        Some(place) => Ok(Some(changed_chain(alloc, chain, Change::NumberAt(place))?)),
        None => Ok(None),
    }
}

/// The chain in which each filter loads 0 wherever it loads a word at one of these places.
pub fn chain_without(alloc: Global, chain: &Chain, places: &[u32]) -> Result<Chain, AllocError>
    requires limited { IsWithinLimit chain.now }
    ensures chain { IfOk result (λ it. it ≡ chain_without places.now chain.now) }
{
    changed_chain(alloc, chain, Change::Without(places))
}

fn changed_chain(alloc: Global, chain: &Chain, change: Change<'_>) -> Result<Chain, AllocError>
    requires limited { IsWithinLimit chain.now }
    requires made { IsMade change }
    ensures chain { IfOk result (λ it. it ≡ all_changed change.entry chain.now) }
{
    let programs = changed_programs(alloc, chain, change)?;
    attached(alloc, programs)
}

// The newest first.
fn changed_programs(
    alloc: Global,
    chain: &Chain,
    change: Change<'_>,
) -> Result<Vec<Checked>, AllocError>
    requires made { IsMade change }
    ensures programs { IfOk result (λ programs. programs.items ≡ all_changed change.entry chain.now) }
{
    let mut programs = Vec::with_capacity(alloc, chain.len())?;
    for program in chain.programs() {
        programs.push(changed_program(alloc, program, change)?)?;
    }
    Ok(programs)
}

fn attached(alloc: Global, programs: Vec<Checked>) -> Result<Chain, AllocError>
    requires limited { IsWithinLimit programs.items }
    ensures chain { IfOk result (λ chain. chain ≡ programs.items) }
{
    let mut programs = programs;
    let mut chain = Chain::empty(alloc);
    while let Some(program) = programs.pop() {
        chain = match chain.attach(program) {
            Ok(more) => more,
            Err((_, _, ChainFault::Memory)) => return Err(AllocError),
            Err((_, _, ChainFault::PathLimit)) => unreachable!(),
        };
    }
    Ok(chain)
}
