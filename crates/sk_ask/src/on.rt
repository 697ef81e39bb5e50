//! The architecture whose calls are asked of, the call of it, and chains as they are for it.
ghost use Rattle.std.specs.Prelude.{◌≡◌, IfOk, IfErr, map, string_bytes};
ghost use Rattle.sk_ask.specs.Architectures.{architecture_of, chain_on};
ghost use Rattle.sk_ask.specs.Asking.{naming_asked};
ghost use Rattle.sk_ask.specs.Calls.{AreAskedCalls, AreNoCalls};

use crate::nearest::no_call_named;
use crate::other_names::bare_name;
use crate::printing::Printing;
use crate::{Filters, Trouble};
use sk_arguments::Naming;
use sk_filter::Chain;
use sk_insn::ARCHITECTURE;
use sk_names::Architecture;
use sk_replay::call_named;
use sk_survey::chain_for;
use std::alloc::{AllocError, Global};

/// What is asked of chains: by which analysis, of which architecture's calls, how numbers are written, and how all is printed.
#[derive(Drop)]
pub struct On<'a, A> {
    pub analysis: &'a A,
    pub architecture: Architecture,
    pub naming: Naming,
    pub printing: Printing,
}

/// The architecture that is asked of.
pub fn architecture_of(named: Option<Architecture>) -> Architecture
    ensures architecture { result ≡ architecture_of named }
{
    named.unwrap_or(Architecture::X86_64)
}

/// How numbers are written.
pub fn naming_asked(numbers: bool) -> Naming
    ensures naming { result ≡ naming_asked numbers }
{
    if numbers {
        Naming::Numbers
    } else {
        Naming::Constants
    }
}

/// The numbers of the calls that are asked for.
pub fn asked_calls(
    alloc: Global,
    architecture: Architecture,
    asked: &[String],
) -> Result<Vec<u32>, Trouble>
    ensures calls { IfOk result (λ calls. AreAskedCalls architecture (map string_bytes asked.now) calls.items) }
    ensures no_call { IfErr result (λ why. AreNoCalls architecture why (map string_bytes asked.now)) }
{
    let mut calls = Vec::new(alloc);
    let mut rest = asked;
    while let Some((word, left)) = rest.split_first() {
        let Some(nr) = call_named(architecture, bare_name(word.as_bytes())) else {
            let line = no_call_named(alloc, architecture, word.as_bytes())?;
            return Err(Trouble::Refused(line));
        };
        calls.push(nr)?;
        rest = left;
    }
    Ok(calls)
}

/// The chain of filters as it is for the calls of an architecture, and the notes on the profiles among them.
pub fn filters_on(
    alloc: Global,
    architecture: Architecture,
    filters: Filters,
) -> Result<(Chain, Vec<u8>), AllocError>
    ensures chain { IfOk result (λ it. it.0 ≡ chain_on architecture filters.chain) }
    ensures notes { IfOk result (λ it. it.1.items ≡ filters.notes.items) }
{
    let Filters { chain, notes, .. } = filters;
    Ok((chain_on(alloc, architecture, chain)?, notes))
}

/// A chain as it is for the calls of an architecture.
pub fn chain_on(
    alloc: Global,
    architecture: Architecture,
    chain: Chain,
) -> Result<Chain, AllocError>
    ensures chain { IfOk result (λ it. it ≡ chain_on architecture chain) }
{
    let number = architecture.audit();
    if number == ARCHITECTURE {
        return Ok(chain);
    }
    chain_for(alloc, &chain, number)
}
