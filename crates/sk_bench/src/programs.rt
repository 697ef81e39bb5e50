//! Filters as programs that can run, and chains of them.
ghost use Rattle.std.specs.Prelude.{◌≡◌, ◌∷◌, Ok, IfOk};
ghost use Rattle.sk_insn.specs.Instructions.{instructions_of};

use crate::fault::Fault;
use sk_filter::{Chain, ChainFault, Checked, check};
use sk_insn::{Insn, read_insns};
use std::alloc::Global;

/// The program of an image.
pub fn program_of(alloc: Global, image: &[u8]) -> Result<Checked, Fault>
    ensures program { IfOk result (λ program. instructions_of image.now ≡ Ok program) }
{
    checked(read_insns(alloc, image)?)
}

/// The program of instructions.
pub fn checked(insns: Vec<Insn>) -> Result<Checked, Fault>
    ensures program { IfOk result (λ program. program ≡ insns.items) }
{
    match check(insns) {
        Ok(program) => Ok(program),
        Err(_) => Err(Fault::Refused),
    }
}

/// The chain with one filter more.
pub fn attached(chain: Chain, program: Checked) -> Result<Chain, Fault>
    ensures longer { IfOk result (λ longer. longer ≡ program ∷ chain) }
{
    match chain.attach(program) {
        Ok(longer) => Ok(longer),
        Err((_, _, ChainFault::PathLimit)) => Err(Fault::Refused),
        Err((_, _, ChainFault::Memory)) => Err(Fault::Memory),
    }
}
