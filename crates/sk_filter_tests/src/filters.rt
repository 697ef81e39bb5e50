//! Filters and chains of them, of instructions, and filters that more than one table asks.
use crate::insns::{ALLOW, EPERM, jeq, ldabs, ret, with_k};
use sk_filter::{Chain, Checked, check};
use sk_insn::Insn;
use std::alloc::Global;
use std::test::Fail;

pub(crate) fn checked(insns: Vec<Insn>) -> Result<Checked, Fail> {
    match check(insns) {
        Ok(checked) => Ok(checked),
        Err((_, fault)) => Err(Fail::from(fault)),
    }
}

pub(crate) fn filter(alloc: Global, program: &[Insn]) -> Result<Checked, Fail> {
    let mut insns = Vec::new(alloc);
    insns.extend_from_slice(program)?;
    checked(insns)
}

pub(crate) fn attach(chain: Chain, program: Checked) -> Result<Chain, Fail> {
    match chain.attach(program) {
        Ok(chain) => Ok(chain),
        Err((_, _, fault)) => Err(Fail::from(fault)),
    }
}

/// The chain of these filters, the newest first.
pub(crate) fn chain_of(alloc: Global, programs: &[&[Insn]]) -> Result<Chain, Fail> {
    let mut chain = Chain::empty(alloc);
    for program in programs.iter().rev() {
        chain = attach(chain, filter(alloc, program)?)?;
    }
    Ok(chain)
}

/// getppid has an error.
pub(crate) fn refuses_getppid() -> [Insn; 4] {
    [ldabs(0), jeq(110, 0, 1), ret(EPERM), ret(ALLOW)]
}

/// Even numbers are allowed, and odd ones are logged.
pub(crate) fn even() -> [Insn; 5] {
    [
        ldabs(0),
        with_k(0x54, 1),
        jeq(0, 0, 1),
        ret(ALLOW),
        ret(0x7ffc_0000),
    ]
}
