//! What the checker says of programs, and of the longest one. `sk_filter`'s worked programs have the faults as theorems.
use crate::filters::refuses_getppid;
use crate::insns::{ldimm, ldmem, reta, st, with_k};
use sk_filter::{CheckFault, check};
use sk_insn::Insn;
use std::alloc::{AllocError, Global};
use std::test::Fail;

// How many instructions were found valid, or why the program is refused.
fn outcome(alloc: Global, program: &[Insn]) -> Result<Result<usize, CheckFault>, AllocError> {
    let mut insns = Vec::new(alloc);
    insns.extend_from_slice(program)?;
    match check(insns) {
        Ok(checked) => Ok(Ok(checked.insns().len())),
        Err((_, fault)) => Ok(Err(fault)),
    }
}

#[test]
fn programs_are_checked(rt: HostRuntime) -> Result<(), Fail> {
    let refuses_getppid = refuses_getppid();
    let rows: [(&[Insn], Result<usize, CheckFault>); 3] = [
        (&refuses_getppid, Ok(4)),
        (&[with_k(0x03, 15), ldmem(15), reta()], Ok(3)),
        (
            &[ldimm(1), with_k(0x34, 0), reta()],
            Err(CheckFault::DivZero { at: 1 }),
        ),
    ];
    for (program, want) in rows {
        assert_eq!(rt; outcome(rt.alloc(), program)?, want);
    }
    Ok(())
}

// `st 0`, so many times `ldmem 0`, and `reta`.
fn loads(alloc: Global, count: usize) -> Result<Vec<Insn>, AllocError> {
    let mut insns = Vec::new(alloc);
    insns.push(st(0))?;
    for _load in 0..count {
        insns.push(ldmem(0))?;
    }
    insns.push(reta())?;
    Ok(insns)
}

#[test]
fn longest_program(rt: HostRuntime) -> Result<(), Fail> {
    assert_eq!(rt; outcome(rt.alloc(), &loads(rt.alloc(), 4094)?)?, Ok(4096));
    assert_eq!(rt;
        outcome(rt.alloc(), &loads(rt.alloc(), 4095)?)?,
        Err(CheckFault::TooLong)
    );
    Ok(())
}
