//! Answers and surveys that are seen by eye. That one value is told where calls go one way by their number is a contract.
use crate::filters::{chain_of, filter, refuses_getppid};
use crate::insns::{ALLOW, EPERM, divx, ja, jeq, ldabs, ldimm, ldmem, ret, reta, st, tax};
use sk_insn::Insn;
use sk_survey::cuts::cuts;
use sk_survey::{Answers, Surveyor};
use std::alloc::Global;
use std::test::Fail;

fn values(answers: &Answers) -> Option<&[u32]> {
    match answers {
        Answers::Any => None,
        Answers::Among(values) => Some(values),
    }
}

// Call 110 is refused, and call 9 where the low half of its first argument is 7.
fn by_number() -> [Insn; 7] {
    [
        ldabs(0),
        jeq(110, 3, 0),
        jeq(9, 0, 3),
        ldabs(16),
        jeq(7, 0, 1),
        ret(EPERM),
        ret(ALLOW),
    ]
}

// The low half of the first argument is the value.
fn by_argument() -> [Insn; 2] {
    [ldabs(16), reta()]
}

// A division of 6 by an argument, which may be 0.
fn by_division() -> [Insn; 5] {
    [ldabs(16), tax(), ldimm(6), divx(), ret(2)]
}

// A scratch word that holds 5 where the argument is 1, and else the argument.
fn by_word() -> [Insn; 7] {
    [
        ldabs(16),
        jeq(1, 0, 2),
        ldimm(5),
        ja(0),
        st(3),
        ldmem(3),
        reta(),
    ]
}

#[test]
fn programs(rt: HostRuntime) -> Result<(), Fail> {
    let number = by_number();
    let argument = by_argument();
    let division = by_division();
    let word = by_word();
    let rows: [(&[Insn], u32, u32, Option<&[u32]>); 6] = [
        (&number, 9, 9, Some(&[EPERM, ALLOW])),
        (&number, 39, 39, Some(&[ALLOW])),
        (&number, 110, 111, Some(&[EPERM, ALLOW])),
        (&argument, 1, 1, None),
        (&division, 1, 1, Some(&[0, 2])),
        (&word, 1, 1, None),
    ];
    let alloc = rt.alloc();
    let mut survey = Surveyor::new(alloc)?;
    for (program, first, last, expected) in rows {
        assert!(rt; first <= last);
        let answers = survey.program(alloc, &filter(alloc, program)?, first, last)?;
        assert_eq!(rt; values(&answers), expected);
    }
    Ok(())
}

// Whether these are the verdicts of the chain of these filters, the newest first.
fn tells(alloc: Global, programs: &[&[Insn]], expected: &[u32]) -> Result<bool, Fail> {
    let chain = chain_of(alloc, programs)?;
    let answers = Surveyor::new(alloc)?.chain(alloc, &chain, 0, u32::MAX)?;
    Ok(values(&answers) == Some(expected))
}

#[test]
fn chains(rt: HostRuntime) -> Result<(), Fail> {
    let alloc = rt.alloc();
    let two = [ldabs(16), jeq(7, 0, 1), ret(0x0005_0002), ret(ALLOW)];
    let logs = [ret(0x7ffc_0000)];
    let kills = [ret(0x8000_0000)];
    assert!(rt; tells(alloc, &[], &[ALLOW])?);
    assert!(rt; tells(alloc, &[&two, &logs], &[0x0005_0002, 0x7ffc_0000])?);
    assert!(rt; tells(alloc, &[&two, &kills, &logs], &[0x8000_0000])?);
    Ok(())
}

// Whether these are the cuts of the chain of these filters, where 39 stands alone.
fn cut_at(alloc: Global, programs: &[&[Insn]], expected: &[u32]) -> Result<bool, Fail> {
    let chain = chain_of(alloc, programs)?;
    Ok(cuts(alloc, &chain, &[39])?.as_slice() == expected)
}

#[test]
fn cuts_of_a_chain(rt: HostRuntime) -> Result<(), Fail> {
    let alloc = rt.alloc();
    let argument = [
        ldabs(0),
        jeq(110, 2, 0),
        ldabs(16),
        jeq(7, 0, 1),
        ret(EPERM),
        ret(ALLOW),
    ];
    let word = [
        ldabs(0),
        st(3),
        ldabs(16),
        ldmem(3),
        jeq(9, 0, 1),
        ret(EPERM),
        ret(ALLOW),
    ];
    assert!(rt; cut_at(alloc, &[&argument], &[39, 40, 110, 111])?);
    assert!(rt; cut_at(alloc, &[&word], &[9, 10, 39, 40])?);
    Ok(())
}

#[test]
fn rows_of_a_chain(rt: HostRuntime) -> Result<(), Fail> {
    let expected: [(u32, u32, u32); 6] = [
        (0, 38, ALLOW),
        (39, 39, ALLOW),
        (40, 109, ALLOW),
        (110, 110, EPERM),
        (111, 0xffff_fffe, ALLOW),
        (0xffff_ffff, 0xffff_ffff, ALLOW),
    ];
    let alloc = rt.alloc();
    let chain = chain_of(alloc, &[&refuses_getppid()])?;
    let rows = Surveyor::new(alloc)?.rows(alloc, &chain, &[39, 0xffff_ffff])?;
    assert_eq!(rt; rows.len(), expected.len());
    for (row, (first, last, value)) in rows.iter().zip(expected) {
        assert_eq!(rt;
            (row.first, row.last, values(&row.answers)),
            (first, last, Some([value].as_slice()))
        );
    }
    Ok(())
}
