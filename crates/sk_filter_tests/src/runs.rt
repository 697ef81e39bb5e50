//! Runs of filters: each calculation, comparison and kind of load, and the walks for always-allowed numbers. What else filters
//! mean is computed as theorems of `sk_filter`.
use crate::filters::{filter, refuses_getppid};
use crate::insns::{branch, ldimm, ldximm, ret, reta, with_k};
use sk_filter::{Ran, calculate, holds, run, walk, walk_together};
use sk_insn::{Arithmetic, Comparison, Record};
use std::test::Fail;

fn call(nr: u32) -> Record {
    Record::native(
        nr,
        0x1122_3344_5566_7788,
        [0x99aa_bbcc_ddee_ff00, 1, 2, 3, 4, 5],
    )
}

// Each calculation by itself, and in a filter with its constant and with X.
#[test]
fn calculations(rt: HostRuntime) -> Result<(), Fail> {
    let rows = [
        (Arithmetic::Add, 0x04, u32::MAX, 2, 1),
        (Arithmetic::Subtract, 0x14, 1, 2, u32::MAX),
        (Arithmetic::Multiply, 0x24, 0x1_0001, 0x1_0001, 0x2_0001),
        (Arithmetic::Divide, 0x34, 7, 2, 3),
        (Arithmetic::Or, 0x44, 0b1100, 0b1010, 0b1110),
        (Arithmetic::And, 0x54, 0b1100, 0b1010, 0b1000),
        (Arithmetic::ShiftLeft, 0x64, 0x8000_0001, 1, 2),
        (Arithmetic::ShiftRight, 0x74, 0x8000_0001, 31, 1),
        (Arithmetic::ExclusiveOr, 0xa4, 0b1100, 0b1010, 0b0110),
    ];
    for (arithmetic, code, a, b, value) in rows {
        if b != 0 {
            assert_eq!(rt; calculate(arithmetic, a, b), value);
        }
        let constant = filter(rt.alloc(), &[ldimm(a), with_k(code, b), reta()])?;
        let index = filter(
            rt.alloc(),
            &[ldximm(b), ldimm(a), with_k(code | 8, 0), reta()],
        )?;
        let ran = (run(&constant, &call(39)), run(&index, &call(39)));
        assert_eq!(rt; ran, (Ran { value, steps: 3 }, Ran { value, steps: 4 }));
    }
    Ok(())
}

// So is each comparison.
#[test]
fn comparisons(rt: HostRuntime) -> Result<(), Fail> {
    let rows = [
        (Comparison::Equal, 0x15, 5, 5, true),
        (Comparison::Greater, 0x25, 0x8000_0000, 1, true),
        (Comparison::Greater, 0x25, 5, 5, false),
        (Comparison::GreaterOrEqual, 0x35, 5, 5, true),
        (Comparison::CommonBits, 0x45, 0b1100, 0b0011, false),
    ];
    let (no, yes) = (ret(0), ret(1));
    for (comparison, code, a, b, answer) in rows {
        assert_eq!(rt; holds(comparison, a, b), answer, "{comparison:?}");
        let constant = filter(rt.alloc(), &[ldimm(a), branch(code, b, 1, 0), no, yes])?;
        let test = branch(code | 8, 0, 1, 0);
        let index = filter(rt.alloc(), &[ldximm(b), ldimm(a), test, no, yes])?;
        let value = u32::from(answer);
        let ran = (run(&constant, &call(39)), run(&index, &call(39)));
        assert_eq!(rt; ran, (Ran { value, steps: 3 }, Ran { value, steps: 4 }));
    }
    Ok(())
}

#[test]
fn loads(rt: HostRuntime) -> Result<(), Fail> {
    for (code, k, value) in [
        (0x20, 4, 0xC000_003E),
        (0x20, 8, 0x5566_7788),
        (0x20, 20, 0x99aa_bbcc),
        (0x80, 0, 64),
    ] {
        let program = filter(rt.alloc(), &[with_k(code, k), reta()])?;
        assert_eq!(rt; run(&program, &call(39)), Ran { value, steps: 2 });
    }
    Ok(())
}

#[test]
fn walks(rt: HostRuntime) -> Result<(), Fail> {
    let program = filter(rt.alloc(), &refuses_getppid())?;
    assert!(rt; walk(&program, 39) && !walk(&program, 110));
    assert_eq!(rt; walk_together(&program, 64, u64::MAX), !(1 << (110 - 64)));
    Ok(())
}
