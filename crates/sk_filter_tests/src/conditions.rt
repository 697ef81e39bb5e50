//! Conditions of filters that look at the flags of clone(2), and two such filters beside each other.
ghost use Rattle.std.specs.Prelude.{◌≡◌};

use crate::filters::{chain_of, filter};
use crate::insns::{ALLOW, EPERM, branch, jeq, ldabs, ret};
use sk_conditions::{
    Budget, Budgets, Comparing, Numbers, Relation, Test, Tree, Verdicts, chain_tree, differ,
    program_tree,
};
use sk_insn::{Comparison, Insn};
use std::alloc::Global;
use std::test::Fail;

const CLONE: u32 = 56;

/// All flags that make namespaces, without and with that of cgroups.
const WITHOUT_CGROUPS: u32 = 0x7c02_0000;

const NAMESPACES: u32 = 0x7e02_0000;

// clone(2) with one of the flags has an error.
fn refuses_flags(flags: u32) -> [Insn; 6] {
    [
        ldabs(0),
        jeq(CLONE, 0, 3),
        ldabs(16),
        branch(0x45, flags, 0, 1),
        ret(EPERM),
        ret(ALLOW),
    ]
}

fn only(nr: u32) -> Numbers
    ensures first { result.first ≡ nr }
    ensures last { result.last ≡ nr }
{
    Numbers {
        first: nr,
        last: nr,
    }
}

// The test of a tree with two ends, and what it tells where the test holds and where it fails.
fn test_of(tree: &Tree) -> Option<(Test, u32, u32)> {
    match tree {
        Tree::Ask(test, held, failed) => match (&**held, &**failed) {
            (Tree::Is(held), Tree::Is(failed)) => Some((*test, *held, *failed)),
            _ => None,
        },
        _ => None,
    }
}

fn value_of(tree: &Tree) -> Option<u32> {
    match tree {
        Tree::Is(value) => Some(*value),
        _ => None,
    }
}

#[test]
fn flags_decide(rt: HostRuntime) -> Result<(), Fail> {
    let program = filter(rt.alloc(), &refuses_flags(NAMESPACES))?;
    let chain = chain_of(rt.alloc(), &[&refuses_flags(NAMESPACES), &[ret(ALLOW)]])?;
    let others = Numbers {
        first: 57,
        last: u32::MAX,
    };
    let test = Test {
        place: 16,
        mask: u32::MAX,
        comparison: Comparison::CommonBits,
        k: NAMESPACES,
    };
    let mut budget = Budget::whole();
    let told = (
        test_of(&program_tree(rt.alloc(), &program, only(CLONE), &mut budget)?),
        test_of(&chain_tree(rt.alloc(), &chain, only(CLONE), &mut budget)?),
        value_of(&chain_tree(rt.alloc(), &chain, others, &mut budget)?),
    );
    assert!(rt;
        told == (
            Some((test, EPERM, ALLOW)),
            Some((test, EPERM, ALLOW)),
            Some(ALLOW)
        )
    );
    Ok(())
}

// Whether a tree tells a value of each call.
fn tells_all(tree: &Tree) -> bool {
    match tree {
        Tree::Is(_) => true,
        Tree::Untold => false,
        Tree::Ask(_, held, failed) => tells_all(held) && tells_all(failed),
    }
}

/// What is found of two chains on the calls of clone(2).
#[derive(Clone, Copy, PartialEq, Eq)]
struct Told {
    /// Whether it is told of each call whether the relation holds.
    is_told: bool,
    /// The first pair of verdicts between which it fails.
    fails: Option<Verdicts>,
    /// The flags for namespaces of the first call at hand that the two chains answer otherwise.
    flags: Option<u64>,
}

fn found(
    alloc: Global,
    relation: Relation,
    old: &[&[Insn]],
    new: &[&[Insn]],
    mut budget: Budget,
) -> Result<Told, Fail> {
    let (old, new) = (chain_of(alloc, old)?, chain_of(alloc, new)?);
    let chains = Comparing {
        relation,
        old: &old,
        new: &new,
        numbers: only(CLONE),
    };
    let differences = differ(alloc, chains, &mut budget)?;
    let mut flags = None;
    for call in &differences.calls {
        if flags.is_none() && old.verdict(call) != new.verdict(call) {
            flags = Some(call.args[0] & u64::from(NAMESPACES));
        }
    }
    Ok(Told {
        is_told: tells_all(&differences.tree),
        fails: differences.pairs.first().copied(),
        flags,
    })
}

/// All verdicts are told, and they are the same.
const SAME: Told = Told {
    is_told: true,
    fails: None,
    flags: None,
};

#[test]
fn filters_are_compared(rt: HostRuntime) -> Result<(), Fail> {
    let alloc = rt.alloc();
    let (few, all) = (refuses_flags(WITHOUT_CGROUPS), refuses_flags(NAMESPACES));
    let whole = Budget::whole;
    let told = (
        found(alloc, Relation::AsStrict, &[&few], &[&all], whole())?,
        found(alloc, Relation::AsStrict, &[&all], &[&few], whole())?,
    );
    let of_cgroups = |fails: Option<Verdicts>| Told {
        is_told: true,
        fails,
        flags: Some(0x0200_0000),
    };
    let looser = Verdicts {
        old: EPERM,
        new: ALLOW,
    };
    assert!(rt; told == (of_cgroups(None), of_cgroups(Some(looser))));
    Ok(())
}

// A first argument above 200 has an error. It is compared with smaller numbers before, which changes nothing.
fn compares_often(alloc: Global) -> Result<Vec<Insn>, Fail> {
    let mut insns = Vec::new(alloc);
    insns.push(ldabs(16))?;
    for least in 0..24 {
        insns.push(branch(0x25, least, 0, 0))?;
    }
    insns.extend_from_slice(&above_200()[1..])?;
    Ok(insns)
}

fn above_200() -> [Insn; 4] {
    [ldabs(16), branch(0x25, 200, 0, 1), ret(EPERM), ret(ALLOW)]
}

// Of 2^24 ways through the filter calls take 25.
#[test]
fn ways_that_no_call_takes_cost_nothing(rt: HostRuntime) -> Result<(), Fail> {
    let alloc = rt.alloc();
    let often = compares_often(alloc)?;
    let told = found(
        alloc,
        Relation::Same,
        &[&often],
        &[&above_200(), &[ret(ALLOW)]],
        Budgets::of_rows(1).row(0),
    )?;
    assert!(rt; told == SAME);
    Ok(())
}

#[test]
fn a_small_budget_leaves_it_undecided(rt: HostRuntime) -> Result<(), Fail> {
    let alloc = rt.alloc();
    let all = refuses_flags(NAMESPACES);
    let with = |steps: u64| found(alloc, Relation::Same, &[&all], &[&all], Budget { steps });
    let untold = Told {
        is_told: false,
        ..SAME
    };
    assert!(rt; (with(40)?, with(400)?) == (untold, SAME));
    Ok(())
}
