//! Small filters beside each other: each difference has a call of its own, and none is told that no call shows.
use crate::whens::chain_of;
use sk_arguments::Naming;
use sk_filter::Chain;
use sk_names::Architecture;
use sk_when::{Budgets, Comparison, Finding, Names, Relation, comparison_text, diff};
use std::alloc::{AllocError, Global};
use std::test::Fail;

/// getpid(2) is allowed where its first argument is at most 5.
const AT_MOST_FIVE: &[u8] =
    b"ldabs 0\njeq 39 +0 +4\nldabs 20\njeq 0 +0 +3\nldabs 16\njgt 5 +1 +0\nret allow\nret errno/1";

/// The same where it is at most 6: no bit above the lowest three, and of these a number up to 6.
const AT_MOST_SIX: &[u8] =
    b"ldabs 0\njeq 39 +0 +8\nldabs 20\njeq 0 +0 +7\nldabs 16\nand 0xfffffff8\njeq 0 +0 +4\nldabs 16\nand 7\njgt 6 +1 +0\nret allow\nret errno/1";

/// How many numbers a filter of `one_of_many` allows.
const MANY: u8 = 24;

// getpid(2) is allowed where the lower half of an argument, which begins at this place, is one of many even numbers.
fn one_of_many(alloc: Global, place: u32) -> Result<Chain, Fail> {
    let mut text = format!(in alloc; "ldabs 0\njeq 39 +0 +26\nldabs {place}\n")?;
    for i in 0..MANY {
        let line = format!(in alloc; "jeq {} +{} +0\n", 2 * u32::from(i), MANY - i)?;
        text.push_str(line.as_str())?;
    }
    text.push_str("ret errno/1\nret allow\n")?;
    chain_of(alloc, text.as_bytes())
}

// How many lines begin so. Nothing behind the last line feed is one more.
fn lines_that_begin(text: &str, start: &str) -> usize {
    text.split('\n')
        .filter(|line| line.starts_with(start))
        .count()
}

// What is found of all calls of x86-64, and its text.
fn compared(
    alloc: Global,
    relation: Relation,
    old: &Chain,
    new: &Chain,
) -> Result<(Finding, String), AllocError> {
    let names = Names {
        naming: Naming::Constants,
        architecture: Architecture::X86_64,
    };
    let budgets = &mut Budgets::of_rows(1);
    let Comparison { finding, pieces } = diff(
        alloc,
        names.architecture,
        relation,
        old,
        new,
        budgets,
    )?;
    let text = comparison_text(alloc, names, relation, finding, &pieces)?;
    Ok((finding, text))
}

// 6 is the one number of which they say otherwise: of no other way through both filters there is a call.
#[test]
fn the_one_call_is_shown(rt: HostRuntime) -> Result<(), Fail> {
    let alloc = rt.alloc();
    let old = chain_of(alloc, AT_MOST_FIVE)?;
    let new = chain_of(alloc, AT_MOST_SIX)?;
    let (looser, text) = compared(alloc, Relation::AsStrict, &old, &new)?;
    let (stricter, everywhere) = compared(alloc, Relation::AsStrict, &new, &old)?;
    assert_eq!(rt;
        (
            looser,
            text.starts_with("looser:\n39 getpid: errno/1 EPERM -> allow where "),
            text.contains("\n  syscall(SYS_getpid, 0x6, "),
            lines_that_begin(&text, ""),
        ),
        (Finding::Fails, true, true, 5)
    );
    assert_eq!(rt;
        (stricter, everywhere.as_str()),
        (Finding::Holds, "as strict on every call\n")
    );
    Ok(())
}

// Each number of one argument beside each of the other: all differences are told, each with its call.
#[test]
fn many_numbers_are_decided(rt: HostRuntime) -> Result<(), Fail> {
    let alloc = rt.alloc();
    let (old, new) = (one_of_many(alloc, 16)?, one_of_many(alloc, 24)?);
    let (finding, text) = compared(alloc, Relation::Same, &old, &new)?;
    assert_eq!(rt;
        (
            finding,
            text.starts_with("looser:\n39 getpid: errno/1 EPERM -> allow where "),
            text.contains("\nstricter:\n39 getpid: allow -> errno/1 EPERM where "),
            text.contains("undecided"),
            lines_that_begin(&text, "39 getpid: ") == lines_that_begin(&text, "  record ")
        ),
        (Finding::Fails, true, true, false, true)
    );
    Ok(())
}
