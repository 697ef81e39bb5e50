//! What texts expect of policies, and where that fails: worked out by hand from the page on the language.
use sk_arguments::Naming;
use sk_filter::{Chain, check};
use sk_insn::read_insns;
use sk_names::Architecture;
use sk_policy_text::{Expectations, expectations, made, refusal_text};
use sk_when::{Budgets, Comparison, Finding, Names, Relation, comparison_text, diff};
use std::alloc::Global;
use std::test::Fail;

/// What is said where nothing fails.
const MET: &str = "as expected on every call";

/// Expectations, a policy, the first line of what is told, and how many lines tell a failure.
const ROWS: &[(&str, &str, &str, usize)] = &[
    // A call is not performed by errno, trap, trace, user_notif and either kill, and it is by allow and log: seccomp(2).
    ("default refused", "default errno/0", MET, 0),
    ("default refused", "default trap/5", MET, 0),
    ("default refused", "default trace", MET, 0),
    ("default refused", "default user_notif", MET, 0),
    ("default refused", "default kill_thread", MET, 0),
    ("read: performed", "default allow", MET, 0),
    ("read: performed", "default log/3", MET, 0),
    (
        "read: performed",
        "default errno/0",
        "0 read: expected performed -> errno/0",
        1,
    ),
    (
        "read: refused",
        "default log",
        "0 read: expected refused -> log",
        1,
    ),
    // A verdict is expected with its data.
    ("read: errno/EPERM", "default errno/1", MET, 0),
    (
        "read: errno/EPERM",
        "default errno/2",
        "0 read: expected errno/1 EPERM -> errno/2 ENOENT",
        1,
    ),
    (
        "read: allow",
        "default allow/65535",
        "0 read: expected allow -> allow/65535",
        1,
    ),
    // What is left out is not expected: other numbers, other calls of a row, and others.
    (
        "read: performed\nwrite: refused",
        "default errno/1\nread: allow",
        MET,
        0,
    ),
    (
        "read\n  refused where args[0] == 3",
        "default allow\nread\n  errno/1 where args[0] == 3\n  allow else",
        MET,
        0,
    ),
    (
        "read\n  refused where args[0] == 3\nwrite: allow",
        "default allow",
        "0 read: expected refused -> allow where args[0] == 0x3",
        1,
    ),
    (
        "read\n  refused where args[0] == 3\n  performed else",
        "default trap",
        "0 read: expected performed -> trap where args[0] != 0x3",
        1,
    ),
    ("default refused", "default errno/1\nothers allow", MET, 0),
    ("others refused", "default allow\nothers errno/1", MET, 0),
    (
        "others: refused",
        "default errno/1\nothers allow",
        "1073741824-4294967294 -: expected refused -> allow",
        1,
    ),
    // Failures stand in the order of numbers, whichever is looser.
    (
        "read: performed\nptrace: refused",
        "default allow\nread: trap",
        "0 read: expected performed -> trap",
        2,
    ),
    // The calls are those of the text's architecture: 3 is read there.
    (
        "arch i386\nread: refused",
        "arch i386\ndefault allow",
        "3 read: expected refused -> allow",
        1,
    ),
    ("arch i386\nread: refused", "default allow", MET, 0),
    (
        "arch i386\nothers: performed\nread: refused",
        "default allow",
        MET,
        0,
    ),
];

fn chain_of(alloc: Global, image: &[u8]) -> Result<Chain, Fail> {
    let program = match check(read_insns(alloc, image)?) {
        Ok(checked) => checked,
        Err((_, fault)) => return Err(Fail::from(fault)),
    };
    match Chain::empty(alloc).attach(program) {
        Ok(chain) => Ok(chain),
        Err((_, _, fault)) => Err(Fail::from(fault)),
    }
}

fn expected(alloc: Global, text: &str) -> Result<Expectations, Fail> {
    match expectations(alloc, text.as_bytes()) {
        Ok(expected) => Ok(expected),
        Err(_) => Err(Fail::from("no expectations")),
    }
}

// What is found of all calls of the text's architecture, and its text.
fn compared(alloc: Global, wanted: &str, policy: &str) -> Result<(Finding, String), Fail> {
    let expected = expected(alloc, wanted)?;
    let Ok(image) = made(alloc, policy.as_bytes()) else {
        return Err(Fail::from("no filter"));
    };
    let audit = expected.architecture.audit();
    let old = sk_survey::chain_for(alloc, &chain_of(alloc, &expected.image)?, audit)?;
    let new = sk_survey::chain_for(alloc, &chain_of(alloc, &image)?, audit)?;
    let names = Names {
        naming: Naming::Constants,
        architecture: expected.architecture,
    };
    let (relation, budgets) = (Relation::Expected, &mut Budgets::of_rows(1));
    let Comparison { finding, pieces } = diff(
        alloc,
        names.architecture,
        relation,
        &old,
        &new,
        budgets,
    )?;
    let text = comparison_text(alloc, names, relation, finding, &pieces)?;
    Ok((finding, text))
}

#[test]
fn expectations_of_policies(rt: HostRuntime) -> Result<(), Fail> {
    for (wanted, policy, first, failures) in ROWS {
        let (found, text) = compared(rt.alloc(), wanted, policy)?;
        let finding = if *failures == 0 {
            Finding::Holds
        } else {
            Finding::Fails
        };
        let told = text
            .split('\n')
            .filter(|line| line.contains(": expected "))
            .count();
        assert_eq!(rt;
            (found, text.split('\n').next(), told),
            (finding, Some(*first), *failures),
            "{wanted} of {policy}"
        );
    }
    Ok(())
}

/// Texts, of whose calls they tell, and whether they say anything of others.
const HEADS: &[(&str, Architecture, bool)] = &[
    ("read: refused", Architecture::X86_64, false),
    (
        "arch aarch64\nothers: performed",
        Architecture::Aarch64,
        true,
    ),
];

#[test]
fn heads(rt: HostRuntime) -> Result<(), Fail> {
    for (text, architecture, says_others) in HEADS {
        let expected = expected(rt.alloc(), text)?;
        assert_eq!(rt;
            (expected.architecture, expected.says_others),
            (*architecture, *says_others)
        );
    }
    Ok(())
}

/// Texts that are none, and what is said of them.
const WRONG: &[(&str, &str)] = &[
    (
        "read: refuse",
        "line 1: refuse: expected a verdict, as allow or errno/EPERM",
    ),
    (
        "read: refused/1",
        "line 1: refused/1: expected a verdict, as allow or errno/EPERM",
    ),
    (
        "read: refused EPERM",
        "line 1: EPERM: expected the end of the line",
    ),
    (
        "read: refused\n0 performed",
        "line 2: 0 stands in line 1 already",
    ),
    (
        "  refused else",
        "line 1: a case: expected a row without a verdict above it",
    ),
];

#[test]
fn wrong_expectations(rt: HostRuntime) -> Result<(), Fail> {
    let alloc = rt.alloc();
    for (text, wanted) in WRONG {
        let Err(refusal) = expectations(alloc, text.as_bytes()) else {
            return Err(Fail::from(*text));
        };
        assert_eq!(rt;
            refusal_text(alloc, text.as_bytes(), refusal)?.as_str(),
            *wanted
        );
    }
    Ok(())
}

/// Texts that are none of filters, and what is said of them.
const OF_NO_FILTER: &[(&str, &str)] = &[
    (
        "default allow\nread: refused",
        "line 2: refused: expected a verdict of a filter, as allow or errno/EPERM",
    ),
    (
        "default allow\nread\n  performed where args[0] == 1\n  allow else",
        "line 3: performed: expected a verdict of a filter, as allow or errno/EPERM",
    ),
    (
        "others refused\nread: performed",
        "line 1: refused: expected a verdict of a filter, as allow or errno/EPERM",
    ),
];

#[test]
fn expectations_are_no_policies(rt: HostRuntime) -> Result<(), Fail> {
    let alloc = rt.alloc();
    for (text, wanted) in OF_NO_FILTER {
        let Err(refusal) = made(alloc, text.as_bytes()) else {
            return Err(Fail::from(*text));
        };
        assert_eq!(rt;
            refusal_text(alloc, text.as_bytes(), refusal)?.as_str(),
            *wanted
        );
    }
    Ok(())
}
