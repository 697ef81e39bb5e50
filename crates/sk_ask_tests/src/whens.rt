//! The text of small filters for one call, worked out by hand from their instructions.
use sk_arguments::Naming;
use sk_asm::assemble;
use sk_filter::{Chain, check};
use sk_names::Architecture;
use sk_when::{Budget, Budgets, Names, dot, told_rows, when_text};
use std::alloc::{AllocError, Global};
use std::test::Fail;

/// The chain of one filter, from its text.
pub fn chain_of(alloc: Global, text: &[u8]) -> Result<Chain, Fail> {
    let program = match check(assemble(alloc, text)?) {
        Ok(checked) => checked,
        Err((_, fault)) => return Err(Fail::from(fault)),
    };
    match Chain::empty(alloc).attach(program) {
        Ok(chain) => Ok(chain),
        Err((_, _, fault)) => Err(Fail::from(fault)),
    }
}

// The text for one call or for all, where so many rows may take all the steps of a row.
fn told(
    alloc: Global,
    names: Names,
    chain: &Chain,
    call: Option<u32>,
    most: u32,
) -> Result<String, AllocError> {
    let budgets = &mut Budgets::of_rows(most);
    let rows = told_rows(alloc, names.architecture, chain, call, budgets)?;
    when_text(alloc, names, &rows)
}

/// clone(2) with a flag that makes a namespace has an error.
const FLAGS: &[u8] = b"ldabs 16\njset 0x7e020000 +0 +1\nret errno/1\nret allow";

/// Filters, a number, and the text for it.
const ROWS: &[(&[u8], u32, &str)] = &[
    (
        FLAGS,
        56,
        "56 clone\n  allow where (args[0] & 0x7e020000) == 0\n  errno/1 EPERM else\n",
    ),
    // Both halves of an argument.
    (
        b"ldabs 20\njeq 1 +0 +3\nldabs 16\njeq 2 +0 +1\nret allow\nret errno/1",
        39,
        "39 getpid\n  allow where args[0] == 0x100000002\n  errno/1 EPERM else\n",
    ),
    // A masked word of the second argument.
    (
        b"ldabs 24\nand 0xf0\njeq 0x20 +0 +1\nret allow\nret errno/1",
        39,
        "39 getpid\n  allow where (args[1] & 0xf0) == 0x20\n  errno/1 EPERM else\n",
    ),
    // The higher half of the instruction pointer: from 2 on in that half is from 2 * 2^32 on.
    (
        b"ldabs 12\njgt 1 +0 +1\nret allow\nret errno/1",
        39,
        "39 getpid\n  allow where ip >= 0x200000000\n  errno/1 EPERM else\n",
    ),
    // Two numbers of an argument, half by half: the lower one is compared twice.
    (
        b"ldabs 20\njeq 0 +0 +4\nldabs 16\njeq 0 +1 +0\njeq 0xffffffff +0 +1\nret allow\nret errno/1",
        135,
        "135 personality\n  allow where args[0] == 0 || args[0] == 0xffffffff\n  errno/1 EPERM else\n",
    ),
    // A bound of 64 bits: a higher half above 0 is above it, and else the lower half decides.
    (
        b"ldabs 28\njgt 0 +4 +0\njeq 0 +0 +2\nldabs 24\njgt 0x1400000 +1 +0\nret allow\nret errno/1",
        10,
        "10 mprotect\n  allow where args[1] <= 0x1400000\n  errno/1 EPERM else\n",
    ),
    // Neighbouring numbers, and one apart from them.
    (
        b"ldabs 16\njeq 0x10 +3 +0\njeq 0x11 +2 +0\njeq 0x12 +1 +0\njeq 0x20 +0 +1\nret allow\nret errno/1",
        16,
        "16 ioctl\n  allow where (0x10 <= (args[0] & 0xffffffff) && (args[0] & 0xffffffff) <= 0x12)\n      || (args[0] & 0xffffffff) == 0x20\n  errno/1 EPERM else\n",
    ),
    // Where the first argument is 5 the other calls have one error, and else another one: for what is allowed it is the same.
    (
        b"ldabs 16\njeq 5 +0 +3\nldabs 40\njeq 1 +3 +0\nret 0\nldabs 40\njeq 1 +0 +1\nret allow\nret errno/1",
        25,
        "25 mremap\n  kill_thread where (args[0] & 0xffffffff) == 0x5 && (args[3] & 0xffffffff) != 0x1\n  allow where (args[3] & 0xffffffff) == 0x1\n  errno/1 EPERM else\n",
    ),
    // A word that is tested again: the second test is told by the first.
    (
        b"ldabs 16\njeq 7 +0 +2\njeq 8 +0 +1\nret 0\njeq 7 +0 +1\nret allow\nret errno/1",
        39,
        "39 getpid\n  allow where (args[0] & 0xffffffff) == 0x7\n  errno/1 EPERM else\n",
    ),
    // A word is returned, which is not followed.
    (b"ldabs 16\nreta", 39, "39 getpid any\n"),
    // One verdict.
    (b"ret allow", 0, "0 read allow\n"),
];

#[test]
fn small_filters(rt: HostRuntime) -> Result<(), Fail> {
    let alloc = rt.alloc();
    for (program, nr, wanted) in ROWS {
        let chain = chain_of(alloc, program)?;
        let names = Names {
            naming: Naming::Numbers,
            architecture: Architecture::X86_64,
        };
        let text = told(alloc, names, &chain, Some(*nr), 1)?;
        assert_eq!(rt; text.as_str(), *wanted, "at {wanted:?}");
    }
    Ok(())
}

/// An architecture, a number, and the text for filters where constants stand for numbers.
const CONSTANTS: &[(Architecture, &[u8], u32, &str)] = &[
    (
        Architecture::X86_64,
        FLAGS,
        56,
        "56 clone\n  allow where (args[0] & (CLONE_NEWNS|CLONE_NEWCGROUP|CLONE_NEWUTS|CLONE_NEWIPC|CLONE_NEWUSER|CLONE_NEWPID|CLONE_NEWNET)) == 0\n  errno/1 EPERM else\n",
    ),
    // The same call of another architecture, where constants may be others.
    (
        Architecture::I386,
        FLAGS,
        120,
        "120 clone\n  allow where (args[0] & 0x7e020000) == 0\n  errno/1 EPERM else\n",
    ),
];

#[test]
fn constants(rt: HostRuntime) -> Result<(), Fail> {
    let alloc = rt.alloc();
    for (architecture, program, nr, wanted) in CONSTANTS {
        let chain = chain_of(alloc, program)?;
        let names = Names {
            naming: Naming::Constants,
            architecture: *architecture,
        };
        let text = told(alloc, names, &chain, Some(*nr), 1)?;
        assert_eq!(rt; text.as_str(), *wanted, "at {wanted:?}");
    }
    Ok(())
}

/// An architecture, a number, and the text for a filter that allows every call.
const NAMES: &[(Architecture, u32, &str)] = &[
    (Architecture::X86_64, 11, "11 munmap allow\n"),
    (Architecture::I386, 11, "11 execve allow\n"),
    (Architecture::I386, 223, "223 - allow\n"),
    (Architecture::X32, 11, "11 - allow\n"),
    (Architecture::X32, 0x4000_000b, "1073741835 munmap allow\n"),
    (Architecture::Aarch64, 221, "221 execve allow\n"),
];

#[test]
fn names(rt: HostRuntime) -> Result<(), Fail> {
    let alloc = rt.alloc();
    let chain = chain_of(alloc, b"ret allow")?;
    for (architecture, nr, wanted) in NAMES {
        let names = Names {
            naming: Naming::Constants,
            architecture: *architecture,
        };
        let text = told(alloc, names, &chain, Some(*nr), 1)?;
        assert_eq!(rt; text.as_str(), *wanted, "at {wanted:?}");
    }
    Ok(())
}

/// Filters of 500 to 549 and 550 to 599, which have no names, and the end of what is told of all numbers: a range that is the whole
/// row is not told, and one that is a part of it is.
const RANGES: &[(&[u8], &str)] = &[
    // Both test one argument for one number.
    (
        b"ldabs 0\njge 500 +0 +1\njgt 549 +0 +3\njge 550 +0 +1\njgt 599 +0 +1\nret 0\nldabs 16\njeq 1 +0 +1\nret allow\nret errno/1",
        "\n500-599 -\n  allow where (args[0] & 0xffffffff) == 0x1\n  errno/1 EPERM else\n600-4294967295 - kill_thread\n",
    ),
    // Each tests it for another one.
    (
        b"ldabs 0\njge 500 +0 +1\njgt 549 +0 +3\njge 550 +0 +1\njgt 599 +0 +3\nret 0\nldabs 16\njeq 1 +2 +3\nldabs 16\njeq 2 +0 +1\nret allow\nret errno/1",
        "\n500-599 -\n  allow where nr >= 0x226 && (args[0] & 0xffffffff) == 0x2\n  allow where nr <= 0x225 && (args[0] & 0xffffffff) == 0x1\n  errno/1 EPERM else\n600-4294967295 - kill_thread\n",
    ),
];

#[test]
fn numbers_of_a_row(rt: HostRuntime) -> Result<(), Fail> {
    let alloc = rt.alloc();
    for (program, wanted) in RANGES {
        let chain = chain_of(alloc, program)?;
        let names = Names {
            naming: Naming::Constants,
            architecture: Architecture::X86_64,
        };
        let text = told(alloc, names, &chain, None, 1000)?;
        assert!(rt; text.as_str().ends_with(wanted), "at {wanted:?}");
    }
    Ok(())
}

// A term with two ends.
#[test]
fn picture(rt: HostRuntime) -> Result<(), Fail> {
    let chain = chain_of(rt.alloc(), FLAGS)?;
    let text = dot(rt.alloc(), &chain, 56, &mut Budget::whole())?;
    let wanted =
        "digraph {\n  n0 [label=\"(args[0] & 0x7e020000) != 0\"];\n  n0 -> n1 [label=yes];\n  n1 [label=\"errno/1 EPERM\", style=filled, fillcolor=khaki];\n  n0 -> n2 [label=no];\n  n2 [label=\"allow\", style=filled, fillcolor=palegreen];\n}\n";
    assert_eq!(rt; text.as_str(), wanted);
    Ok(())
}
