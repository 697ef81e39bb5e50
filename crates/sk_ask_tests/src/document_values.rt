//! A small document of each word, from values that are put together by hand.
use sk_arguments::Naming;
use sk_conditions::{Numbers, Verdicts};
use sk_document::{
    arches_document, calls_document, comparison_document, lint_document, when_document,
};
use sk_insn::{ALLOW, Record};
use sk_names::Architecture;
use sk_show::{Example, Line, Shown};
use sk_survey::{Answered, Answers, Other, Row, Told};
use sk_terms::{Choice, Register, Term};
use sk_when::{Calls, ConditionalRow, Finding, Names, Outcome, Part, Piece, Relation, Remarks};
use std::alloc::{AllocError, Global};
use std::fmt::Write;
use std::str;
use std::test::Fail;

/// clone(2) with SIGCHLD.
const CLONE: Record = Record {
    nr: 56,
    arch: 0xC000_003E,
    ip: 0,
    args: [0x11, 0, 0, 0, 0, 0],
};

/// socket(2) with a bit in its first argument that Linux does not read.
const SOCKET: Record = Record {
    nr: 41,
    args: [0x1_0000_0010, 3, 9, 0, 0, 0],
    ..CLONE
};

const NAMES: Names = Names {
    naming: Naming::Constants,
    architecture: Architecture::X86_64,
};

const CALLS: &str =
    "{\"word\":\"calls\",\"architecture\":\"x86-64\",\"looks_at_architecture\":true,\"rows\":[{\"first\":56,\"last\":56,\
    \"name\":\"clone\",\"verdicts\":[{\"value\":2147418112,\"action\":\"allow\",\"data\":0,\"text\":\"allow\"}],\
    \"text\":\"allow\",\"examples\":[{\"verdict\":{\"value\":2147418112,\"action\":\"allow\",\"data\":0,\"text\":\"allow\"},\
    \"found\":{\"filter\":1,\"instruction\":3,\"call\":{\"number\":56,\"name\":\"clone\",\"args\":[\"0x11\",\"0x0\",\
    \"0x0\",\"0x0\",\"0x0\",\"0x0\"],\"ip\":\"0x0\",\"record\":\"380000003e0000c00000000000000000110000000000000000000000000000000000000000000000000000000000000000000000000000000000000000000000\",\
    \"text\":\"syscall(SYS_clone, SIGCHLD, 0x0, 0x0, 0x0, 0x0, 0x0)\"}}}]},{\"first\":463,\"last\":4294967295,\
    \"name\":null,\"verdicts\":null,\"text\":\"any\",\"examples\":[]}]}\n";

const WHEN: &str =
    "{\"word\":\"when\",\"architecture\":\"x86-64\",\"rows\":[{\"first\":41,\"last\":41,\"name\":\"socket\",\"verdicts\":[{\"value\":2147418112,\
    \"action\":\"allow\",\"data\":0,\"text\":\"allow\"}],\"lines\":[{\"verdict\":{\"value\":327681,\"action\":\"errno\",\
    \"data\":1,\"text\":\"errno/1 EPERM\"},\"choices\":[[{\"argument\":\"args[0]\",\"mask\":\"0xffffffffffffffff\",\
    \"from\":\"0x10\",\"to\":\"0x10\",\"inside\":true}]],\"condition\":\"args[0] == AF_NETLINK\"},{\"verdict\":null,\
    \"choices\":[[{\"argument\":\"ip\",\"mask\":\"0xffffffffffffffff\",\"from\":\"0x10\",\"to\":\"0x10\",\"inside\":true}]],\
    \"condition\":\"ip == 0x10\"}],\"otherwise\":{\"value\":2147418112,\"action\":\"allow\",\"data\":0,\"text\":\"allow\"}}]}\n";

const EXPECT: &str =
    "{\"word\":\"expect\",\"architecture\":\"x86-64\",\"relation\":\"as expected\",\"holds\":false,\"differences\":[{\"first\":56,\
    \"last\":56,\"name\":\"clone\",\"kind\":\"other\",\"old\":{\"value\":65537,\"action\":\"unknown\",\"data\":1,\"text\":\"expected refused\"},\
    \"new\":{\"value\":2147418112,\"action\":\"allow\",\"data\":0,\"text\":\"allow\"},\"choices\":null,\"condition\":null,\
    \"call\":{\"number\":56,\"name\":\"clone\",\"args\":[\"0x11\",\"0x0\",\"0x0\",\"0x0\",\"0x0\",\"0x0\"],\"ip\":\"0x0\",\
    \"record\":\"380000003e0000c00000000000000000110000000000000000000000000000000000000000000000000000000000000000000000000000000000000000000000\",\
    \"text\":\"syscall(SYS_clone, SIGCHLD, 0x0, 0x0, 0x0, 0x0, 0x0)\"}},{\"first\":56,\"last\":56,\"name\":\"clone\",\
    \"kind\":\"undecided\",\"old\":null,\"new\":null,\"choices\":[[{\"argument\":\"nr\",\"mask\":\"0xffffffff\",\
    \"from\":\"0x10\",\"to\":\"0x10\",\"inside\":true}]],\"condition\":\"nr == 0x10\",\"call\":null}]}\n";

const LINT: &str =
    "{\"word\":\"lint\",\"holds\":true,\"differences\":[{\"first\":41,\"last\":41,\"name\":\"socket\",\"architecture\":\"x86-64\",\
    \"concern\":\"stricter\",\"old\":{\"value\":2147418112,\"action\":\"allow\",\"data\":0,\"text\":\"allow\"},\"new\":{\"value\":327702,\
    \"action\":\"errno\",\"data\":22,\"text\":\"errno/22 EINVAL\"},\"choices\":null,\"condition\":null,\"call\":{\"number\":41,\
    \"name\":\"socket\",\"args\":[\"0x100000010\",\"0x3\",\"0x9\",\"0x0\",\"0x0\",\"0x0\"],\"ip\":\"0x0\",\"record\":\"290000003e0000c00000000000000000100000000100000003000000000000000900000000000000000000000000000000000000000000000000000000000000\",\
    \"text\":\"syscall(SYS_socket, 0x100000010, 0x3, 0x9, 0x0, 0x0, 0x0)\"},\"taken\":{\"number\":41,\"name\":\"socket\",\
    \"args\":[\"0x10\",\"0x3\",\"0x9\",\"0x0\",\"0x0\",\"0x0\"],\"ip\":\"0x0\",\"record\":\"290000003e0000c00000000000000000100000000000000003000000000000000900000000000000000000000000000000000000000000000000000000000000\",\
    \"text\":\"syscall(SYS_socket, 0x10, 0x3, 0x9, 0x0, 0x0, 0x0)\"},\"remark\":\"  41\\n\"}]}\n";

const ARCHES: &str =
    "{\"word\":\"arches\",\"architectures\":[{\"name\":\"x86-64\",\"verdict\":null},{\"name\":\"x32\",\"verdict\":{\"value\":2147483648,\
    \"action\":\"kill_process\",\"data\":0,\"text\":\"kill_process\"}}],\"other\":{\"followed\":false,\"verdict\":null},\
    \"warnings\":[{\"architecture\":\"x32\",\"ptrace\":1073742345}]}\n";

/// The number of the call.
#[derive(Drop)]
struct Number;

impl Remarks for Number {
    ghost use Rattle.std.specs.Prelude.{◌++◌, codes};
    ghost use Rattle.std.specs.Fmt.{decimal};

    ghost remark = { λ _ call. codes "  " ++ (decimal call.nr ++ codes "\n") };

    fn push(&self, text: &mut String, call: &Record) -> Result<(), AllocError> {
        let nr = call.nr;
        write!(text, "  {nr}\n")
    }
}

/// The numbers of a row, and one verdict.
fn row(alloc: Global, nr: u32, value: u32) -> Result<Row, AllocError> {
    Ok(Row {
        first: nr,
        last: nr,
        answers: Answers::one(alloc, value)?,
    })
}

/// A register is 16.
fn line(
    alloc: Global,
    register: Register,
    mask: u64,
    value: Option<u32>,
) -> Result<sk_terms::Line, AllocError> {
    let term = Term {
        register,
        mask,
        first: 16,
        last: 16,
        inside: true,
    };
    let choice = Choice {
        terms: vec![in alloc; term]?,
    };
    let mut choices = Vec::new(alloc);
    choices.push(choice)?;
    Ok(sk_terms::Line { value, choices })
}

/// A piece of one number with one part of every call.
fn piece(alloc: Global, old: u32, new: u32, call: Record) -> Result<Piece, AllocError> {
    let mut parts = Vec::new(alloc);
    parts.push(Part {
        calls: Calls::Every,
        outcome: Outcome::Apart(Verdicts { old, new }, call),
    })?;
    Ok(Piece {
        numbers: Numbers {
            first: call.nr,
            last: call.nr,
        },
        parts,
    })
}

#[test]
fn rows_of_calls(rt: HostRuntime) -> Result<(), Fail> {
    let alloc = rt.alloc();
    let shown = Shown {
        value: ALLOW,
        found: Some(Example {
            call: CLONE,
            filter: 1,
            place: 3,
        }),
    };
    let mut lines = Vec::new(alloc);
    lines.push(Line {
        row: row(alloc, 56, ALLOW)?,
        shown: vec![in alloc; shown]?,
    })?;
    lines.push(Line {
        row: Row {
            first: 463,
            last: u32::MAX,
            answers: Answers::Any,
        },
        shown: Vec::new(alloc),
    })?;
    let text = calls_document(alloc, Architecture::X86_64, true, &lines)?;
    assert_eq!(rt; str::from_utf8(&text)?, CALLS);
    Ok(())
}

#[test]
fn conditions(rt: HostRuntime) -> Result<(), Fail> {
    let alloc = rt.alloc();
    let mut lines = Vec::new(alloc);
    lines.push(line(alloc, Register::Argument(0), u64::MAX, Some(0x0005_0001))?)?;
    lines.push(line(alloc, Register::Pointer, u64::MAX, None)?)?;
    let mut rows = Vec::new(alloc);
    rows.push(ConditionalRow {
        row: row(alloc, 41, ALLOW)?,
        lines,
        otherwise: Some(ALLOW),
    })?;
    let text = when_document(alloc, NAMES, &rows)?;
    assert_eq!(rt; str::from_utf8(&text)?, WHEN);
    Ok(())
}

#[test]
fn comparisons(rt: HostRuntime) -> Result<(), Fail> {
    let alloc = rt.alloc();
    let mut unexpected = piece(alloc, 0x0001_0001, ALLOW, CLONE)?;
    unexpected.parts.push(Part {
        calls: Calls::Meeting(line(alloc, Register::Number, 0xffff_ffff, None)?),
        outcome: Outcome::Undecided,
    })?;
    let mut pieces = Vec::new(alloc);
    pieces.push(unexpected)?;
    let text = comparison_document(
        alloc,
        "expect",
        NAMES,
        Relation::Expected,
        Finding::Fails,
        &pieces,
    )?;
    assert_eq!(rt; str::from_utf8(&text)?, EXPECT);
    Ok(())
}

#[test]
fn bits_that_linux_does_not_read(rt: HostRuntime) -> Result<(), Fail> {
    let alloc = rt.alloc();
    let mut pieces = Vec::new(alloc);
    pieces.push(piece(alloc, ALLOW, 0x0005_0016, SOCKET)?)?;
    let text = lint_document(alloc, Naming::Numbers, &Number, Finding::Holds, &pieces)?;
    assert_eq!(rt; str::from_utf8(&text)?, LINT);
    Ok(())
}

#[test]
fn architectures(rt: HostRuntime) -> Result<(), Fail> {
    let alloc = rt.alloc();
    let mut all = Vec::new(alloc);
    all.push(Answered {
        architecture: Architecture::X86_64,
        row: Row {
            first: 0,
            last: 0x3fff_ffff,
            answers: Answers::Any,
        },
    })?;
    all.push(Answered {
        architecture: Architecture::X32,
        row: row(alloc, 0x4000_0000, 0x8000_0000)?,
    })?;
    let told = Told {
        all,
        other: Other::Unknown,
        i386: false,
        x32: true,
    };
    let text = arches_document(alloc, &told)?;
    assert_eq!(rt; str::from_utf8(&text)?, ARCHES);
    Ok(())
}
