//! Damaged profiles, and what is said of each.
use sk_profile_json::{Context, Kernel, Machine, Refusal, made, refusal_text};
use std::alloc::{AllocError, Global};
use std::process::Abort;
use std::test::Fail;

/// Where the profiles are to hold.
const CONTEXT: Context<'_> = Context {
    capabilities: &[],
    kernel: Kernel {
        major: 6,
        minor: 12,
    },
    runc: false,
    machine: Some(Machine::X86_64),
    native: false,
};

/// Files that have more than one line, or bytes that are no text.
const FILES: &[(&[u8], &str)] = &[
    (
        b"{\xff}",
        "is no text in UTF-8: expected the JSON of a profile",
    ),
    (
        b"\xc3{}",
        "is no text in UTF-8: expected the JSON of a profile",
    ),
    (
        b"",
        "is no JSON: expected the JSON of a profile, no more than 128 deep",
    ),
    (
        b"// a comment\n{}",
        "line 1, column 1: a comment begins: JSON has none",
    ),
];

// A line that begins with `= ` has what is said of the parts behind it. These are whole files.
const WHOLE: &str = "= is no JSON: expected the JSON of a profile, no more than 128 deep
{
{}}
{\"defaultAction\": SCMP_ACT_ALLOW}
{'defaultAction': 1}
{\"a\": 01}
[
[[[[[[[[[[[[[[[[[[[[[[[[[[[[[[[[[[[[[[[[[[[[[[[[[[[[[[[[[[[[[[[[[[[[[[[[[[[[[[[[[[[[[[[[[[[[[[[[[[[[[[[[[[[[[[[[[[[[[[[[[[[[[[[[[]]]]]]]]]]]]]]]]]]]]]]]]]]]]]]]]]]]]]]]]]]]]]]]]]]]]]]]]]]]]]]]]]]]]]]]]]]]]]]]]]]]]]]]]]]]]]]]]]]]]]]]]]]]]]]]]]]]]]]]]]]]]]]]]]
= line 1, column 35: a comma stands before the bracket that closes: JSON has none there
{\"defaultAction\": \"SCMP_ACT_ALLOW\",}
= a key comes twice in one object
{\"defaultAction\": \"SCMP_ACT_ALLOW\", \"defaultAction\": \"SCMP_ACT_ERRNO\"}
{\"a\": {\"b\": 1, \"\\u0062\": 2}}
= expected an object
[]
null
\"{}\"
= key 1 is not known: expected defaultAction, defaultErrnoRet, defaultErrno, architectures, archMap, flags, listenerPath, listenerMetadata or syscalls
{\"default\": \"SCMP_ACT_ALLOW\"}
= defaultAction: missing: expected an action as SCMP_ACT_ERRNO, and not SCMP_ACT_NOTIFY
{}
{\"defaultAction\": null}
= defaultAction: expected an action as SCMP_ACT_ERRNO, and not SCMP_ACT_NOTIFY
{\"defaultAction\": \"ALLOW\"}
{\"defaultAction\": \"scmp_act_allow\"}
{\"defaultAction\": \"SCMP_ACT_NOTIFY\"}
{\"defaultAction\": 1}
{\"defaultAction\": [\"SCMP_ACT_ALLOW\"]}
{\"defaultAction\": \"SCMP_ACT_ALLOW \"}
= defaultErrnoRet: expected only beside SCMP_ACT_ERRNO or SCMP_ACT_TRACE
{\"defaultAction\": \"SCMP_ACT_ALLOW\", \"defaultErrnoRet\": 1}
= a filter
{\"defaultAction\": \"SCMP_ACT_ALLOW\", \"syscalls\": [{\"names\": [\"getpid\"], \"action\": \"SCMP_ACT_ERRNO\", \"args\": [{\"index\": 0, \"value\": 255, \"valueTwo\": 16, \"op\": \"SCMP_CMP_MASKED_EQ\"}]}, {\"names\": [\"getpid\"], \"action\": \"SCMP_ACT_KILL_PROCESS\", \"args\": [{\"index\": 0, \"value\": 5, \"op\": \"SCMP_CMP_LT\"}]}]}
";

// The keys behind the first one.
const KEYS: &str = "= a key comes twice in one object
\"syscalls\": [{\"names\": [\"read\"], \"names\": [\"write\"], \"action\": \"SCMP_ACT_ALLOW\"}]
= key 3 is not known: expected defaultAction, defaultErrnoRet, defaultErrno, architectures, archMap, flags, listenerPath, listenerMetadata or syscalls
\"syscalls\": [], \"Syscalls\": []
= defaultErrnoRet: expected a number up to 4094, or beside SCMP_ACT_TRACE up to 65535
\"defaultErrnoRet\": 4095
\"defaultErrnoRet\": -1
\"defaultErrnoRet\": 1.0
\"defaultErrnoRet\": 1e2
\"defaultErrnoRet\": \"38\"
\"defaultErrnoRet\": 65536
\"defaultErrnoRet\": true
= defaultErrno: expected the name of an error
\"defaultErrno\": 1
= defaultErrno: expected the name of the error in defaultErrnoRet, beside it
\"defaultErrno\": \"EPERM\"
\"defaultErrnoRet\": 38, \"defaultErrno\": \"EPERM\"
= architectures: expected a list of names as SCMP_ARCH_X86, with that of the machine among them
\"architectures\": [\"SCMP_ARCH_X86\"]
\"architectures\": [\"x86_64\"]
\"architectures\": \"SCMP_ARCH_X86_64\"
\"architectures\": [\"SCMP_ARCH_X86_64\", 1]
= archMap: expected a list of objects with architecture and subArchitectures
\"archMap\": [{\"architecture\": \"arm64\"}]
\"archMap\": [{}]
\"archMap\": [\"SCMP_ARCH_X86_64\"]
\"archMap\": [{\"architecture\": \"SCMP_ARCH_X86_64\", \"subs\": []}]
\"archMap\": [{\"architecture\": \"SCMP_ARCH_X86_64\", \"subArchitectures\": [\"i386\"]}]
\"archMap\": {}
= archMap: beside architectures: expected one of the two
\"architectures\": [\"SCMP_ARCH_X86_64\"], \"archMap\": [{\"architecture\": \"SCMP_ARCH_X86_64\"}]
= syscalls: expected a list of entries
\"syscalls\": {}
= a filter
\"archMap\": [{\"architecture\": \"SCMP_ARCH_AARCH64\"}]
";

// The second entry.
const ENTRIES: &str = "= expected an object
[]
= key 3 is not known: expected names, name, action, errnoRet, errno, args, comment, includes or excludes
{\"names\": [\"read\"], \"action\": \"SCMP_ACT_ALLOW\", \"arg\": []}
= names: missing: expected a list of names of calls, with one at least
{\"action\": \"SCMP_ACT_ALLOW\"}
{\"names\": [], \"action\": \"SCMP_ACT_ALLOW\"}
= names: expected a list of names of calls, with one at least
{\"names\": \"read\", \"action\": \"SCMP_ACT_ALLOW\"}
{\"names\": [\"read\", 0], \"action\": \"SCMP_ACT_ALLOW\"}
= name: expected the name of a call
{\"name\": 0, \"action\": \"SCMP_ACT_ALLOW\"}
= name: beside names: expected one of the two
{\"names\": [\"read\"], \"action\": \"SCMP_ACT_ALLOW\", \"name\": \"read\"}
= action: missing: expected an action as SCMP_ACT_ALLOW
{\"names\": [\"read\"]}
= action: expected an action as SCMP_ACT_ALLOW
{\"names\": [\"read\"], \"action\": \"ALLOW\"}
= action: who is notified of write is told so by write: expected another action
{\"names\": [\"read\", \"write\"], \"action\": \"SCMP_ACT_NOTIFY\"}
= errnoRet: expected only beside SCMP_ACT_ERRNO or SCMP_ACT_TRACE
{\"names\": [\"read\"], \"action\": \"SCMP_ACT_ALLOW\", \"errnoRet\": 1}
= errnoRet: expected a number up to 4094, or beside SCMP_ACT_TRACE up to 65535
{\"names\": [\"read\"], \"action\": \"SCMP_ACT_ERRNO\", \"errnoRet\": 4095}
= errno: expected the name of the error in errnoRet, beside it
{\"names\": [\"read\"], \"action\": \"SCMP_ACT_ERRNO\", \"errnoRet\": 1, \"errno\": \"ENOSYS\"}
= errno: expected the name of an error
{\"names\": [\"read\"], \"action\": \"SCMP_ACT_ERRNO\", \"errno\": 38}
= args: expected a list of comparisons
{\"names\": [\"read\"], \"action\": \"SCMP_ACT_ALLOW\", \"args\": {}}
= includes: expected an object with lists of names arches and caps, and a version minKernel as 4.8
{\"names\": [\"read\"], \"action\": \"SCMP_ACT_ALLOW\", \"includes\": []}
{\"names\": [\"read\"], \"action\": \"SCMP_ACT_ALLOW\", \"includes\": {\"cap\": []}}
{\"names\": [\"read\"], \"action\": \"SCMP_ACT_ALLOW\", \"includes\": {\"minKernel\": \"4\"}}
= excludes: expected an object with lists of names arches and caps, and a version minKernel as 4.8
{\"names\": [\"read\"], \"action\": \"SCMP_ACT_ALLOW\", \"excludes\": {\"caps\": [1]}}
{\"names\": [\"read\"], \"action\": \"SCMP_ACT_ALLOW\", \"excludes\": {\"minKernel\": 4.8}}
";

// The second comparison of the second entry.
const COMPARISONS: &str = "= item 2 of args: expected an object
0
= item 2 of args: key 4 is not known: expected index, value, valueTwo or op
{\"index\": 1, \"value\": 1, \"op\": \"SCMP_CMP_EQ\", \"valuetwo\": 0}
= item 2 of args: index: missing: expected the number of an argument, from 0 to 5
{\"value\": 1, \"op\": \"SCMP_CMP_EQ\"}
= item 2 of args: index: expected the number of an argument, from 0 to 5
{\"index\": 6, \"value\": 1, \"op\": \"SCMP_CMP_EQ\"}
{\"index\": \"1\", \"value\": 1, \"op\": \"SCMP_CMP_EQ\"}
= item 2 of args: value: missing: expected a number up to 18446744073709551615
{\"index\": 1, \"op\": \"SCMP_CMP_EQ\"}
= item 2 of args: value: expected a number up to 18446744073709551615
{\"index\": 1, \"value\": -1, \"op\": \"SCMP_CMP_EQ\"}
{\"index\": 1, \"value\": 18446744073709551616, \"op\": \"SCMP_CMP_EQ\"}
= item 2 of args: valueTwo: expected a number up to 18446744073709551615
{\"index\": 1, \"value\": 1, \"valueTwo\": \"0\", \"op\": \"SCMP_CMP_EQ\"}
= item 2 of args: op: missing: expected an operator as SCMP_CMP_EQ
{\"index\": 1, \"value\": 1}
= item 2 of args: op: expected an operator as SCMP_CMP_EQ
{\"index\": 1, \"value\": 1, \"op\": \"==\"}
= item 2 of args: valueTwo: expected 0, or beside SCMP_CMP_MASKED_EQ no bit outside of value
{\"index\": 1, \"value\": 1, \"valueTwo\": 1, \"op\": \"SCMP_CMP_EQ\"}
{\"index\": 1, \"value\": 1, \"valueTwo\": 3, \"op\": \"SCMP_CMP_MASKED_EQ\"}
= args: expected one comparison of each argument at most
{\"index\": 0, \"value\": 1, \"op\": \"SCMP_CMP_EQ\"}
";

// The entries, of which two clash where both fit one call, and say different things.
const CLASHES: &str =
    "= entries 1 and 2 of syscalls clash: both fit clone(0x1, 0x2, 0x0, 0x0, 0x0, 0x0), and they say different things
{\"names\": [\"clone\"], \"action\": \"SCMP_ACT_ALLOW\", \"args\": [{\"index\": 0, \"value\": 1, \"op\": \"SCMP_CMP_EQ\"}]}, {\"names\": [\"clone\"], \"action\": \"SCMP_ACT_LOG\", \"args\": [{\"index\": 1, \"value\": 2, \"op\": \"SCMP_CMP_EQ\"}]}
= entries 2 and 4 of syscalls clash: both fit setns(0xb, 0x0, 0x0, 0x0, 0x0, 0x0), and they say different things
{\"names\": [\"read\"], \"action\": \"SCMP_ACT_ALLOW\"}, {\"names\": [\"setns\"], \"action\": \"SCMP_ACT_ALLOW\", \"args\": [{\"index\": 0, \"value\": 5, \"op\": \"SCMP_CMP_GT\"}]}, {\"names\": [\"read\"], \"action\": \"SCMP_ACT_ALLOW\"}, {\"names\": [\"setns\"], \"action\": \"SCMP_ACT_LOG\", \"args\": [{\"index\": 0, \"value\": 10, \"op\": \"SCMP_CMP_GT\"}]}
= entries 2 and 3 of syscalls clash: both fit mseal(0x0, 0x0, 0x8, 0x0, 0x0, 0x0), and they say different things
{\"names\": [\"read\"], \"action\": \"SCMP_ACT_ALLOW\", \"args\": [{\"index\": 0, \"value\": 1, \"op\": \"SCMP_CMP_EQ\"}]}, {\"names\": [\"write\", \"open\", \"mseal\"], \"action\": \"SCMP_ACT_LOG\", \"args\": [{\"index\": 2, \"value\": 7, \"op\": \"SCMP_CMP_NE\"}]}, {\"names\": [\"mseal\"], \"action\": \"SCMP_ACT_TRAP\", \"args\": [{\"index\": 2, \"value\": 8, \"op\": \"SCMP_CMP_EQ\"}]}
= a filter
{\"names\": [\"getpid\"], \"action\": \"SCMP_ACT_ALLOW\", \"args\": [{\"index\": 0, \"value\": 1, \"op\": \"SCMP_CMP_LT\"}]}, {\"names\": [\"getpid\"], \"action\": \"SCMP_ACT_LOG\", \"args\": [{\"index\": 0, \"value\": 0, \"op\": \"SCMP_CMP_NE\"}]}
{\"names\": [\"getpid\"], \"action\": \"SCMP_ACT_ALLOW\", \"args\": [{\"index\": 0, \"value\": 240, \"valueTwo\": 16, \"op\": \"SCMP_CMP_MASKED_EQ\"}]}, {\"names\": [\"getpid\"], \"action\": \"SCMP_ACT_LOG\", \"args\": [{\"index\": 0, \"value\": 16, \"op\": \"SCMP_CMP_LT\"}]}
{\"names\": [\"getpid\"], \"action\": \"SCMP_ACT_ALLOW\", \"args\": [{\"index\": 0, \"value\": 5, \"op\": \"SCMP_CMP_LE\"}]}, {\"names\": [\"getpid\"], \"action\": \"SCMP_ACT_LOG\", \"args\": [{\"index\": 0, \"value\": 5, \"op\": \"SCMP_CMP_GT\"}]}
{\"names\": [\"getpid\"], \"action\": \"SCMP_ACT_ALLOW\", \"args\": [{\"index\": 0, \"value\": 1, \"valueTwo\": 0, \"op\": \"SCMP_CMP_MASKED_EQ\"}]}, {\"names\": [\"getpid\"], \"action\": \"SCMP_ACT_LOG\", \"args\": [{\"index\": 0, \"value\": 1, \"valueTwo\": 1, \"op\": \"SCMP_CMP_MASKED_EQ\"}]}
{\"names\": [\"getpid\"], \"action\": \"SCMP_ACT_ALLOW\", \"args\": [{\"index\": 0, \"value\": 5, \"op\": \"SCMP_CMP_GT\"}]}, {\"names\": [\"getpid\"], \"action\": \"SCMP_ACT_ERRNO\", \"args\": [{\"index\": 0, \"value\": 10, \"op\": \"SCMP_CMP_GT\"}]}
= entries 1 and 2 of syscalls clash: both fit getpid(0x10, 0x0, 0x0, 0x0, 0x0, 0x0), and they say different things
{\"names\": [\"getpid\"], \"action\": \"SCMP_ACT_ALLOW\", \"args\": [{\"index\": 0, \"value\": 240, \"valueTwo\": 16, \"op\": \"SCMP_CMP_MASKED_EQ\"}]}, {\"names\": [\"getpid\"], \"action\": \"SCMP_ACT_LOG\", \"args\": [{\"index\": 0, \"value\": 17, \"op\": \"SCMP_CMP_LT\"}]}
= entries 1 and 2 of syscalls clash: both fit getpid(0x8000000000000001, 0x0, 0x0, 0x0, 0x0, 0x0), and they say different things
{\"names\": [\"getpid\"], \"action\": \"SCMP_ACT_ALLOW\", \"args\": [{\"index\": 0, \"value\": 9223372036854775808, \"valueTwo\": 9223372036854775808, \"op\": \"SCMP_CMP_MASKED_EQ\"}]}, {\"names\": [\"getpid\"], \"action\": \"SCMP_ACT_LOG\", \"args\": [{\"index\": 0, \"value\": 9223372036854775808, \"op\": \"SCMP_CMP_NE\"}]}
= entries 1 and 2 of syscalls clash: both fit getpid(0x6, 0x0, 0x0, 0x0, 0x0, 0x0), and they say different things
{\"names\": [\"getpid\"], \"action\": \"SCMP_ACT_ALLOW\", \"args\": [{\"index\": 0, \"value\": 12, \"valueTwo\": 4, \"op\": \"SCMP_CMP_MASKED_EQ\"}]}, {\"names\": [\"getpid\"], \"action\": \"SCMP_ACT_LOG\", \"args\": [{\"index\": 0, \"value\": 3, \"valueTwo\": 2, \"op\": \"SCMP_CMP_MASKED_EQ\"}]}
= entries 1 and 2 of syscalls clash: both fit getpid(0x110, 0x1, 0x0, 0x0, 0x0, 0xffffffffffffffff), and they say different things
{\"names\": [\"getpid\"], \"action\": \"SCMP_ACT_ALLOW\", \"args\": [{\"index\": 0, \"value\": 240, \"valueTwo\": 16, \"op\": \"SCMP_CMP_MASKED_EQ\"}, {\"index\": 5, \"value\": 18446744073709551615, \"op\": \"SCMP_CMP_GE\"}]}, {\"names\": [\"getpid\"], \"action\": \"SCMP_ACT_LOG\", \"args\": [{\"index\": 0, \"value\": 32, \"op\": \"SCMP_CMP_GE\"}, {\"index\": 1, \"value\": 0, \"op\": \"SCMP_CMP_NE\"}]}
";

/// What begins a profile, and its entries, and their second one, and the second comparison of that.
const BEGINS: &str = "{\"defaultAction\": \"SCMP_ACT_ERRNO\", ";

const LISTS: &str = "\"syscalls\": [";

const SECOND: &str = "{\"names\": [\"read\"], \"action\": \"SCMP_ACT_ALLOW\"}, ";

const COMPARES: &str =
    "{\"names\": [\"read\"], \"action\": \"SCMP_ACT_ALLOW\", \"args\": [{\"index\": 0, \"value\": 1, \"op\": \"SCMP_CMP_EQ\"}, ";

fn said(alloc: Global, file: &[u8]) -> Result<String, AllocError> {
    match made(alloc, &CONTEXT, file)? {
        Ok(_) => String::from_str(alloc, "a filter"),
        Err(refusal) => refusal_text(alloc, refusal),
    }
}

#[test]
fn files(rt: HostRuntime) -> Result<(), Fail> {
    for (file, why) in FILES {
        assert_eq!(rt; said(rt.alloc(), file)?.as_str(), *why);
    }
    Ok(())
}

// Whatever the file is, it has no filter where none is made for the machine.
#[test]
fn no_machine(rt: HostRuntime) -> Result<(), Fail> {
    let context = Context {
        machine: None,
        ..CONTEXT
    };
    let files: [&[u8]; 2] = [b"{\"defaultAction\": \"SCMP_ACT_ALLOW\"}", b"{\xff}"];
    for file in files {
        let refusal = made(rt.alloc(), &context, file)?.err();
        assert_eq!(rt; refusal, Some(Refusal::NoMachine));
    }
    let text = refusal_text(rt.alloc(), Refusal::NoMachine)?;
    let said =
        "no filter is made of a profile for s390x: its arguments have their highest byte first";
    assert_eq!(rt; text.as_str(), said);
    Ok(())
}

// What is said of parts of profiles, which stand behind a beginning and before an end.
fn are_told<R: Abort + AllocGlobal>(
    rt: &R,
    begins: &[&str],
    ends: &str,
    place: &str,
    rows: &str,
) -> Result<(), Fail> {
    let begins = begins.concat(rt.alloc())?;
    let mut why: &[u8] = b"";
    for row in rows.lines() {
        match row.strip_prefix("= ") {
            Some(text) => why = text.as_bytes(),
            None => {
                let file = format!(in rt.alloc(); "{begins}{row}{ends}")?;
                let told = said(rt.alloc(), file.as_bytes())?;
                let Some(rest) = told.as_str().strip_prefix(place) else {
                    return Err(Fail::new("another place"));
                };
                assert_eq!(rt; rest.as_bytes(), why);
            }
        }
    }
    Ok(())
}

#[test]
fn refusals(rt: HostRuntime) -> Result<(), Fail> {
    let second = "entry 2 of syscalls: ";
    are_told(&rt, &[], "", "", WHOLE)?;
    are_told(&rt, &[BEGINS], "}", "", KEYS)?;
    are_told(&rt, &[BEGINS, LISTS], "]}", "", CLASHES)?;
    are_told(&rt, &[BEGINS, LISTS, SECOND], "]}", second, ENTRIES)?;
    are_told(
        &rt,
        &[BEGINS, LISTS, SECOND, COMPARES],
        "]}]}",
        second,
        COMPARISONS,
    )
}
