//! What the texts of policies say of calls, and why other texts are none: worked out by hand from the page on the language.
use sk_filter::{Checked, check, run};
use sk_insn::{ALLOW, Record, read_insns};
use sk_policy_text::{made, refusal_text};
use std::alloc::Global;
use std::test::Fail;

/// AUDIT_ARCH_X86_64, AUDIT_ARCH_I386 and AUDIT_ARCH_AARCH64 of linux/audit.h.
const X86_64: u32 = 0xc000_003e;

const I386: u32 = 0x4000_0003;

const AARCH64: u32 = 0xc000_00b7;

/// Values of seccomp(2), with numbers of errno(3).
const KILL: u32 = 0x8000_0000;

const THREAD: u32 = 0;

const LOG: u32 = 0x7ffc_0000;

const EPERM: u32 = 0x0005_0001;

const ENOSYS: u32 = 0x0005_0026;

/// A policy, and calls with their architecture, their number, their first two arguments, and the value that they get.
const POLICIES: &[(&str, &[(u32, u32, u64, u64, u32)])] = &[
    (
        "default allow",
        &[
            (X86_64, 0, 0, 0, ALLOW),
            (X86_64, 0x3fff_ffff, 0, 0, ALLOW),
            (X86_64, 0x4000_0000, 0, 0, KILL),
            (X86_64, 0xffff_fffe, 0, 0, KILL),
            (X86_64, u32::MAX, 0, 0, ALLOW),
            (I386, 0, 0, 0, KILL),
        ],
    ),
    (
        "others log # those of i386\ndefault errno/EPERM\nread, 1: allow\n0x40000001 -: trap/5\n3 close errno/38 ENOSYS\n",
        &[
            (X86_64, 0, 0, 0, ALLOW),
            (X86_64, 1, 0, 0, ALLOW),
            (X86_64, 2, 0, 0, EPERM),
            (X86_64, 3, 0, 0, ENOSYS),
            (X86_64, 0x4000_0001, 0, 0, 0x0003_0005),
            (X86_64, 0x4000_0002, 0, 0, LOG),
            (I386, 0, 0, 0, LOG),
        ],
    ),
    (
        "0-0x3fffffff kill_thread\n4294967295 log/7",
        &[
            (X86_64, 0x3fff_ffff, 0, 0, THREAD),
            (X86_64, 0x4000_0000, 0, 0, KILL),
            (X86_64, u32::MAX, 0, 0, 0x7ffc_0007),
        ],
    ),
    (
        "arch i386\ndefault: kill_process\nread, write,\n  getpid: allow",
        &[
            (I386, 3, 0, 0, ALLOW),
            (I386, 20, 0, 0, ALLOW),
            (I386, 39, 0, 0, KILL),
            (I386, 0x4000_0003, 0, 0, KILL),
            (X86_64, 39, 0, 0, KILL),
        ],
    ),
    (
        "default errno/EPERM\nclone\n  allow where (args[0] & (CLONE_NEWUSER|CLONE_NEWNET)) == 0\n    && args[1] != 0x100000000\n\tlog else",
        &[
            (X86_64, 56, 0x11, 0, ALLOW),
            (X86_64, 56, 0x1000_0011, 0, LOG),
            (X86_64, 56, 0x1_0000_0011, 0, ALLOW),
            (X86_64, 56, 0x11, 0x1_0000_0000, LOG),
            (X86_64, 57, 0x11, 0, EPERM),
        ],
    ),
    // The first case that is met counts.
    (
        "default allow\nread\n  trap where args[0] < 3\n  errno/ENOSYS where 2 <= args[0] && 5 > args[0]\n  allow else",
        &[
            (X86_64, 0, 2, 0, 0x0003_0000),
            (X86_64, 0, 3, 0, ENOSYS),
            (X86_64, 0, 4, 0, ENOSYS),
            (X86_64, 0, 5, 0, ALLOW),
            (X86_64, 0, u64::MAX, 0, ALLOW),
        ],
    ),
    (
        "default allow\nsocket\n  errno/1 where (AF_INET <= args[0] && args[0] <= 4) || args[0] == AF_NETLINK || ((args[1] & ~7) != 0)\n  allow else",
        &[
            (X86_64, 41, 1, 1, ALLOW),
            (X86_64, 41, 2, 1, EPERM),
            (X86_64, 41, 4, 1, EPERM),
            (X86_64, 41, 5, 1, ALLOW),
            (X86_64, 41, 16, 1, EPERM),
            (X86_64, 41, 1, 8, EPERM),
            (X86_64, 41, 1, 0x8000_0000_0000_0000, EPERM),
        ],
    ),
    (
        "default allow\nread\n  log where (args[0] & 0xffffffff & ~3) == (4|0x8)\n  kill_thread where 1\n  allow else\nwrite\n  log where 0\n  kill_process else",
        &[
            (X86_64, 0, 0xf_0000_000d, 0, LOG),
            (X86_64, 0, 0x1d, 0, THREAD),
            (X86_64, 1, 0, 0, KILL),
        ],
    ),
    (
        "arch aarch64\ndefault errno/EOPNOTSUPP\n63 read\n  allow where ip == 0 && nr == 63 && args[5] > 8\n  user_notif else",
        &[
            (AARCH64, 63, 0, 0, ALLOW),
            (AARCH64, 64, 0, 0, 0x0005_005f),
            (X86_64, 63, 0, 0, KILL),
        ],
    ),
];

fn filter_of(alloc: Global, text: &str) -> Result<Checked, Fail> {
    let Ok(image) = made(alloc, text.as_bytes()) else {
        return Err(Fail::from("no filter"));
    };
    match check(read_insns(alloc, &image)?) {
        Ok(filter) => Ok(filter),
        Err((_, fault)) => Err(Fail::from(fault)),
    }
}

#[test]
fn policies(rt: HostRuntime) -> Result<(), Fail> {
    for (text, calls) in POLICIES {
        let filter = filter_of(rt.alloc(), text)?;
        for (arch, nr, first, second, value) in *calls {
            let call = Record {
                nr: *nr,
                arch: *arch,
                ip: 0,
                args: [*first, *second, 0, 0, 0, 9],
            };
            assert_eq!(rt; run(&filter, &call).value, *value, "{text} {nr}");
        }
    }
    Ok(())
}

/// A text that is no policy, and what is said of it.
const WRONG: &[(&str, &str)] = &[
    (
        "raed: allow",
        "line 1: raed: expected the name of a call on x86-64, or its number",
    ),
    (
        "default allow\n\nread, wirte: allow",
        "line 3: wirte: expected the name of a call on x86-64, or its number",
    ),
    (
        "arch i386\nlseek: allow\nmmap3: allow",
        "line 3: mmap3: expected the name of a call on i386, or its number",
    ),
    (
        "4294967296 allow",
        "line 1: 4294967296: expected the name of a call on x86-64, or its number",
    ),
    (
        "010 allow",
        "line 1: 010: expected the name of a call on x86-64, or its number",
    ),
    (
        "5-3 allow",
        "line 1: 5-3: expected the name of a call on x86-64, or its number",
    ),
    (
        "1- allow",
        "line 1: 1-: expected the name of a call on x86-64, or its number",
    ),
    (
        ", read allow",
        "line 1: ,: expected the name of a call on x86-64, or its number",
    ),
    (
        "read,",
        "line 1: expected the name of a call on x86-64, or its number behind ,",
    ),
    (
        "read,, write allow",
        "line 1: ,: expected the name of a call on x86-64, or its number",
    ),
    (
        ": allow",
        "line 1: :: expected the name of a call on x86-64, or its number",
    ),
    (
        "allow",
        "line 1: allow: expected the name of a call on x86-64, or its number",
    ),
    (
        "1 read allow",
        "line 1: read: expected the name of the call with the number before it",
    ),
    (
        "451 wread allow",
        "line 1: wread: expected the name of the call with the number before it",
    ),
    (
        "read write allow",
        "line 1: write: expected a comma, a verdict or the end of the line",
    ),
    (
        "read alow",
        "line 1: alow: expected a comma, a verdict or the end of the line",
    ),
    (
        "0-5 read allow",
        "line 1: read: expected a comma, a verdict or the end of the line",
    ),
    (
        "read;",
        "line 1: ;: expected a comma, a verdict or the end of the line",
    ),
    (
        "read: alow",
        "line 1: alow: expected a verdict, as allow or errno/EPERM",
    ),
    (
        "read: : allow",
        "line 1: :: expected a verdict, as allow or errno/EPERM",
    ),
    (
        "default",
        "line 1: expected a verdict, as allow or errno/EPERM behind default",
    ),
    (
        "default:",
        "line 1: expected a verdict, as allow or errno/EPERM behind :",
    ),
    (
        "others refuse",
        "line 1: refuse: expected a verdict, as allow or errno/EPERM",
    ),
    (
        "default errno",
        "line 1: errno: expected a verdict, as allow or errno/EPERM",
    ),
    (
        "default errno/",
        "line 1: errno/: expected a verdict, as allow or errno/EPERM",
    ),
    (
        "default errno/EPREM",
        "line 1: errno/EPREM: expected a verdict, as allow or errno/EPERM",
    ),
    (
        "default errno/4096",
        "line 1: errno/4096: expected a verdict, as allow or errno/EPERM",
    ),
    (
        "default errno/01",
        "line 1: errno/01: expected a verdict, as allow or errno/EPERM",
    ),
    (
        "default trap/65536",
        "line 1: trap/65536: expected a verdict, as allow or errno/EPERM",
    ),
    (
        "default trap/EPERM",
        "line 1: trap/EPERM: expected a verdict, as allow or errno/EPERM",
    ),
    (
        "default unknown/5",
        "line 1: unknown/5: expected a verdict, as allow or errno/EPERM",
    ),
    (
        "default errno/1 EACCES",
        "line 1: EACCES: expected the name of the error with the number before it",
    ),
    (
        "default errno/EPERM EPERM",
        "line 1: EPERM: expected the end of the line",
    ),
    (
        "default allow allow",
        "line 1: allow: expected the end of the line",
    ),
    (
        "read allow where 1",
        "line 1: where: expected the end of the line",
    ),
    (
        "0 read allow | errno/1 EPERM",
        "line 1: several verdicts: expected one",
    ),
    ("default any", "line 1: several verdicts: expected one"),
    (
        "arch vax",
        "line 1: vax: expected the name of an architecture",
    ),
    (
        "arch x32",
        "line 1: x32: expected the name of an architecture",
    ),
    (
        "arch",
        "line 1: expected the name of an architecture behind arch",
    ),
    ("arch i386 x", "line 1: x: expected the end of the line"),
    (
        "default allow\narch i386",
        "line 2: arch: expected before all other lines",
    ),
    (
        "default allow\ndefault allow",
        "line 2: default: stands twice",
    ),
    (
        "others allow\nread allow\nothers allow",
        "line 3: others: stands twice",
    ),
    (
        "  allow else",
        "line 1: a case: expected a row without a verdict above it",
    ),
    (
        "default allow\nread allow\n  log else",
        "line 3: a case: expected a row without a verdict above it",
    ),
    (
        "read\n  allow else\n  log else",
        "line 3: a case: expected none behind else",
    ),
    (
        "read\n  allow else\n  log where 1",
        "line 3: a case: expected none behind else",
    ),
    (
        "default allow\nread\nwrite allow",
        "line 2: expected a line VERDICT else below the row",
    ),
    (
        "read\n  allow where 1",
        "line 1: expected a line VERDICT else below the row",
    ),
    (
        "read\n  allow",
        "line 2: expected where CONDITION or else behind allow",
    ),
    (
        "read\n  allow when 1",
        "line 2: when: expected where CONDITION or else",
    ),
    (
        "read\n  allow where",
        "line 2: expected a condition behind where",
    ),
    (
        "read\n  allow where args[6] == 1\n  log else",
        "line 2: args[6]: expected a condition",
    ),
    (
        "read\n  allow where args[0]\n  log else",
        "line 2: expected a condition behind args[0]",
    ),
    (
        "read\n  allow where args[0] = 1\n  log else",
        "line 2: =: expected a condition",
    ),
    (
        "read\n  allow where args[0] == NO_SUCH\n  log else",
        "line 2: NO_SUCH: expected a condition",
    ),
    (
        "read\n  allow where args[0] == -1\n  log else",
        "line 2: -1: expected a condition",
    ),
    (
        "read\n  allow where args[0] == 1|2\n  log else",
        "line 2: |: expected a condition",
    ),
    (
        "read\n  allow where (args[0] & ~0x80000000) == 0\n  log else",
        "line 2: 0x80000000: expected a condition",
    ),
    (
        "read\n  allow where args[0] == 1 &&\n  log else",
        "line 2: expected a condition behind &&",
    ),
    (
        "read\n  allow where args[0] == 1 || args[1] == 2 && args[2] == 3\n  log else",
        "line 2: &&: expected a condition",
    ),
    (
        "read\n  allow where (args[0] == 1\n  log else",
        "line 2: expected a condition behind 1",
    ),
    (
        "read\n  allow where args[0] == 1)\n  log else",
        "line 2: ): expected a condition",
    ),
    (
        "default allow\nread log\n0 log",
        "line 3: 0 stands in line 2 already",
    ),
    (
        "default allow\n0-5 log\n3, 9 allow",
        "line 3: 3 stands in line 2 already",
    ),
    (
        "default allow\nread, 0 log",
        "line 2: 0 stands in line 2 already",
    ),
    (
        "read allow",
        "1: no row has this number: expected one, or a line default VERDICT",
    ),
    (
        "others allow",
        "0: no row has this number: expected one, or a line default VERDICT",
    ),
    (
        "\u{e9}t\u{e9}: allow",
        "line 1: ?: expected the name of a call on x86-64, or its number",
    ),
];

#[test]
fn wrong_texts(rt: HostRuntime) -> Result<(), Fail> {
    for (text, wanted) in WRONG {
        let Err(refusal) = made(rt.alloc(), text.as_bytes()) else {
            return Err(Fail::from("a filter"));
        };
        let said = refusal_text(rt.alloc(), text.as_bytes(), refusal)?;
        assert_eq!(rt; said.as_str(), *wanted, "{text}");
    }
    Ok(())
}

/// A condition of many terms, which no filter has room for: the stack has room for the reader of it, and for what writes the filter.
#[test]
fn long_conditions(rt: HostRuntime) -> Result<(), Fail> {
    for between in [" || ", " && "] {
        let mut text = String::new(rt.alloc());
        text.push_str("default allow\nread\n  log where args[0] == 1")?;
        for _term in 0..20_000usize {
            text.push_str(between)?;
            text.push_str("args[1] == 2")?;
        }
        text.push_str("\n  allow else")?;
        let Err(refusal) = made(rt.alloc(), text.as_bytes()) else {
            return Err(Fail::from("a filter"));
        };
        let said = refusal_text(rt.alloc(), text.as_bytes(), refusal)?;
        assert_eq!(rt;
            said.as_str(),
            "its filter would have more than 4096 instructions"
        );
    }
    Ok(())
}
