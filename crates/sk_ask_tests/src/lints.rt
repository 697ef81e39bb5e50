//! Small filters that Linux's reading of a call gets round, and others, as `ask lint` tells of them.
use crate::ends::run;
use std::test::Fail;

/// What is said of a chain by which calls that are the same one to Linux get the same verdict.
const CLEAN: &str = "no call gets another verdict by bits that Linux does not read\n";

/// Words, the status, how the answer begins, and what stands in it.
const LINTS: &[(&str, u8, &str, &str)] = &[
    (
        "lint wide",
        1,
        "41 socket: errno/22 EINVAL -> allow where ",
        "\n  which Linux takes for syscall(SYS_socket, AF_NETLINK, ",
    ),
    (
        "lint --numbers wide",
        1,
        "41 socket: errno/22 EINVAL -> allow where ",
        "\n  which Linux takes for syscall(SYS_socket, 0x10, ",
    ),
    (
        "lint rule",
        1,
        "41 socket: errno/22 EINVAL -> allow where ",
        "\n  rule: entry 2 of syscalls: SCMP_CMP_EQ compares more of args[",
    ),
    // What is stricter by such bits is counted, or told.
    (
        "lint allowed",
        0,
        "no call gets a less strict verdict by bits that Linux does not read\nas strict or stricter by such bits: ",
        " (--all shows ",
    ),
    (
        "lint --all allowed",
        0,
        "no call gets a less strict verdict by bits that Linux does not read\n41 socket: allow -> errno/1 EPERM where ",
        "\n  which Linux takes for syscall(SYS_socket, AF_INET, ",
    ),
    ("lint narrow", 0, CLEAN, ""),
    ("lint --all narrow", 0, CLEAN, ""),
    // The narrow rule stands behind the wide one, and refuses what that lets through.
    ("lint wide narrow", 0, CLEAN, ""),
    ("lint getpid", 0, CLEAN, ""),
];

#[test]
fn lints(rt: HostRuntime) -> Result<(), Fail> {
    for &(words, status, first, part) in LINTS {
        let ran = run(rt.alloc(), words, 0)?;
        let text = match str::from_utf8(&ran.out) {
            Ok(text) => text,
            Err(_) => "",
        };
        assert_eq!(rt;
            (ran.status, text.starts_with(first), text.contains(part)),
            (status, true, true),
            "at {words}"
        );
        assert!(rt; !part.is_empty() || text == first, "at {words}");
    }
    Ok(())
}

// A verdict that is an argument is not followed, and that is no answer.
#[test]
fn undecided_is_trouble(rt: HostRuntime) -> Result<(), Fail> {
    let ran = run(rt.alloc(), "lint argument", 0)?;
    assert_eq!(rt;
        (
            ran.status,
            ran.out.len(),
            ran.complaints.starts_with(
                b"ask: lint: the filters could not be followed on all calls:\n"
            )
        ),
        (2, 0, true)
    );
    Ok(())
}

// A filter that looks at the first argument of every call looks at addresses, and at what is no argument.
#[test]
fn notes_stand_beside_an_answer(rt: HostRuntime) -> Result<(), Fail> {
    let ran = run(rt.alloc(), "lint flag", 0)?;
    assert_eq!(rt;
        (
            ran.status,
            ran.complaints.starts_with(
                b"ask: lint: 2 open: args[0] is a pointer: what it points to is not looked at\n"
            )
        ),
        (0, true)
    );
    Ok(())
}

// Constants stand for the numbers that they are.
#[test]
fn constants_are_numbers(rt: HostRuntime) -> Result<(), Fail> {
    let named = run(
        rt.alloc(),
        "why socket(AF_NETLINK,SOCK_RAW|SOCK_CLOEXEC,NETLINK_AUDIT) wide",
        0,
    )?;
    let plain = run(rt.alloc(), "why socket(16,0x80003,9) wide", 0)?;
    assert_eq!(rt;
        (
            named.status,
            named.out.as_slice(),
            named
                .out
                .ends_with(b"\nerrno/22 EINVAL by filter 0 at 10\n")
        ),
        (0, plain.out.as_slice(), true)
    );
    Ok(())
}
