//! Worked texts of verdicts, and the names of errors by their numbers.
use sk_filter::{error_name, push_verdict};
use std::test::Fail;

/// Values of filters, and their verdicts: the actions of seccomp(2), the errors of errno(3).
const VERDICTS: &[(u32, &str)] = &[
    (0x7fff_0000, "allow"),
    (0x7fff_0001, "allow/1"),
    (0x8000_0000, "kill_process"),
    (0x0000_0000, "kill_thread"),
    (0x0003_0005, "trap/5"),
    (0x0005_0000, "errno/0"),
    (0x0005_0001, "errno/1 EPERM"),
    (0x0005_0026, "errno/38 ENOSYS"),
    (0x0005_ffff, "errno/65535"),
    (0x7fc0_0000, "user_notif"),
    (0x7ff0_0002, "trace/2"),
    (0x7ffc_0000, "log"),
    (0x1234_0000, "unknown"),
];

#[test]
fn verdicts(rt: HostRuntime) -> Result<(), Fail> {
    for &(value, verdict) in VERDICTS {
        let mut text = String::new(rt.alloc());
        push_verdict(&mut text, value)?;
        assert_eq!(rt; text.as_str(), verdict);
    }
    Ok(())
}

// The errors at the ends of the table and around its gaps, by asm-generic/errno-base.h and errno.h.
#[test]
fn errors(rt: HostRuntime) {
    let rows: [(u32, Option<&str>); 12] = [
        (0, None),
        (1, Some("EPERM")),
        (11, Some("EAGAIN")),
        (34, Some("ERANGE")),
        (35, Some("EDEADLK")),
        (40, Some("ELOOP")),
        (41, None),
        (42, Some("ENOMSG")),
        (58, None),
        (95, Some("EOPNOTSUPP")),
        (133, Some("EHWPOISON")),
        (134, None),
    ];
    for (number, name) in rows {
        assert_eq!(rt; error_name(number), name);
    }
}
