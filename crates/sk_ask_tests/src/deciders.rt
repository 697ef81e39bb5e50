//! The end of what `ask why` tells of profiles and policies: what of each decides on the call.
use crate::ends::run;
use std::test::Fail;

/// The words, and the last lines.
const ENDS: &[(&str, &[u8])] = &[
    (
        "why getpid profile",
        b"\nprofile: entry 1 of syscalls in line 2 decides\n",
    ),
    (
        "why mseal profile",
        b"\nprofile: entry 4 of syscalls in line 5 decides\n",
    ),
    (
        "why read profile",
        b"\nprofile: no entry of syscalls says otherwise than the default\n",
    ),
    (
        "why --arch i386 read profile",
        b"\nprofile: the profile is not for this architecture\n",
    ),
    (
        "why --runc 1000 listed",
        b"\nlisted: runc's own instructions decide, which know no such call\n",
    ),
    (
        "why getpid configuration all",
        b"\nconfiguration: entry 1 of syscalls in line 1 decides\n",
    ),
    ("why read(3) rows", b"\nrows: line 5 decides\n"),
    ("why read(2) rows", b"\nrows: line 6 decides\n"),
    ("why getppid rows", b"\nrows: line 7 decides\n"),
    ("why write rows", b"\nrows: default in line 1 decides\n"),
    (
        "why --arch i386 write rows",
        b"\nrows: others in line 2 decides\n",
    ),
    (
        "why getpid rows all listed",
        b"\nrows: line 7 decides\nlisted: entry 1 of syscalls in line 1 decides\n",
    ),
    ("why getpid getpid", b"\nerrno/1 EPERM by filter 0 at 2\n"),
];

#[test]
fn deciders_are_told(rt: HostRuntime) -> Result<(), Fail> {
    for (words, end) in ENDS {
        let ran = run(rt.alloc(), words, 0)?;
        assert_eq!(rt;
            (*words, ran.status, ran.out.ends_with(end)),
            (*words, 0, true)
        );
    }
    Ok(())
}
