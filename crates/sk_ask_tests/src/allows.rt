//! The least policies of logs, and what is told beside them.
use crate::ends::run;
use std::test::Fail;

/// The words, the policy, the line beside it, and the status: 1 where a line is not understood.
const POLICIES: &[(&str, &[u8], &[u8], u8)] = &[
    (
        "allow log",
        b"default errno/1 EPERM\n0 read allow\n39 getpid allow\n",
        b"",
        0,
    ),
    (
        "allow cut",
        b"default errno/1 EPERM\n39 getpid allow\n",
        b"ask: cut: 1 line is not understood\n",
        1,
    ),
    (
        "allow cut log cut",
        b"default errno/1 EPERM\n0 read allow\n39 getpid allow\n",
        b"ask: cut: 1 line is not understood\nask: cut: 1 line is not understood\n",
        1,
    ),
    (
        "allow --arch i386 log",
        b"arch i386\ndefault errno/1 EPERM\n3 read allow\n20 getpid allow\n",
        b"",
        0,
    ),
    (
        "allow --arch s390x log",
        b"arch s390x\ndefault errno/1 EPERM\n3 read allow\n20 getpid allow\n",
        b"",
        0,
    ),
    (
        "allow log --arch x32",
        b"default errno/1 EPERM\n1073741824 - allow\n1073741863 - allow\n",
        b"",
        0,
    ),
    (
        "allow --since-seccomp attached",
        b"default errno/1 EPERM\n3 close allow\n39 getpid allow\n",
        b"",
        0,
    ),
    (
        "allow --since-seccomp log",
        b"",
        b"ask: log: holds no call that attaches a filter: expected seccomp or prctl in lines as strace -f writes them\n",
        2,
    ),
    // The mode is left out in one line, and the name is an address.
    (
        "allow --args openat,socket opened",
        b"default errno/1 EPERM\n39 getpid allow\n41 socket\n  allow where (args[0] & 0xffffffff) == AF_UNIX && (args[1] & 0xffffffff) == SOCK_STREAM\n      && (args[2] & 0xffffffff) == 0\n  errno/1 EPERM else\n257 openat\n  allow where (args[0] & 0xffffffff) == 0xffffff9c\n      && ((args[2] & 0xffffffff) == (O_WRONLY|O_CREAT) || (args[2] & 0xffffffff) == O_CLOEXEC)\n  errno/1 EPERM else\n",
        b"ask: allow: not each line shows this argument, so it may be any: args[3] of openat\n",
        0,
    ),
    // The address may be any.
    (
        "allow --args munmap unmapped",
        b"default errno/1 EPERM\n11 munmap\n  allow where args[1] == 0x1000\n  errno/1 EPERM else\n",
        b"",
        0,
    ),
    (
        "allow --args openat logged",
        b"",
        b"ask: allow: no argument of this call is shown by each of its lines: --args openat\n",
        2,
    ),
    (
        "allow --for systemd unmapped",
        b"default errno/1 EPERM\n1 write allow\n11 munmap allow\n59 execve allow\n317 seccomp allow\n",
        b"",
        0,
    ),
    (
        "allow --args openat --to profile opened",
        b"",
        b"ask: allow: a profile is written without conditions: --args\n",
        2,
    ),
    (
        "allow --for crun --args socket,openat opened",
        b"",
        b"ask: allow: the runtime makes this call itself, with arguments that no log shows: --args openat\n",
        2,
    ),
    (
        "allow --to profile log",
        b"{\n  \"defaultAction\": \"SCMP_ACT_ERRNO\",\n  \"defaultErrnoRet\": 1,\n  \"architectures\": [\n    \"SCMP_ARCH_X86_64\"\n  ],\n  \"syscalls\": [\n    {\n      \"names\": [\n        \"read\",\n        \"getpid\"\n      ],\n      \"action\": \"SCMP_ACT_ALLOW\"\n    }\n  ]\n}\n",
        b"",
        0,
    ),
    (
        "allow --to profile --arch i386 log",
        b"",
        b"ask: allow: a profile is written of calls of x86-64 alone: --to profile\n",
        2,
    ),
];

#[test]
fn policies_are_told(rt: HostRuntime) -> Result<(), Fail> {
    for &(words, policy, line, status) in POLICIES {
        let ran = run(rt.alloc(), words, 0)?;
        assert_eq!(rt;
            (
                words,
                ran.status,
                ran.out.as_slice(),
                ran.complaints.as_slice()
            ),
            (words, status, policy, line)
        );
    }
    Ok(())
}
