//! Logs of strace(1) and of the kernel, each with the text and the sums of its replay through one filter.
use crate::ends::run_words;
use crate::whens::chain_of;
use sk_names::Architecture;
use sk_replay::{replay, replay_text};
use std::test::Fail;

/// A filter that answers EPERM to read, whose number is 0, and allows every other call.
const NO_READ: &[u8] = b"ldabs 0\njeq 0 +0 +1\nret errno/1\nret allow";

/// The architecture of a process, its log, what the filter answers, whether that is a no, and how many
/// calls there are.
const LOGS: &[(Architecture, &[u8], &str, bool, usize)] = &[
    (Architecture::X86_64, b"", "", false, 0),
    (
        Architecture::X86_64,
        b"14587 brk(0)                            = 0x55cdc3d9c000\n14587 +++ exited with 0 +++\n",
        "1 brk(0) allow\n1 line is no call\n",
        false,
        1,
    ),
    (
        Architecture::X86_64,
        b"7 getpid() = 0x7\n7 read(0x3, 0x7ffd, 0x40 <unfinished ...>\n7 <... read resumed>) = 0\n7 getpid() = 0x7\n",
        "1 read(0x3, 0x7ffd, 0x40, ?, ?, ?) errno/1 EPERM\n2 getpid() allow\n1 line is no call\n",
        true,
        2,
    ),
    (
        Architecture::X86_64,
        b"[pid  3486] 03:48:45.714604 exit_group(0)     = ?\n",
        "1 exit_group(0) allow\n",
        false,
        1,
    ),
    (
        Architecture::X86_64,
        b"9 syscall_0x7fff(0x1, 0x2) = -1 ENOSYS (Function not implemented)\n",
        "1 syscall_0x7fff(0x1, 0x2) allow\n",
        false,
        1,
    ),
    (
        Architecture::X86_64,
        b"9 no_such_call(0x1) = 0\n9 close(3) = 0\n9 close(0x3\n",
        "1 close(0x3) allow\n2 lines are not understood\n",
        true,
        1,
    ),
    (
        Architecture::X86_64,
        b"[ Process PID=9 runs in 32 bit mode. ]\n",
        "1 line is not understood\n",
        true,
        0,
    ),
    (
        Architecture::I386,
        b"[ Process PID=9 runs in 32 bit mode. ]\n",
        "1 line is no call\n",
        false,
        0,
    ),
    (
        Architecture::X86_64,
        b"[ 8.5] audit: type=1326 audit(1796.2:3): pid=9 comm=\"x\" sig=31 arch=c000003e syscall=0 compat=0 ip=0x7f code=0x50000\n",
        "1 read(?, ?, ?, ?, ?, ?) errno/1 EPERM (logged: errno)\n",
        true,
        1,
    ),
    (
        Architecture::X86_64,
        b"Dec 01 11:00:00 host audit[9]: SECCOMP pid=9 comm=\"a(b\" sig=31 arch=c000003e syscall=39 compat=0 ip=0x7f code=0x80000000\n",
        "1 getpid(?, ?, ?, ?, ?, ?) allow (logged: kill_process)\n",
        false,
        1,
    ),
    (
        Architecture::X86_64,
        b"type=SECCOMP msg=audit(1796.2:3): pid=9 arch=40000003 syscall=3 compat=1 ip=0x7f code=0x0\n",
        "1 line is not understood\n",
        true,
        0,
    ),
    (
        Architecture::X86_64,
        b"9 capset({pid=0}, {effective=1<<CAP_KILL, inheritable=0}) = 0\n",
        "1 capset(?, ?) allow\n",
        false,
        1,
    ),
    (
        Architecture::X86_64,
        b"9 write(1</dev/pts/0<char 136:0>>, \"a, b) = \\\"\"..., 7)         = 7\n9 exit_group(0) = ?\n",
        "1 write(0x1, ?, 0x7) allow\n1 exit_group(0) allow\n",
        false,
        2,
    ),
    (
        Architecture::I386,
        b"9 restart_syscall() = 0\n9 waitpid(0x1) = 0x1\n9 read(0x3) = 0\n",
        "1 restart_syscall() errno/1 EPERM\n1 waitpid(0x1) allow\n1 read(0x3) allow\n",
        true,
        3,
    ),
    (
        Architecture::X32,
        b"9 read(0x3) = 0\n9 syscall_0x40000000(0x3) = 0\n9 syscall_0x0() = 0\n",
        "1 syscall_0x0() errno/1 EPERM\n2 read(0x3) allow\n",
        true,
        2,
    ),
    (
        Architecture::Aarch64,
        b"9 open(0x3) = 0\n9 openat(0x3) = 0\n",
        "1 openat(0x3) allow\n1 line is not understood\n",
        true,
        1,
    ),
];

#[test]
fn logs(rt: HostRuntime) -> Result<(), Fail> {
    let chain = chain_of(rt.alloc(), NO_READ)?;
    for &(architecture, log, text, denies, calls) in LOGS {
        let answer = replay(rt.alloc(), architecture, log, &chain)?;
        let written = replay_text(rt.alloc(), architecture, &answer)?;
        assert_eq!(rt;
            (written.as_str(), answer.denies(), answer.rows.len()),
            (text, denies, calls)
        );
    }
    Ok(())
}

#[test]
fn a_record_stands_for_its_call(rt: HostRuntime) -> Result<(), Fail> {
    let mut words = Vec::new(rt.alloc());
    for word in [
        "why",
        "[ 8.5] audit: type=1326 audit(1796.2:3): arch=c000003e syscall=39 compat=0 ip=0x7f code=0x80000000",
        "getpid",
    ] {
        words.push(String::from_str(rt.alloc(), word)?)?;
    }
    let ran = run_words(rt.alloc(), &words, 0)?;
    let path: &[u8] =
        b"filter 0\n   0 ldabs 0                  A=39 X=0\n   1 jeq 39 +0 +1             A=39 X=0  39 == 39 getpid: to 2\n   2 ret 0x00050001           A=39 X=0\n  errno/1 EPERM\nerrno/1 EPERM by filter 0 at 2\nlogged: kill_process\n";
    assert_eq!(rt; (ran.status, ran.out.as_slice()), (0, path));
    Ok(())
}
