//! Words of `ask` with their whole answers, the stream that each goes to, and what is told beside it.
use crate::ends::{ALL, run};
use std::test::Fail;

/// The words, and the whole answer.
const ANSWERS: &[(&str, &str)] = &[
    ("diff argument argument", "the same on every call\n"),
    ("diff array getpid", "the same on every call\n"),
    ("diff decimals getpid", "the same on every call\n"),
    ("diff configuration listed", "the same on every call\n"),
    ("diff marked allowing", "the same on every call\n"),
    (
        "calls --call SYS_getpid getpid",
        "39 getpid errno/1 EPERM\n",
    ),
    (
        "--version",
        "ask (skern)\nNames of calls: Linux 6.12\nToolchain: rattle-kit-13f\n",
    ),
    ("calls --call getpid getpid", "39 getpid errno/1 EPERM\n"),
    ("calls --call 0x27 all getpid", "39 getpid errno/1 EPERM\n"),
    ("calls all --call 4294967295", "4294967295 - allow\n"),
    (
        "calls --examples --call read all",
        "0 read allow\n  allow filter 0 at 0 record 000000003e0000c00000000000000000000000000000000000000000000000000000000000000000000000000000000000000000000000000000000000000000\n",
    ),
    (
        "filter all getpid",
        "filter 060000000000ff7f\nfilter 200000000000000015000001270000000600000001000500060000000000ff7f\n",
    ),
    ("when --call getpid getpid", "39 getpid errno/1 EPERM\n"),
    (
        "when flag --call 0",
        "0 read\n  allow where (args[0] & 0x1) == 0\n  errno/38 ENOSYS else\n",
    ),
    (
        "when flag --dot --call 0",
        "digraph {\n  n0 [label=\"(args[0] & 0x1) != 0\"];\n  n0 -> n1 [label=yes];\n  n1 [label=\"errno/38 ENOSYS\", style=filled, fillcolor=khaki];\n  n0 -> n2 [label=no];\n  n2 [label=\"allow\", style=filled, fillcolor=palegreen];\n}\n",
    ),
    (
        "when --call socket wide",
        "41 socket\n  errno/22 EINVAL where args[0] == AF_NETLINK && args[2] == NETLINK_AUDIT\n  allow else\n",
    ),
    (
        "when --numbers --call socket wide",
        "41 socket\n  errno/22 EINVAL where args[0] == 0x10 && args[2] == 0x9\n  allow else\n",
    ),
    (
        "calls --call getpid --only errno --call read getpid",
        "39 getpid errno/1 EPERM\n",
    ),
    (
        "calls --only=errno/EPERM --only trap/5 --call 39 getpid",
        "39 getpid errno/1 EPERM\n",
    ),
    ("calls --only errno/2 --call getpid getpid", ""),
    (
        "when flag --only errno/38 --call 0",
        "0 read\n  allow where (args[0] & 0x1) == 0\n  errno/38 ENOSYS else\n",
    ),
    ("when flag --call 0 --only trap", ""),
    ("diff getpid getpid", "the same on every call\n"),
    ("diff all --stricter getpid", "as strict on every call\n"),
    (
        "replay log all",
        "2 read(0x3, 0x7ffd, 0x40) allow\n1 getpid() allow\n1 line is no call\n",
    ),
    (
        "why getpid(1,-1) all getpid",
        "filter 1\n   0 ldabs 0                  A=39 X=0\n   1 jeq 39 +0 +1             A=39 X=0  39 == 39 getpid: to 2\n   2 ret 0x00050001           A=39 X=0\n  errno/1 EPERM\nfilter 0\n   0 ret 0x7fff0000           A=0 X=0\n  allow\nerrno/1 EPERM by filter 1 at 2\n",
    ),
    (
        "why read(-2) flag",
        "filter 0\n   0 ldabs 16                 A=4294967294 X=0\n   1 jset 1 +0 +1             A=4294967294 X=0  4294967294 & 1 == 0: to 3\n   3 ret 0x7fff0000           A=4294967294 X=0\n  allow\nallow by filter 0 at 3\n",
    ),
    // AT_FDCWD is 0xffffff9c.
    (
        "why openat(AT_FDCWD,\"/etc/passwd\",O_RDONLY|O_CLOEXEC) flag",
        "filter 0\n   0 ldabs 16                 A=4294967196 X=0\n   1 jset 1 +0 +1             A=4294967196 X=0  4294967196 & 1 == 0: to 3\n   3 ret 0x7fff0000           A=4294967196 X=0\n  allow\nallow by filter 0 at 3\n",
    ),
    (
        "show getpid",
        "; 0 nr\n    ldabs 0\n; 1 getpid\n    jeq 39 +0 at3\n; 2 errno/1 EPERM\n    ret 0x00050001\nat3:\n; 3 allow\n    ret 0x7fff0000\n",
    ),
    ("show all", "; 0 allow\n    ret 0x7fff0000\n"),
    (
        "arches all",
        "x86-64 allow\nx32 allow\ni386 allow\naarch64 allow\narm allow\nriscv64 allow\nppc64le allow\ns390x allow\nloongarch64 allow\nany other allow\n",
    ),
    (
        "calls --arch i386 --call getpid getpid",
        "20 getpid allow\n",
    ),
    (
        "calls --arch i386 --call 39 getpid",
        "39 mkdir errno/1 EPERM\n",
    ),
    ("calls --arch s390x --call read all", "3 read allow\n"),
    (
        "calls --examples --arch aarch64 --call read all",
        "63 read allow\n  allow filter 0 at 0 record 3f000000b70000c00000000000000000000000000000000000000000000000000000000000000000000000000000000000000000000000000000000000000000\n",
    ),
    (
        "when flag --arch i386 --call read",
        "3 read\n  allow where (args[0] & 0x1) == 0\n  errno/38 ENOSYS else\n",
    ),
    (
        "replay --arch i386 log getpid",
        "2 read(0x3, 0x7ffd, 0x40) allow\n1 getpid() allow\n1 line is no call\n",
    ),
    (
        "why --arch i386 mkdir getpid",
        "filter 0\n   0 ldabs 0                  A=39 X=0\n   1 jeq 39 +0 +1             A=39 X=0  39 == 39 mkdir: to 2\n   2 ret 0x00050001           A=39 X=0\n  errno/1 EPERM\nerrno/1 EPERM by filter 0 at 2\n",
    ),
    (
        "show getpid --arch i386",
        "; 0 nr\n    ldabs 0\n; 1 mkdir\n    jeq 39 +0 at3\n; 2 errno/1 EPERM\n    ret 0x00050001\nat3:\n; 3 allow\n    ret 0x7fff0000\n",
    ),
    (
        "show of_two",
        "; 0 arch\n    ldabs 4\n; 1 aarch64\n    jeq 3221225655 at4 +0\n; 2 x86-64\n    jeq 3221225534 at6 +0\n; 3 kill_process\n    ret 0x80000000\nat4:\n; 4 nr\n    ldabs 0\n; 5 execve\n    jeq 221 at8 at8\nat6:\n; 6 nr\n    ldabs 0\n; 7 execve\n    jeq 59 +0 +0\nat8:\n; 8\n    jeq 63 +0 +0\n; 9 allow\n    ret 0x7fff0000\n",
    ),
    ("show all --arch s390x", "; 0 allow\n    ret 0x7fff0000\n"),
    ("calls --call getpid sixteen sixteen", "39 getpid allow\n"),
    ("calls --call read kernels", "0 read errno/1 EPERM\n"),
    ("calls --call write kernels", "1 write allow\n"),
    (
        "arches guarded",
        "x86-64 judged call by call\nx32 allow\ni386 kill_process\naarch64 kill_process\narm kill_process\nriscv64 kill_process\nppc64le kill_process\ns390x kill_process\nloongarch64 kill_process\nany other kill_process\n",
    ),
    (
        "arches each",
        "x86-64 allow\nx32 allow\ni386 allow\naarch64 allow\narm allow\nriscv64 allow\nppc64le allow\ns390x allow\nloongarch64 allow\nany other not followed: each word of a call is loaded\n",
    ),
    ("calls --call getpid profile", "39 getpid allow\n"),
    ("calls --call read profile", "0 read errno/38 ENOSYS\n"),
    (
        "calls --call read --cap docker profile",
        "0 read errno/38 ENOSYS\n",
    ),
    ("calls --call read --cap all profile", "0 read allow\n"),
    (
        "calls profile --cap sys_admin --cap CAP_KILL --call 0",
        "0 read allow\n",
    ),
    (
        "calls --runc --call 4294967295 listed",
        "4294967295 - errno/1 EPERM\n",
    ),
    (
        "calls --call 40 --runc listed",
        "40 sendfile errno/38 ENOSYS\n",
    ),
    ("calls --call getpid several", "39 getpid allow\n"),
    (
        "calls --arch i386 --call getpid several",
        "20 getpid allow\n",
    ),
    (
        "calls --arch i386 --call mkdir several",
        "39 mkdir errno/1 EPERM\n",
    ),
    (
        "calls --arch x32 --call getpid several",
        "1073741863 getpid kill_thread\n",
    ),
    (
        "calls --arch aarch64 --call getpid several",
        "172 getpid allow\n",
    ),
    (
        "calls several --arch arm --call getpid",
        "20 getpid allow\n",
    ),
    (
        "calls --machine x86-64 --arch aarch64 --call getpid several",
        "172 getpid kill_thread\n",
    ),
    (
        "calls --call getpid several --machine aarch64",
        "39 getpid kill_thread\n",
    ),
    (
        "calls --machine aarch64 --arch arm --call getpid several",
        "20 getpid allow\n",
    ),
    (
        "calls --machine riscv64 --arch riscv64 --call getpid several",
        "172 getpid allow\n",
    ),
    ("calls --native --call getpid listed", "39 getpid allow\n"),
    (
        "calls --machine loongarch64 --native --call getpid getpid",
        "39 getpid errno/1 EPERM\n",
    ),
    ("when --call ptrace profile", "101 ptrace allow\n"),
    (
        "when --kernel 4.8.0-13-amd64 --call ptrace profile",
        "101 ptrace allow\n",
    ),
    (
        "when --kernel 4.7+ --call ptrace profile",
        "101 ptrace errno/38 ENOSYS\n",
    ),
    (
        "when --kernel 4.4 --call ptrace profile",
        "101 ptrace errno/38 ENOSYS\n",
    ),
    ("calls --call mseal profile", "462 mseal allow\n"),
    (
        "calls --call getpid profile getpid",
        "39 getpid errno/1 EPERM\n",
    ),
    ("diff profile profile", "the same on every call\n"),
    ("diff --stricter all allowing", "as strict on every call\n"),
    (
        "calls --cap all --kernel 6.1 --call 0 all",
        "0 read allow\n",
    ),
    (
        "replay --cap all log profile",
        "2 read(0x3, 0x7ffd, 0x40) allow\n1 getpid() allow\n1 line is no call\n",
    ),
];

/// Words whose answer says no, and the whole answer.
const DENIALS: &[(&str, &str)] = &[
    (
        "arches getpid",
        "x86-64 judged call by call\nx32 allow\ni386 judged call by call\naarch64 judged call by call\narm judged call by call\nriscv64 judged call by call\nppc64le judged call by call\ns390x judged call by call\nloongarch64 judged call by call\nany other judged call by call\nwarning: i386 calls are judged by x86-64's numbers: 26 is ptrace there\n",
    ),
    (
        "replay log all getpid",
        "1 getpid() errno/1 EPERM\n2 read(0x3, 0x7ffd, 0x40) allow\n1 line is no call\n",
    ),
    (
        "diff all getpid",
        "stricter:\n39 getpid: allow -> errno/1 EPERM\n  record 270000003e0000c00000000000000000000000000000000000000000000000000000000000000000000000000000000000000000000000000000000000000000\n  syscall(SYS_getpid, 0x0, 0x0, 0x0, 0x0, 0x0, 0x0)\n",
    ),
    (
        "diff --arch i386 all getpid",
        "stricter:\n39 mkdir: allow -> errno/1 EPERM\n  record 27000000030000400000000000000000000000000000000000000000000000000000000000000000000000000000000000000000000000000000000000000000\n  syscall(SYS_mkdir, 0x0, 0x0, 0x0, 0x0, 0x0, 0x0)\n",
    ),
    (
        "diff --stricter getpid two",
        "looser:\n39 getpid: errno/1 EPERM -> allow\n  record 270000003e0000c00000000000000000000000000000000000000000000000000000000000000000000000000000000000000000000000000000000000000000\n  syscall(SYS_getpid, 0x0, 0x0, 0x0, 0x0, 0x0, 0x0)\n",
    ),
];

#[test]
fn answers_go_to_standard_output(rt: HostRuntime) -> Result<(), Fail> {
    for &(words, answer) in ANSWERS {
        let answer = answer.as_bytes();
        let ran = run(rt.alloc(), words, 0)?;
        assert_eq!(rt;
            (
                ran.status,
                ran.out.as_slice(),
                ran.complaints.len(),
                ran.reads
            ),
            (0, answer, 0, 0),
            "at {words}"
        );
    }
    Ok(())
}

#[test]
fn a_no_is_an_answer(rt: HostRuntime) -> Result<(), Fail> {
    for &(words, answer) in DENIALS {
        let answer = answer.as_bytes();
        let ran = run(rt.alloc(), words, 0)?;
        assert_eq!(rt;
            (
                ran.status,
                ran.out.as_slice(),
                ran.complaints.len(),
                ran.reads
            ),
            (1, answer, 0, 0),
            "at {words}"
        );
    }
    Ok(())
}

#[test]
fn a_line_that_is_not_understood_is_a_note(rt: HostRuntime) -> Result<(), Fail> {
    let ran = run(rt.alloc(), "replay cut all", 0)?;
    let answer = "1 getpid() allow\n1 line is not understood\n".as_bytes();
    let note = "ask: cut: line 2 is not understood\n".as_bytes();
    assert_eq!(rt;
        (ran.status, ran.out.as_slice(), ran.complaints.as_slice()),
        (1, answer, note)
    );
    Ok(())
}

#[test]
fn one_filter_is_written_as_bytes(rt: HostRuntime) -> Result<(), Fail> {
    let ran = run(rt.alloc(), "filter --raw all", 0)?;
    assert_eq!(rt; (ran.status, ran.out.as_slice()), (0, ALL));
    Ok(())
}

// Questions, their answers, and what is told beside.
const NOTED: &[(&str, &[u8], &[u8])] = &[
    (
        "calls --arch s390x --call getpid turned",
        b"20 getpid errno/1 EPERM\n",
        b"ask: turned: read with its highest byte first\n",
    ),
    (
        "show turned --arch s390x",
        b"; 0 nr\n    ldabs 0\n; 1 getpid\n    jeq 20 +0 at3\n; 2 errno/1 EPERM\n    ret 0x00050001\nat3:\n; 3 allow\n    ret 0x7fff0000\n",
        b"ask: turned: read with its highest byte first\n",
    ),
    (
        "calls --call read noted",
        b"0 read allow\n",
        b"ask: noted: entry 1 of syscalls: no call is named opennat: passed over\n",
    ),
    (
        "calls --native --call getpid several",
        b"39 getpid allow\n",
        b"ask: several: x86-64's part alone: programs of its other architectures are killed\n",
    ),
    (
        "calls --native --arch i386 --call getpid several",
        b"20 getpid kill_thread\n",
        b"ask: several: x86-64's part alone: programs of its other architectures are killed\n",
    ),
    (
        "calls --arch aarch64 --call getpid several --native",
        b"172 getpid allow\n",
        b"ask: several: aarch64's part alone: programs of its other architectures are killed\n",
    ),
    (
        "diff noted noted",
        b"the same on every call\n",
        b"ask: noted: entry 1 of syscalls: no call is named opennat: passed over\nask: noted: entry 1 of syscalls: no call is named opennat: passed over\n",
    ),
];

// What is passed over in a profile, and in which order an image is read, is told beside the answer, and where it can't be written the answer is the same.
#[test]
fn notes_stand_beside_an_answer(rt: HostRuntime) -> Result<(), Fail> {
    for &(words, answer, notes) in NOTED {
        let ran = run(rt.alloc(), words, 0)?;
        assert_eq!(rt;
            (ran.status, ran.out.as_slice(), ran.complaints.as_slice()),
            (0, answer, notes),
            "at {words}"
        );
    }
    Ok(())
}

// Two filters that answer an argument can't be followed, and that is no answer.
#[test]
fn undecided_is_trouble(rt: HostRuntime) -> Result<(), Fail> {
    let ran = run(rt.alloc(), "diff argument copied", 0)?;
    assert_eq!(rt; (ran.status, ran.out.len()), (2, 0));
    assert!(rt;
        ran.complaints.starts_with(
            b"ask: diff: the filters could not be compared on all calls:\nundecided:\n0 read: undecided\n",
        )
    );
    Ok(())
}

// All lines of a filter that allows everything: one for each call with a name, one for the numbers between and behind them,
// and one that says that it does not look at the architecture.
#[test]
fn all_calls(rt: HostRuntime) -> Result<(), Fail> {
    let ran = run(rt.alloc(), "calls all", 0)?;
    let lines = ran.out.iter().filter(|byte| **byte == b'\n').count();
    assert_eq!(rt; (ran.status, lines), (0, 378));
    assert!(rt; ran.out.starts_with(b"0 read allow\n1 write allow\n"));
    assert!(rt;
        ran.out.ends_with(
            b"\n463-4294967295 - allow\nwarning: no filter looks at the architecture: calls of each are judged by their numbers alone\n",
        )
    );
    Ok(())
}

#[test]
fn help_is_an_answer(rt: HostRuntime) -> Result<(), Fail> {
    let rows: [(&str, &[u8]); 11] = [
        ("--help", b"usage: ask WORD ..\n"),
        ("calls --help", b"usage: ask calls "),
        ("filter all --help", b"usage: ask filter "),
        ("when --help", b"usage: ask when "),
        ("diff --help all", b"usage: ask diff "),
        ("lint --help", b"usage: ask lint "),
        ("replay --help", b"usage: ask replay "),
        ("allow --help", b"usage: ask allow "),
        ("why mseal2 --help", b"usage: ask why "),
        ("show --help two", b"usage: ask show "),
        ("arches --help", b"usage: ask arches "),
    ];
    for (words, first) in rows {
        let ran = run(rt.alloc(), words, 0)?;
        assert!(rt;
            ran.status == 0 && ran.complaints.is_empty() && ran.out.starts_with(first),
            "at {words}"
        );
    }
    Ok(())
}
