//! Words of `ask` that get no answer, each with the line that says what is wrong, and ends that fail.
use crate::ends::{Output, run};
use sk_ask::misused;
use sk_text::Counted;
use std::process::Abort;
use std::test::Fail;

/// The words, and behind the arrow the line that says what is wrong.
const TROUBLES: &[&str] = &[
    " => no word is given; see ask --help",
    "foo => no word is named foo; see ask --help",
    "calls => calls: no FILE is given",
    "calls all --exmples => calls: no option is named --exmples: did you mean --examples?",
    "filter --call read all => filter: no option is named --call; see ask filter --help",
    "calls all --call => calls: expected a name or a number behind --call",
    "calls --call read --call mseal2 all => no call is named mseal2: did you mean mseal?",
    "calls --call mseal2 all => no call is named mseal2: did you mean mseal?",
    "calls --call 010 all => no call is named 010",
    "calls all --only => calls: expected a verdict as allow or errno/1 behind --only",
    "when --only refused all => when: expected a verdict as allow or errno/1 behind --only",
    "calls --only errno/ all => calls: expected a verdict as allow or errno/1 behind --only",
    "when --only allow --dot --call read all => when: expected --dot or --only, not both",
    "filter --only allow all => filter: no option is named --only; see ask filter --help",
    "calls a\nb => a?b: no such file",
    "when => when: no FILE is given",
    "when all --call => when: expected a name or a number behind --call",
    "when --call mseal2 all => no call is named mseal2: did you mean mseal?",
    "when --dot all => when: expected --call CALL beside --dot",
    "when --json --dot --call read all => when: expected --dot or --json, not both",
    "filter --json all => filter: no option is named --json; see ask filter --help",
    "calls --jsn all => calls: no option is named --jsn: did you mean --json?",
    "diff all => diff: expected two FILEs, OLD and NEW",
    "diff all all all => diff: expected two FILEs, OLD and NEW",
    "diff --call=read all => diff: no option is named --call=read; see ask diff --help",
    "diff all nofile => nofile: no such file",
    "calls --numbers all => calls: no option is named --numbers; see ask calls --help",
    "lint => lint: no FILE is given",
    "lint --arch i386 nofile => lint: no option is named --arch; see ask lint --help",
    "lint --call socket nofile => lint: no option is named --call; see ask lint --help",
    "lint --stricter nofile => lint: no option is named --stricter; see ask lint --help",
    "lint --stricte nofile => lint: no option is named --stricte: did you mean --strict?",
    "diff --all all all => diff: no option is named --all; see ask diff --help",
    "lint all nofile => nofile: no such file",
    "replay => replay: no LOG is given",
    "replay log => replay: no FILE is given",
    "replay --call read log all => replay: no option is named --call; see ask replay --help",
    "replay nofile empty => nofile: no such file",
    "replay log nofile => nofile: no such file",
    "replay empty all => empty: holds no call: expected lines as strace -f writes them, or the kernel's with type=1326",
    "replay all log => log: line 1: read: expected the name of the call with the number before it",
    "allow => allow: no LOG is given",
    "allow --call read log => allow: no option is named --call; see ask allow --help",
    "allow --json log => allow: no option is named --json; see ask allow --help",
    "allow log nofile empty => nofile: no such file",
    "allow log empty all => empty: holds no call: expected lines as strace -f writes them, or the kernel's with type=1326",
    "why => why: no CALL is given",
    "why getpid => why: no FILE is given",
    "why --call getpid all => why: no option is named --call; see ask why --help",
    "why mseal2(1 nofile => no call is named mseal2: did you mean mseal?",
    "why read(1 nofile => why: CALL(ARG, ..) does not end with its parenthesis",
    "why read(1,08) nofile => why: argument 2 of CALL(ARG, ..) is no number of 64 bits and no constant: 08",
    "why socket(AF_NETLINK,SOCK_RAW|SOCK_ROW) nofile => why: argument 2 of CALL(ARG, ..) is no number of 64 bits and no constant: SOCK_ROW",
    "why unlink(\"/tmp) nofile => why: CALL(ARG, ..) has a text that does not end with its double quote",
    "why read(1,2,3,4,5,6,7) nofile => why: CALL(ARG, ..) has more than six arguments",
    "why read(1) nofile => nofile: no such file",
    "show => show: no FILE is given",
    "arches => arches: no FILE is given",
    "calls --arch vax nofile => calls: no architecture is named vax; see ask --help",
    "show --arch x86-46 nofile => show: no architecture is named x86-46: did you mean x86-64?",
    "show nofile --arch => show: expected a name behind --arch",
    "why --arch arm read --arch arm nofile => why: given twice: --arch",
    "filter --arch i386 nofile => filter: no option is named --arch; see ask filter --help",
    "arches --arch i386 nofile => arches: no option is named --arch; see ask arches --help",
    "calls --arch i386 --call mkdirx nofile => no call is named mkdirx: did you mean mkdir?",
    "when --arch s390x nofile => when: arguments with their highest byte first are not followed: --arch s390x",
    "calls --arch s390x --examples nofile => calls: arguments with their highest byte first are not followed: --arch s390x",
    "show --raw all => show: no option is named --raw; see ask show --help",
    "show two => show: the FILEs hold several filters: expected one",
    "show all getpid => show: the FILEs hold several filters: expected one",
    "diff empty all => empty: holds no filter: expected bytes of struct sock_filter, hexadecimal digits, lines filter HEX, another form of a filter, a policy, or a profile in JSON",
    "filter all empty => empty: holds no filter: expected bytes of struct sock_filter, hexadecimal digits, lines filter HEX, another form of a filter, a policy, or a profile in JSON",
    "filter words all => words: line 1: ;: expected the name of a call on x86-64, or its number",
    "show turned => turned: instruction 0: the code is none of the 41 that seccomp(2) permits",
    "filter all code => code: line 2: instruction 0: the code is none of the 41 that seccomp(2) permits",
    "calls all --cap => calls: expected a name behind --cap",
    "calls --cap FOO all => calls: no capability is named FOO; see capabilities(7)",
    "filter --cap cap_sys_admni all => filter: no capability is named cap_sys_admni: did you mean CAP_SYS_ADMIN?",
    "filter --cap CAP_ --help => filter: no capability is named CAP_; see capabilities(7)",
    "why getpid all --kernel => why: expected a version as 6.1 behind --kernel",
    "show --kernel x all => show: expected a version as 6.1 behind --kernel",
    "diff --kernel 6.1 --kernel 6.1 all all => diff: given twice: --kernel",
    "arches all --machine => arches: expected a name behind --machine",
    "filter --machine vax all => filter: no machine is named vax; see ask --help",
    "lint --machine arch64 all => lint: no machine is named arch64: did you mean aarch64?",
    "calls --machine i386 nofile => calls: no machine is named i386; see ask --help",
    "show --machine s390x nofile => show: arguments with their highest byte first are not followed: --machine s390x",
    "diff --machine arm --machine => diff: no machine is named arm; see ask --help",
    "diff --machine aarch64 --machine aarch64 all all => diff: given twice: --machine",
    "when --native=1 all => when: no option is named --native=1: did you mean --native?",
    "calls --arch s390x listed => listed: no filter is made of a profile for s390x: its arguments have their highest byte first",
    "replay profile profile => profile: holds no call: expected lines as strace -f writes them, or the kernel's with type=1326",
    "calls object => object: defaultAction: missing: expected an action as SCMP_ACT_ERRNO, and not SCMP_ACT_NOTIFY",
    "filter code noted open object => open: is no JSON: expected the JSON of a profile, no more than 128 deep",
    "when keys => keys: a key comes twice in one object",
    "show bytes => bytes: is no text in UTF-8: expected the JSON of a profile",
    "show program => program: is an ELF file: expected a filter, as bytes of struct sock_filter or as a text",
    "why getpid() --kernel 6.-1 all => why: expected a version as 6.1 behind --kernel",
    "why all getpid => why: the call stands before the files: getpid",
    "why SYS_mseal2 all => no call is named SYS_mseal2: did you mean mseal?",
    "diff all clash => clash: entries 2 and 3 of syscalls clash: both fit write(0x1, 0x2, 0x0, 0x0, 0x0, 0x0), and they say different things",
    "show profile profile => show: the FILEs hold several filters: expected one",
    "filter --raw two => filter: the FILEs hold several filters: expected one with --raw",
    // Where several things are wrong, the first is told.
    "calls a\x7fb~ => a?b~: no such file",
    "calls nofile other => nofile: no such file",
    "filter words other => other: no such file",
    "replay other nofile => other: no such file",
    "diff other nofile => other: no such file",
    "calls --call mseal2 nofile => no call is named mseal2: did you mean mseal?",
    "calls mib_and_one => mib_and_one: has more than 1048576 bytes",
    "filter sixteen sixteen words => words: line 1: ;: expected the name of a call on x86-64, or its number",
    "filter sixteen sixteen two => two: line 2: one filter too many: expected at most 32 in all files",
    "why --arch s390x read nofile => why: arguments with their highest byte first are not followed: --arch s390x",
    "replay --arch s390x log nofile => replay: arguments with their highest byte first are not followed: --arch s390x",
    "diff --arch s390x all nofile => diff: arguments with their highest byte first are not followed: --arch s390x",
];

#[test]
fn trouble_leaves_no_answer(rt: HostRuntime) -> Result<(), Fail> {
    for row in TROUBLES {
        let (words, line) = row.split_once(" => ").ok_or("no arrow")?;
        assert_trouble(&rt, words, 0, line, 0)?;
    }
    Ok(())
}

// These words get no answer, and one line. The first so many writes of answers fail, and so many reads do.
fn assert_trouble<R: Abort + AllocGlobal>(
    rt: &R,
    words: &str,
    failing: u64,
    line: &str,
    reads: u64,
) -> Result<(), Fail> {
    let ran = run(rt.alloc(), words, failing)?;
    let line = format!(in rt.alloc(); "ask: {line}\n")?;
    assert_eq!(rt;
        (
            ran.status,
            ran.out.len(),
            ran.complaints.as_slice(),
            ran.reads
        ),
        (2, 0, line.as_bytes(), reads),
        "at {words}"
    );
    Ok(())
}

#[test]
fn failures_are_counted_and_told(rt: HostRuntime) -> Result<(), Fail> {
    for (words, failing, line, reads) in [
        ("filter all fails", 0, "fails: reading failed", 1),
        ("replay fails nofile", 0, "fails: reading failed", 1),
        ("allow log fails nofile", 0, "fails: reading failed", 1),
        ("filter all", 1, "writing failed", 0),
        ("--help", 1, "writing failed", 0),
    ] {
        assert_trouble(&rt, words, failing, line, reads)?;
    }
    Ok(())
}

#[test]
fn words_that_are_not_there(rt: HostRuntime) {
    let rows: [(bool, &[u8]); 2] = [
        (true, b"ask: out of memory\n"),
        (false, b"ask: a word is not UTF-8\n"),
    ];
    for (memory, line) in rows {
        let mut complaints = Counted::new(Output {
            held: Vec::new(rt.alloc()),
            failing: 0,
        });
        let status = misused(&mut complaints, memory);
        let held = complaints.into_inner().held;
        assert_eq!(rt; (status, held.as_slice()), (2, line));
    }
}
