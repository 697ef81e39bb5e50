//! What `ask --help`, `ask --version` and `ask WORD --help` say.
ghost use Rattle.std.specs.Prelude.{◌≡◌};
ghost use Rattle.sk_ask.specs.Helping.{word_help_text};

use crate::word::Word;

/// What `ask --help` says.
pub const HELP: &str = "usage: ask WORD ..
  ask calls [--call CALL] [--examples] FILE..   what seccomp filters can answer to each call
  ask filter [--to FORM] [--smaller] FILE..     the filters in another form, or one in place of all
  ask when [--call CALL [--dot]] FILE..         under which arguments each verdict comes, for Graphviz with --dot
  ask diff [--stricter] OLD NEW                 the calls that two chains of filters answer otherwise
  ask expect POLICY FILE..                      the calls whose verdicts are not as a policy expects
  ask lint [--all] FILE..                       the calls that get another verdict by bits that Linux does not read
  ask replay LOG FILE..                         the verdicts on the calls that strace -f -o LOG COMMAND or the kernel wrote
  ask allow [--args CALL,..] LOG..              the least policy that allows the calls of such logs
  ask why 'CALL(ARG, ..)' FILE..                the path of one call through the filters, or of that in a line of the kernel
  ask show FILE                                 one filter for people, as a text that skern asm takes
  ask arches FILE..                             what the filters answer to calls of each architecture
  ask check FILE..                              whether Linux takes the filters, or the first fault of one
  ask page [--old OLD] FILE..                   a page of HTML for reviewers, with --old also of what changed
  ask WORD --help                               more on a word
  ask --version                                 which program this is, and of which Linux it knows the calls
All but filter, arches and check are about the calls of x86-64, or, with --arch ARCH, about those of another architecture: x32,
i386, aarch64, arm, riscv64, ppc64le, s390x or loongarch64. lint is about those of x86-64 and x32 alone, page about those of
x86-64, and expect, where no ARCH is given, about those that its POLICY tells of. Names and numbers are those that calls have there.
when, diff, expect, lint, allow and page write numbers by the constants of Linux's headers, and with --numbers as they are. With --json
calls, when, diff, expect, lint, replay, why and arches print one JSON document.
FILE holds raw struct sock_filter, hexadecimal digits, lines filter HEX, a filter in another form, a policy as when writes one, or a
seccomp profile of docker's or podman's kind in JSON, which may stand in a container's config.json, in a SeccompProfile or in what
docker inspect prints; the last two stand for their filters. Other forms are arrays of C, with numbers or with BPF_STMT and
BPF_JUMP, as strace has them too; decimals of tcpdump -ddd or bpf_asm; tables of seccomp-tools or scmp_bpf_disasm; and the bytes by
xxd, xxd -i or hexdump -C, in strings of C, or in base64. - is standard input. Several FILEs are one chain, the oldest first.
In a policy refused and performed are verdicts for expect alone, which also takes one that leaves verdicts out.
Where a FILE is a profile, each WORD takes
  --cap NAME        a capability that is held there, as CAP_SYS_ADMIN, or docker, or all; as often as there are; else none is
  --kernel VERSION  the kernel there, as 6.1 or as uname -r has it; else it is 6.12
  --machine M       the profile's machine: x86-64, aarch64, riscv64, ppc64le or loongarch64; without it that of --arch, else x86-64
  --native          the machine's own architecture alone; programs of its others are killed
  --runc            as runc attaches it, which has calls above the greatest number that is named fail with ENOSYS
  --strict          what is passed over in it, as a call that it names and Linux does not have, is trouble, and no note
Status: 0 yes or answered, 1 answered with no, 2 trouble, which standard error tells.
Three scripts of examples/, which packages install as programs too, take filters from processes and give them filters:
  skern-attached COMMAND..      runs a command, and writes the filters that it attaches, as a FILE
  skern-process-filters PID     writes the filters of a process that runs, as a FILE
  skern-attach COMMAND..        attaches the filters of lines filter HEX on standard input, and becomes a command
";

/// What `ask --version` says: the program, of which Linux the names of calls are, and what proved it.
pub const VERSION: &str = "ask (skern)
Names of calls: Linux 6.12
Toolchain: rattle-kit-13f
";

/// What `ask calls --help` says.
pub const CALLS_HELP: &str =
    "usage: ask calls [--call CALL] [--only VERDICT] [--examples] [--json] [--arch ARCH] FILE..
For each call of x86-64, or of ARCH, by its number and its name, the verdicts that the filters in the FILEs can come to.
  --call CALL   only this call: a name or a number, decimal or 0x and hexadecimal; and as often as wanted, in this order
  --only VERDICT
                only rows in which this verdict can come, as allow or errno/1; errno alone whatever its data are; or one of several
  --examples    below each line a call for each verdict, or ? where none was found
  --json        one JSON document in place of the text, whose form is in FORMATS.md
  --arch ARCH   the calls of this architecture: ask --help has their names
The last line begins with warning where all calls are told and no filter looks at the architecture.
A FILE may be a profile, and then --cap, --kernel, --machine, --native, --runc and --strict say how it holds: ask --help has them.
";

/// What `ask filter --help` says.
pub const FILTER_HELP: &str = "usage: ask filter [--to FORM] [--smaller] FILE..
The filters in the FILEs as lines filter HEX, the oldest first. A FILE may be a policy, a text as ask when writes one: then it is the
filter that answers to every call what the policy says. It gives each call a verdict: refused and performed are for ask expect.
  --to FORM     lines, as without it; or one filter as raw, the bytes of struct sock_filter; hex, these in hexadecimal digits; base64;
                c, the rows of an array of C as tcpdump -dd writes them; bpf_asm, a line of decimals as bpf_asm writes it; or json,
                an array of objects with code, jt, jf and k. The last --to holds
  --raw         --to raw
  --smaller     one filter that answers every call of every architecture as those in the FILEs do, where it has fewer instructions than
                they have together; standard error has both numbers. Where it has no fewer, a single filter is given as it is, and
                several are refused. Calls of all architectures but x86-64 and x32 need one verdict
As an example, ask filter --smaller --raw profile.json > smaller.bpf writes the filter of a profile with fewer instructions.
A FILE may be a profile, and then --cap, --kernel, --machine, --native, --runc and --strict say how it holds: ask --help has them.
";

/// What `ask when --help` says.
pub const WHEN_HELP: &str =
    "usage: ask when [--call CALL [--dot]] [--only VERDICT] [--numbers] [--json] [--arch ARCH] FILE..
For each call of x86-64, or of ARCH, by its number and its name, the verdicts of the filters in the FILEs, and where arguments
decide the condition on each as an expression of C over args[0] to args[5], ip, and nr where a line has several numbers.
  --call CALL   only this call: a name or a number, decimal or 0x and hexadecimal; and as often as wanted, in this order
  --only VERDICT
                only rows in which this verdict can come, as allow or errno/1; errno alone whatever its data are; or one of several
  --dot         a picture of each call's conditions and verdicts, as text for Graphviz, and no JSON
  --numbers     numbers as they are, and no constants of Linux's headers
  --json        one JSON document in place of the text, whose form is in FORMATS.md
  --arch ARCH   the calls of this architecture: ask --help has their names; s390x is not followed
A FILE may be a profile, and then --cap, --kernel, --machine, --native, --runc and --strict say how it holds: ask --help has them.
";

/// What `ask diff --help` says.
pub const DIFF_HELP: &str = "usage: ask diff [--stricter] [--numbers] [--json] [--arch ARCH] OLD NEW
Whether the filters of two FILEs answer the same to every call of x86-64, or of ARCH, whatever its arguments are; and where not,
the numbers with the old and the new verdict, and below them a call that shows it. They stand below the lines looser:, stricter: and
other:, by how strict NEW is there.
  --stricter    whether NEW is at least as strict, by what becomes of the process: an unknown action counts as kill_process
  --numbers     numbers as they are, and no constants of Linux's headers
  --json        one JSON document in place of the text, whose form is in FORMATS.md
  --arch ARCH   the calls of this architecture: ask --help has their names; s390x is not followed
A FILE may be a profile, and then --cap, --kernel, --machine, --native, --runc and --strict say how it holds: ask --help has them.
";

/// What `ask expect --help` says.
pub const EXPECT_HELP: &str = "usage: ask expect [--numbers] [--json] [--arch ARCH] POLICY FILE..
Whether the verdicts of the filters in the FILEs are as POLICY expects on every call that it tells of, whatever the arguments are; and
where not, the numbers with what is expected and the verdict, and below them a call that shows it.
POLICY is a text as ask when writes one, of at most 1048576 bytes. In place of a verdict it may have refused, which expects that the
call is not performed, or performed, which expects that it is. A verdict is expected as it is, with its number. Where it has no row for
a number and no line default, no else behind cases, or no line others, it expects nothing.
  --numbers     numbers as they are, and no constants of Linux's headers
  --json        one JSON document in place of the text, whose form is in FORMATS.md
  --arch ARCH   the calls of this architecture: ask --help has their names; without it of that in POLICY's line arch, else x86-64;
                s390x is not followed. Calls of other architectures than POLICY's are to get what its line others says
As an example, where POLICY has the lines
  ptrace, bpf, mount: refused
  read, write: performed
ask expect POLICY docker.json says whether docker's profile refuses the first three, and lets all calls of the other two through.
Status 0 where all are as expected, 1 where some are not.
A FILE may be a profile, and then --cap, --kernel, --machine, --native, --runc and --strict say how it holds: ask --help has them. Without
--machine it is for the architecture whose calls are compared.
";

/// What `ask lint --help` says.
pub const LINT_HELP: &str = "usage: ask lint [--all] [--numbers] [--json] FILE..
Which calls of x86-64 and x32 get another verdict of the filters in the FILEs by bits that Linux does not read, as the upper 32 of an
int: the numbers with the verdict on the calls that Linux takes them for and with their own, the condition on them, a call that shows
it, what Linux takes that for, and the entries of a profile that compare such bits. Those with a less strict verdict come first.
What Linux reads is that of 6.12; of calls that it does not have all bits count as read.
  --all         those too whose verdict is as strict or stricter, which else are only counted
  --numbers     numbers as they are, and no constants of Linux's headers
  --json        one JSON document in place of the text, whose form is in FORMATS.md; it has all of them
Status 1 where a verdict is less strict, or the condition has an int with its sign, which programs in C do not pass. Notes on what is
compared and says little go to standard error.
A FILE may be a profile, and then --cap, --kernel, --machine, --native, --runc and --strict say how it holds: ask --help has them.
";

/// What `ask replay --help` says.
pub const REPLAY_HELP: &str = "usage: ask replay [--since-seccomp] [--json] [--arch ARCH] LOG FILE..
The calls in LOG, which strace -f -o LOG COMMAND wrote: each once, with how often it was made and the verdict of the filters in the
FILEs, those first that are not performed; then how many lines are no calls, or are not understood. Of an argument that LOG shows as
a text, a structure or a name that no table has, ? is written; where the verdict depends on one, its number stands in the verdict's
place. strace -f -X raw -e raw=all -o LOG COMMAND shows each argument as a number. LOG may have lines that the kernel wrote too, with
type=1326, type=SECCOMP or audit[PID]: SECCOMP, as dmesg, auditd and journalctl print them: of such a call the number alone is known,
and what the kernel did with it, which stands behind the verdict as (logged: kill_process).
  --since-seccomp
                only calls of processes that have a filter, from where seccomp or prctl attaches it; other lines count as no calls. A
                process that first comes behind that line has it too, and with SECCOMP_FILTER_FLAG_TSYNC all have
  --json        one JSON document in place of the text, whose form is in FORMATS.md
  --arch ARCH   the program was one of this architecture: ask --help has their names; s390x is not followed
Status 1 where a call is not performed or may not be, or a line not understood. LOG has at most 268435456 bytes; - is standard input.
A FILE may be a profile, and then --cap, --kernel, --machine, --native, --runc and --strict say how it holds: ask --help has them.
";

/// What `ask allow --help` says.
pub const ALLOW_HELP: &str =
    "usage: ask allow [--args CALL,..] [--numbers] [--since-seccomp] [--for RUNTIME] [--to policy|profile] [--arch ARCH] LOG..
The least policy that allows the calls in the LOGs, which strace -f -o LOG COMMAND wrote, or the kernel, as in ask replay: a row for
each number of a call, in rising order, and EPERM for all other calls. ask filter makes the filter of it.
  --args CALL,..
                these calls with no other arguments than the LOGs show: of each argument that is no address the numbers that came in
                it, as far as Linux reads it. One that some line does not show may be any, which a note tells; a call is refused
                here whose arguments may all be any so. Of calls of x86-64 alone
  --numbers     numbers as they are, and no constants of Linux's headers
  --since-seccomp
                only calls of processes that have a filter, as in ask replay
  --for RUNTIME allow the calls too that a runtime makes itself under its filter: docker (runc), crun, bwrap or systemd
  --to FORM     profile: a profile of docker's kind, of calls of x86-64 alone; else it is a policy
  --arch ARCH   the programs were of this architecture: ask --help has their names; a policy for x32 is one of x86-64
Status 1 where a line is not understood, which standard error tells. A LOG has at most 268435456 bytes; - is standard input.
Calls that the programs did not make in these runs are refused, and without --for those that a runtime makes before them.
";

/// What `ask why --help` says.
pub const WHY_HELP: &str = "usage: ask why [--json] [--arch ARCH] 'CALL(ARG, ..)' FILE..
The instructions of each filter that one call of x86-64, or of ARCH, comes to, the newest filter first: the place, the
instruction, what A and X hold behind it, what a jump compared and where it went; then the verdict, and the filter and the place
that it comes from.
CALL is a name or a number, decimal or 0x and hexadecimal; an ARG, of at most six, a number of 64 bits, - and one of at most 2^63, or
numbers and constants of Linux's headers with | between them, as SOCK_RAW|SOCK_CLOEXEC. Behind a 0 digits are octal, and NULL is 0. A
text in double quotes is an address that is not 0. Arguments that are not given are 0, and so is the instruction pointer.
In place of CALL a line of the kernel may stand, as dmesg, auditd and journalctl print it of a call that a filter refused or logged:
with type=1326, type=SECCOMP or audit[PID]: SECCOMP. What the kernel did stands last then, as logged: kill_process. Such a line has no
arguments: where the verdict depends on one, that is told, and the status is 2.
  --json        one JSON document in place of the text, whose form is in FORMATS.md
  --arch ARCH   a call of this architecture: ask --help has their names; s390x is not followed
A FILE may be a profile, and then --cap, --kernel, --machine, --native, --runc and --strict say how it holds: ask --help has them.
";

/// What `ask show --help` says.
pub const SHOW_HELP: &str = "usage: ask show [--arch ARCH] FILE
The instructions of one filter, with labels where jumps go, and above each as a comment its place and what it is about: the field
that it loads, the call or the architecture that it compares with, the verdict that it returns. skern asm takes the text, and
gives the same instructions.
  --arch ARCH   numbers have the names of this architecture where no test tells of which calls are: ask --help has their names
A FILE may be a profile, and then --cap, --kernel, --machine, --native, --runc and --strict say how it holds: ask --help has them.
";

/// What `ask arches --help` says.
pub const ARCHES_HELP: &str = "usage: ask arches [--json] FILE..
For each architecture, and for any other, the verdict of the filters in the FILEs on all its calls, or that they are judged call
by call. The calls of x86-64 are those with numbers below 0x40000000, and those of x32 have the numbers behind, to 0x7fffffff.
  --json        one JSON document in place of the text, whose form is in FORMATS.md
Status 1 and a line that begins with warning where calls of i386 or x32, which a Linux of x86-64 takes too, are judged by the
numbers of x86-64.
A FILE may be a profile, and then --cap, --kernel, --machine, --native, --runc and --strict say how it holds: ask --help has them.
";

/// What `ask check --help` says.
pub const CHECK_HELP: &str = "usage: ask check [--arch ARCH] FILE..
Whether seccomp(2) takes the filters in the FILEs, attached one after the other: a line for each, with its length, or the first fault
of the first that is refused, with the place of the instruction, from 0 on.
  --arch ARCH   with s390x, bytes may be those of a machine that has the highest byte of a number first
Status 1 where a filter is refused, 2 where a FILE holds none.
A FILE may be a profile, and then --cap, --kernel, --machine, --native, --runc and --strict say how it holds: ask --help has them.
";

/// What `ask page --help` says.
pub const PAGE_HELP: &str = "usage: ask page [--numbers] FILE..
       ask page [--numbers] --old OLD NEW
One page of HTML, without scripts, of what when, arches and lint tell of the filters in the FILEs: the calls of x86-64 that are refused,
those whose arguments decide, and those that are allowed; the architectures; calls that get another verdict by bits that Linux does not
read; and the JSON documents of these words. It is for reviewers, and is used by the keyboard as by the mouse.
  --old OLD     first what diff tells of OLD and NEW: the calls that NEW is looser on, stricter, and other changes; then the page of NEW
  --numbers     numbers as they are, and no constants of Linux's headers
Status 0 where the page is printed, whatever it tells. Where a verdict is not known there is no page, and the status is 2.
A FILE may be a profile, and then --cap, --kernel, --machine, --native, --runc and --strict say how it holds: ask --help has them.
";

/// What `ask WORD --help` says.
pub fn word_help(word: Word) -> &'static str
    ensures text { result.now ≡ word_help_text word }
{
    match word {
        Word::Calls { .. } => CALLS_HELP,
        Word::Filter { .. } => FILTER_HELP,
        Word::When { .. } => WHEN_HELP,
        Word::Diff { .. } => DIFF_HELP,
        Word::Expect => EXPECT_HELP,
        Word::Lint { .. } => LINT_HELP,
        Word::Replay { .. } => REPLAY_HELP,
        Word::Allow(_) => ALLOW_HELP,
        Word::Why => WHY_HELP,
        Word::Show => SHOW_HELP,
        Word::Arches => ARCHES_HELP,
        Word::Check => CHECK_HELP,
        Word::Page { .. } => PAGE_HELP,
    }
}
