//! Scenarios with their reports over each store, and texts with the fault that is told of them.
use super::{Reader, Writer};
use sk_run::{End, engine_with};
use sk_table::{ListStore, ProcStore, SlotStore};
use sk_text::Counted;
use std::alloc::Global;

/// A filter and no_new_privs hold through fork and execve.
pub const KEPT: &str =
    "filter f\nldabs 0\njeq 110 +0 +1\nret errno/1\nret allow\nend\nprogram init\nsetuid 1000\nseccomp 1 0 @f\nprctl 38 1 0 0 0\nseccomp 1 0 @f\nfork kid\nwait4 -1 0 0\nend\nprogram kid\nexecve @su\nend\nprogram su owner 0 setuid\ngeteuid\ngetppid\nend\n";

/// Its report.
pub const KEPT_REPORT: &str =
    "1 1 call setuid allow/0 0\n2 1 call seccomp allow/0 -13\n3 1 call prctl allow/0 0\n4 1 call seccomp allow/0 0\n5 1 call fork allow/0 2\n6 2 call execve allow/0 executed\n7 1 call wait4 allow/0 waits\n8 2 call geteuid allow/0 1000\n9 2 call getppid errno/1 -1\n10 2 call exit_group allow/0 ended 0x0000\n11 1 resume told 2 0x0000\n12 1 call exit_group allow/0 ended 0x0000\nend halt 0x0000\n";

/// What a run without a scenario writes.
pub const NO_REPORT: &str = "1 1 call exit_group allow/0 ended 0x0000\nend halt 0x0000\n";

/// Scenarios with their reports and ends, so that each form of a line comes. `sk_run` and `sk_scenario` have more of them as
/// theorems.
const REPORTS: &[(&str, &str, End)] = &[
    (
        "; names stand before what they name\nprogram init owner 4294967294\nkill &again -0 0x10 @g 18446744073709551615 -9223372036854775808\nfork again\ncall 4294967295 1 2 3 4 5 6\nend\nfilter e\nend\nfilter g\n ; bytes\nbytes 0600 0000\nbytes\nbytes 0000fF 7f\nend\nprogram again setuid\nend\nturns 0007\nsubreapers",
        "1 1 call kill allow/0 -3\n2 1 call fork allow/0 2\n3 2 call exit_group allow/0 ended 0x0000\n4 1 call 4294967295 allow/0 -38\n5 1 call exit_group allow/0 ended 0x0000\nend halt 0x0000\n",
        End::Halt(0x0000),
    ),
    (
        "program init\nfork shell\nwait4 -1 0 0\nwait4 -1 0 0\nend\nprogram shell\nsetsid\nfork job\nsetpgid 3 0\nsched_yield\nexit 1\nend\nprogram job\nsched_yield\nkill 3 19\npause\nend\n",
        "1 1 call fork allow/0 2\n2 2 call setsid allow/0 2\n3 1 call wait4 allow/0 waits\n4 2 call fork allow/0 3\n5 3 call sched_yield allow/0 0\n6 2 call setpgid allow/0 0\n7 3 call kill allow/0 0\n8 2 call sched_yield allow/0 0\n9 3 signal 19 stops\n10 2 call exit allow/0 ended 0x0100\n11 3 signal 1 ended 0x0001\n12 1 resume told 2 0x0100\n13 1 call wait4 allow/0 told 3 0x0001\n14 1 call exit_group allow/0 ended 0x0000\nend halt 0x0000\n",
        End::Halt(0x0000),
    ),
    (
        "filter f\nldabs 0\njeq 110 +0 +1\nret trap/7\nret allow\nend\nprogram init\nrt_sigaction 31 &hand 0\nseccomp 1 0 @f\ngetppid\ngetpid\nend\nprogram hand\nend\n",
        "1 1 call rt_sigaction allow/0 0\n2 1 call seccomp allow/0 0\n3 1 call getppid trap/7 trapped\n4 1 signal 31 handler 1\n5 1 call rt_sigreturn allow/0 0\n6 1 call getpid allow/0 1\n7 1 call exit_group allow/0 ended 0x0000\nend halt 0x0000\n",
        End::Halt(0x0000),
    ),
    (KEPT, KEPT_REPORT, End::Halt(0x0000)),
    (
        "program init\nrt_sigaction 17 1 0\nfork kid\nfork kid\nwait4 -1 0 0\nend\nprogram kid\nsched_yield\nexit 3\nend\n",
        "1 1 call rt_sigaction allow/0 0\n2 1 call fork allow/0 2\n3 2 call sched_yield allow/0 0\n4 1 call fork allow/0 3\n5 2 call exit allow/0 ended 0x0300\n6 3 call sched_yield allow/0 0\n7 1 call wait4 allow/0 waits\n8 3 call exit allow/0 ended 0x0300\n9 1 resume -10\n10 1 call exit_group allow/0 ended 0x0000\nend halt 0x0000\n",
        End::Halt(0x0000),
    ),
    (
        "filter f\nldabs 0\njeq 15 +0 +1\nret errno/1\nret allow\nend\nprogram init\nfork kid\nwait4 -1 0 0\nend\nprogram kid\nrt_sigaction 10 &hand 0\nseccomp 1 0 @f\nkill 2 10\npause\nend\nprogram hand\nend\n",
        "1 1 call fork allow/0 2\n2 2 call rt_sigaction allow/0 0\n3 1 call wait4 allow/0 waits\n4 2 call seccomp allow/0 0\n5 2 call kill allow/0 0\n6 2 signal 10 handler 2\n7 2 call rt_sigreturn errno/1 -1\n8 2 crash\n9 1 resume told 2 0x000b\n10 1 call exit_group allow/0 ended 0x0000\nend halt 0x0000\n",
        End::Halt(0x0000),
    ),
    (
        "program init\nfork kid\nwait4 -1 0 2\nkill 2 18\nwait4 -1 0 8\nkill 2 9\nwait4 -1 0 0\nend\nprogram kid\nkill 2 19\npause\nend\n",
        "1 1 call fork allow/0 2\n2 2 call kill allow/0 0\n3 1 call wait4 allow/0 waits\n4 2 signal 19 stops\n5 1 resume told 2 0x137f\n6 1 call kill allow/0 0\n7 2 call pause allow/0 waits\n8 1 call wait4 allow/0 told 2 0xffff\n9 1 call kill allow/0 0\n10 2 signal 9 ended 0x0009\n11 1 call wait4 allow/0 told 2 0x0009\n12 1 call exit_group allow/0 ended 0x0000\nend halt 0x0000\n",
        End::Halt(0x0000),
    ),
    (
        "program init\npause\nend\n",
        "1 1 call pause allow/0 waits\nend idle\n",
        End::Idle,
    ),
    (
        "turns 5\nprogram init\nrt_sigaction 10 &again 0\nkill 1 10\npause\nend\nprogram again\nkill 1 10\nend\n",
        "1 1 call rt_sigaction allow/0 0\n2 1 call kill allow/0 0\n3 1 signal 10 handler 1\n4 1 call kill allow/0 0\n5 1 call rt_sigreturn allow/0 0\nend limit\n",
        End::Limit,
    ),
    (
        "subreapers\nprogram init\nfork srv\nwait4 -1 0 0\nend\nprogram srv\nprctl 36 1\nfork mid\nwait4 -1 0 0\nwait4 -1 0 0\nend\nprogram mid\nfork leaf\nexit 1\nend\nprogram leaf\ngetppid\ngetppid\nexit 2\nend\n",
        "1 1 call fork allow/0 2\n2 2 call prctl allow/0 0\n3 1 call wait4 allow/0 waits\n4 2 call fork allow/0 3\n5 3 call fork allow/0 4\n6 4 call getppid allow/0 3\n7 2 call wait4 allow/0 waits\n8 3 call exit allow/0 ended 0x0100\n9 4 call getppid allow/0 2\n10 2 resume told 3 0x0100\n11 4 call exit allow/0 ended 0x0200\n12 2 call wait4 allow/0 told 4 0x0200\n13 2 call exit_group allow/0 ended 0x0000\n14 1 resume told 2 0x0000\n15 1 call exit_group allow/0 ended 0x0000\nend halt 0x0000\n",
        End::Halt(0x0000),
    ),
    (
        "program init\nrt_sigaction 10 &h 0\nfork k\nkill 2 10\nwait4 -1 0 0\nend\nprogram h\nend\nprogram k\npause\nend\n",
        "1 1 call rt_sigaction allow/0 0\n2 1 call fork allow/0 2\n3 2 call pause allow/0 waits\n4 1 call kill allow/0 0\n5 2 signal 10 handler 1 eintr\n6 1 call wait4 allow/0 waits\n7 2 call rt_sigreturn allow/0 0\n8 2 call exit_group allow/0 ended 0x0000\n9 1 resume told 2 0x0000\n10 1 call exit_group allow/0 ended 0x0000\nend halt 0x0000\n",
        End::Halt(0x0000),
    ),
];

/// Texts that are no scenario, with what is told of them. `sk_scenario` has more of them as theorems.
pub const FAULTS: &[(&str, &str)] = &[
    ("turns 0\n", "skern: line 1: over the limit"),
    ("program init\ngetpid\n", "skern: line 3: not understood"),
    (
        "program init\nexecve @x\nend\n",
        "skern: line 2: no such name",
    ),
    ("filter f\nja far\nend\n", "skern: line 2: no such name"),
];

// Whether this is answered and written over a store.
fn has_report<S: ProcStore>(alloc: Global, input: &str, report: &str, end: End) -> bool {
    let mut reader = Counted::new(Reader::new(input.as_bytes()));
    let mut writer = Counted::new(Writer::new(alloc));
    let answer = engine_with::<S, _, _>(alloc, &mut reader, &mut writer);
    answer == Ok(end) && writer.into_inner().held.as_slice() == report.as_bytes()
}

#[test]
fn scenarios_have_the_worked_reports(rt: HostRuntime) {
    let alloc = rt.alloc();
    for &(input, report, end) in REPORTS {
        let over_slots = has_report::<SlotStore>(alloc, input, report, end);
        let over_a_list = has_report::<ListStore>(alloc, input, report, end);
        assert!(rt; over_slots && over_a_list, "at {input}");
    }
}
