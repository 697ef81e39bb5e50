//! Calls, the processes of events, and the numbers of reasons, options and operations: each function once.
use sk_machine::{Event, PrctlOption, Reason, SeccompOperation};
use sk_names::{Call, Syscall};

#[test]
fn calls_have_the_numbers_and_names_of_the_manual(rt: HostRuntime) {
    let fork = Syscall::Fork;
    assert_eq!(rt; (fork.number(), fork.name()), (57, "fork"));
    let found = (Syscall::of(57), Syscall::named(b"fork"));
    assert_eq!(rt; found, (Some(fork), Some(fork)));
    let none = (Syscall::of(56), Syscall::named(b"Fork"));
    assert_eq!(rt; none, (None, None));
}

#[test]
fn each_event_has_its_process(rt: HostRuntime) {
    let call = Call {
        nr: 39,
        args: [0; 6],
    };
    for event in [
        Event::Call {
            pid: 2,
            ip: 0,
            call,
        },
        Event::Deliver { pid: 2 },
        Event::Resume { pid: 2 },
        Event::Fault { pid: 2 },
    ] {
        assert_eq!(rt; event.pid(), 2);
    }
}

#[test]
fn reasons_options_and_operations_are_numbered(rt: HostRuntime) {
    assert_eq!(rt;
        (Reason::NoProcess.number(), Reason::Halted.number()),
        (1, 7)
    );
    let options = (PrctlOption::of(38), PrctlOption::of(1));
    assert_eq!(rt; options, (Some(PrctlOption::SetNoNewPrivs), None));
    let operations = (SeccompOperation::of(1), SeccompOperation::of(3));
    assert_eq!(rt; operations, (Some(SeccompOperation::SetModeFilter), None));
}
