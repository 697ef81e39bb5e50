//! Sets of signals, default actions, and how signals pend, are blocked, ignored and handled: each function once. `sk_world` has
//! more of them as theorems.
use sk_world::signals::{SIGCHLD, SIGCONT, SIGHUP, SIGKILL, SIGSYS, SIGTERM, SIGTSTP, SIGUSR1};
use sk_world::{DefaultAction, Disposition, SigSet, SigState, default_action, tty_stop};

fn handler() -> Disposition {
    Disposition::Handler {
        program: 0,
        mask: SigSet::empty(),
    }
}

// A process that blocks all that can be blocked.
fn deaf() -> SigState {
    let mut state = SigState::new();
    state.set_mask(SigSet::from_bits_truncate(u64::MAX));
    state
}

// The bits of what is pending, and which of it is delivered next.
fn due(state: &SigState) -> (u32, Option<u8>) {
    (state.pending().bits(), state.deliverable())
}

#[test]
fn sets_hold_each_signal_once(rt: HostRuntime) {
    let set = SigSet::empty().with(SIGTERM).with(SIGUSR1).with(SIGTERM);
    // SIGKILL, SIGUSR1, SIGSYS, and a number that no signal has.
    let more = SigSet::from_bits_truncate(0x1_4000_0300);
    assert_eq!(rt; (set.bits(), more.bits()), (0x4200, 0x4000_0300));
    let bits = (
        set.without(SIGUSR1).bits(),
        set.union(more).bits(),
        set.difference(more).bits(),
        more.blockable().bits(),
    );
    assert_eq!(rt; bits, (0x4000, 0x4000_4300, 0x4000, 0x4000_0200));
    assert!(rt; set.contains(SIGUSR1) && !set.contains(SIGHUP));
    let lowest = (set.lowest(), SigSet::empty().lowest());
    assert_eq!(rt; lowest, (Some(SIGUSR1), None));
}

#[test]
fn actions_say_what_they_do(rt: HostRuntime) {
    let actions = [SIGHUP, SIGCHLD, SIGCONT, SIGTSTP].map(|signal| default_action(signal));
    let expected = [
        DefaultAction::Terminate,
        DefaultAction::Ignore,
        DefaultAction::Continue,
        DefaultAction::Stop,
    ];
    assert!(rt; actions == expected);
    assert!(rt; tty_stop(SIGTSTP) && !tty_stop(SIGHUP));
    assert!(rt; handler().is_handler() && Disposition::Ignore.is_ignore());
    assert!(rt; Disposition::Default.ignores(SIGCHLD, false));
    assert!(rt; handler().after_exec() == Disposition::Default);
}

#[test]
fn kill_gets_through_a_full_mask(rt: HostRuntime) {
    let mut state = deaf();
    assert_eq!(rt; state.mask().bits(), 0x7ffb_feff);
    state.generate(SIGTERM, false);
    assert_eq!(rt; due(&state), (0x4000, None));
    state.generate(SIGKILL, false);
    assert_eq!(rt; due(&state), (0x4100, Some(SIGKILL)));
    state.take(SIGKILL);
    state.set_mask(SigSet::empty());
    assert_eq!(rt; due(&state), (0x4000, Some(SIGTERM)));
}

#[test]
fn forced_sigsys_is_neither_blocked_nor_ignored(rt: HostRuntime) {
    let mut state = deaf();
    state.set_action(SIGSYS, Disposition::Ignore, false);
    state.force();
    let forced = (state.deliverable(), state.mask().bits());
    assert_eq!(rt; forced, (Some(SIGSYS), 0x3ffb_feff));
    assert!(rt; state.action(SIGSYS) == Disposition::Default);
}

// A handler runs, whose return restores the mask, in a child too, but not behind execve.
#[test]
fn frames_are_forked_and_dropped(rt: HostRuntime) {
    let mut state = SigState::new();
    state.set_mask(SigSet::empty().with(SIGHUP));
    state.set_action(SIGUSR1, handler(), true);
    assert!(rt; state.push_frame(SIGUSR1, SigSet::from_bits_truncate(0x44100)));
    state.generate(SIGUSR1, true);
    assert_eq!(rt; (state.mask().bits(), due(&state)), (0x4201, (0x200, None)));
    let mut child = state.forked();
    assert!(rt; child.pop_frame() && child.action(SIGUSR1) == handler());
    assert_eq!(rt; (child.mask().bits(), due(&child)), (1, (0, None)));
    state.after_exec();
    assert!(rt; !state.pop_frame() && state.action(SIGUSR1) == Disposition::Default);
    assert_eq!(rt; state.pending().bits(), 0x200);
    state.clear();
    assert_eq!(rt; state.pending().bits(), 0);
}
