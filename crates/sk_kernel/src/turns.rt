//! Whether a process can run, and what its next event is.
ghost use Rattle.std.specs.Prelude.{◌≡◌, if◌then◌else◌, IfSome, None};
ghost use Rattle.std.specs.Option.{is_some};
ghost use Rattle.sk_world.specs.declared.process.Waiting.TheVariants.{Asks};
ghost use Rattle.sk_world.specs.Rules.{IsWorld};
ghost use Rattle.sk_machine.specs.Machine.{halted_of};
ghost use Rattle.sk_machine.specs.declared.event.Need.TheVariants as need;
ghost use Rattle.sk_machine.specs.Delivering.{is_waiting};
ghost use Rattle.sk_machine.specs.Turns.{waits_no_more, is_runnable, need_of};

use crate::reasons::{halted, signal_for};
use sk_machine::{Need, is_waiting};
use sk_world::{Life, Poll, ProcStore, Request, Waiting, ready};

/// Whether the process can run: it lives, and a signal is due, or it is not stopped and its call would not go on
/// waiting.
pub fn runnable<S: ProcStore>(store: &S, pid: u32) -> bool
    requires { IsWorld (S.contents store.now) }
    ensures { result ≡ is_runnable (S.contents store.now) pid }
{
    if halted(store).is_some() {
        return false;
    }
    need_to_run(store, pid).is_some()
}

/// What the next event of the process is, where it can run, in a system that has not halted: whether it has is not
/// looked at again.
pub fn need_to_run<S: ProcStore>(store: &S, pid: u32) -> Option<Need>
    requires rules { IsWorld (S.contents store.now) }
    requires goes_on { halted_of (S.contents store.now) ≡ None }
    ensures runs { is_some result ≡ is_runnable (S.contents store.now) pid }
    ensures need { IfSome result (λ next. next ≡ need_of (S.contents store.now) pid) }
{
    let process = store.get(pid)?;
    let is_due = signal_for(&process.body).is_some();
    match process.body.life {
        Life::Zombie(_) => None,
        Life::Stopped => is_due.then_some(Need::Deliver),
        Life::Running if is_due => Some(Need::Deliver),
        Life::Running => need_to_go_on(store, pid, process.body.waiting),
    }
}

// The same of a running process for which no signal is due, by what it waits in.
fn need_to_go_on<S: ProcStore>(store: &S, pid: u32, waiting: Waiting) -> Option<Need>
    requires { IsWorld (S.contents store.now) }
    ensures runs { is_some result ≡ waits_no_more (S.contents store.now) pid waiting }
    ensures need { IfSome result (λ next. next ≡ (if is_waiting waiting then need.Resume else need.Call)) }
{
    match waiting {
        Waiting::Nothing => Some(Need::Call),
        Waiting::Pause => None,
        Waiting::Asks(request) => asks_no_more(store, pid, &request).then_some(Need::Resume),
    }
}

/// What the next event of the process is.
pub fn need<S: ProcStore>(store: &S, pid: u32) -> Need
    ensures { result ≡ need_of (S.contents store.now) pid }
{
    let Some(process) = store.get(pid) else {
        return Need::Call;
    };
    if signal_for(&process.body).is_some() {
        return Need::Deliver;
    }
    if is_waiting(process.body.waiting) {
        Need::Resume
    } else {
        Need::Call
    }
}

// Whether a wait4(2) with this request would end now. Few are asked, and those that make calls are not to pay for it.
#[inline(never)]
fn asks_no_more<S: ProcStore>(store: &S, pid: u32, request: &Request) -> bool
    requires { IsWorld (S.contents store.now) }
    ensures { result ≡ waits_no_more (S.contents store.now) pid (Asks request.now) }
{
    match ready(store, pid, request) {
        Poll::Told { pid: _, status: _ } => true,
        Poll::NoMatch => true,
        Poll::NotReady => false,
    }
}
