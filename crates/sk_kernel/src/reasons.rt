//! Why an event is not possible: the reasons in their order, and the halt and the due signal that they look at.
ghost use Rattle.std.specs.Prelude.{◌≡◌, IfSome};
ghost use Rattle.sk_world.specs.SignalSet.{IsSignal};
ghost use Rattle.sk_world.specs.World.{at};
ghost use Rattle.sk_machine.specs.Delivering.{signal_for, signal_due};
ghost use Rattle.sk_machine.specs.Machine.{reason_of, halted_of};
ghost use Rattle.sk_kernel.specs.views.OfProcess.{running_reason, stopped_reason, reason_for};

use sk_machine::{Event, Reason, is_waiting};
use sk_world::signals::SIGKILL;
use sk_world::{Body, INIT, Life, Proc, ProcStore};

/// Why the event is not possible, if it is not: the first reason that holds.
pub fn reason<S: ProcStore>(store: &S, event: &Event) -> Option<Reason>
    ensures { result ≡ reason_of (S.contents store.now) event.now }
{
    if halted(store).is_some() {
        return Some(Reason::Halted);
    }
    match store.get(event.pid()) {
        Some(process) => reason_for(process, event),
        None => Some(Reason::NoProcess),
    }
}

/// The status with which the system has halted, if it has: that of process 1.
pub fn halted<S: ProcStore>(store: &S) -> Option<u32>
    ensures { result ≡ halted_of (S.contents store.now) }
{
    match store.get(INIT) {
        Some(process) => match process.body.life {
            Life::Zombie(status) => Some(status),
            Life::Stopped => None,
            Life::Running => None,
        },
        None => None,
    }
}

/// The signal that is delivered next to the process, if one is due. To a process that is stopped it is SIGKILL alone.
pub fn signal_due<S: ProcStore>(store: &S, pid: u32) -> Option<u8>
    ensures value { result ≡ signal_due (at (S.contents store.now) pid) }
    ensures signal { IfSome result IsSignal }
{
    match store.get(pid) {
        Some(process) => signal_for(&process.body),
        None => None,
    }
}

// The first reason for which an event of this process is not possible, in a system that has not halted.
fn reason_for(process: &Proc, event: &Event) -> Option<Reason>
    ensures { result ≡ reason_for process.now event.now }
{
    let is_due = signal_for(&process.body).is_some();
    match process.body.life {
        Life::Zombie(_) => Some(Reason::Zombie),
        Life::Stopped => stopped_reason(event, is_due),
        Life::Running => running_reason(event, is_waiting(process.body.waiting), is_due),
    }
}

fn stopped_reason(event: &Event, is_due: bool) -> Option<Reason>
    ensures { result ≡ stopped_reason is_due event.now }
{
    match *event {
        Event::Deliver { pid: _ } if is_due => None,
        _ => Some(Reason::Stopped),
    }
}

fn running_reason(event: &Event, is_in_call: bool, is_due: bool) -> Option<Reason>
    ensures { result ≡ running_reason is_in_call is_due event.now }
{
    match *event {
        Event::Deliver { pid: _ } => (!is_due).then_some(Reason::NothingWaits),
        Event::Resume { pid: _ } if !is_in_call => Some(Reason::NothingWaits),
        Event::Resume { pid: _ } => is_due.then_some(Reason::SignalFirst),
        _ if is_in_call => Some(Reason::Waiting),
        _ => is_due.then_some(Reason::SignalFirst),
    }
}

/// The same of a process with this body.
#[inline(always)]
pub fn signal_for(body: &Body) -> Option<u8>
    ensures value { result ≡ signal_for body.now }
    ensures signal { IfSome result IsSignal }
{
    if matches!(body.life, Life::Stopped) {
        return body.signals.pending().contains(SIGKILL).then_some(SIGKILL);
    }
    body.signals.deliverable()
}
