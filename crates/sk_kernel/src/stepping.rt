//! What an event does: whether it is possible, and then each kind of event by its own function.
ghost use Rattle.std.specs.Prelude.{◌≡◌, IsTrue, None, IfSome, IfOk, OnOk, OnErr};
ghost use Rattle.std.specs.Option.{is_some};
ghost use Rattle.sk_world.specs.World.{at, is_alive};
ghost use Rattle.sk_world.specs.Rules.{IsWorld};
ghost use Rattle.sk_machine.specs.Events.{pid_of, recorded};
ghost use Rattle.sk_machine.specs.Delivering.{signal_for, signal_due};
ghost use Rattle.sk_machine.specs.WaitCalls.{resumed};
ghost use Rattle.sk_machine.specs.Machine.{reason_of, delivery, happened_to, step_of};
ghost use Rattle.sk_machine.specs.Memory.{takes_memory};

use crate::calls::call;
use crate::{deliver, reason, resume, signal_due};
use sk_insn::Record;
use sk_machine::{Answer, Event, Images, Outcome, end};
use sk_names::Call;
use sk_world::ProcStore;
use sk_world::signals::SIGSEGV;
use std::alloc::{AllocError, Global};

/// One event.
pub(crate) fn step<S: ProcStore>(
    store: &mut S,
    declared: &Images,
    alloc: Global,
    event: &Event,
) -> Result<Answer, AllocError>
    requires rules { IsWorld (S.contents store.old) }
    ensures answer { IfOk result (λ answer. answer ≡ (step_of declared.now (S.contents store.old) event.now).answer) }
    ensures world { OnOk result (S.contents store.new ≡ (step_of declared.now (S.contents store.old) event.now).world) }
    ensures memory { OnErr result (IsTrue (takes_memory declared.now (S.contents store.old) event.now)) }
    ensures kept { OnErr result (S.contents store.new ≡ S.contents store.old) }
{
    match reason(store, event) {
        Some(reason) => Ok(Answer::NotNow(reason)),
        None => step_possible(store, declared, alloc, event),
    }
}

/// The same of an event that is possible.
pub(crate) fn step_possible<S: ProcStore>(
    store: &mut S,
    declared: &Images,
    alloc: Global,
    event: &Event,
) -> Result<Answer, AllocError>
    requires rules { IsWorld (S.contents store.old) }
    requires possible { reason_of (S.contents store.old) event.now ≡ None }
    ensures answer { IfOk result (λ answer. answer ≡ (step_of declared.now (S.contents store.old) event.now).answer) }
    ensures world { OnOk result (S.contents store.new ≡ (step_of declared.now (S.contents store.old) event.now).world) }
    ensures memory { OnErr result (IsTrue (takes_memory declared.now (S.contents store.old) event.now)) }
    ensures kept { OnErr result (S.contents store.new ≡ S.contents store.old) }
{
    happen(store, declared, alloc, event)
}

// An event that is possible, by what it is.
fn happen<S: ProcStore>(
    store: &mut S,
    declared: &Images,
    alloc: Global,
    event: &Event,
) -> Result<Answer, AllocError>
    requires rules { IsWorld (S.contents store.old) }
    requires possible { reason_of (S.contents store.old) event.now ≡ None }
    ensures answer { IfOk result (λ answer. answer ≡ (happened_to declared.now (S.contents store.old) event.now (at (S.contents store.old) (pid_of event.now))).answer) }
    ensures world { OnOk result (S.contents store.new ≡ (happened_to declared.now (S.contents store.old) event.now (at (S.contents store.old) (pid_of event.now))).world) }
    ensures memory { OnErr result (IsTrue (takes_memory declared.now (S.contents store.old) event.now)) }
    ensures kept { OnErr result (S.contents store.new ≡ S.contents store.old) }
{
    match *event {
        Event::Call {
            pid,
            ip,
            call: asked,
        } => call(store, declared, alloc, pid, &recorded(ip, &asked)),
        Event::Deliver { pid } => Ok(deliver_due(store, pid)),
        Event::Resume { pid } => Ok(Answer::Resumed(resume_call(store, pid))),
        Event::Fault { pid } => {
            end(store, pid, u32::from(SIGSEGV));
            Ok(Answer::Crashed)
        }
    }
}

/// What filters see of a call that stands at this address.
#[inline(always)]
pub(crate) fn recorded(ip: u64, call: &Call) -> Record
    ensures { result ≡ recorded ip call.now }
{
    Record::native(call.nr, ip, call.args)
}

fn deliver_due<S: ProcStore>(store: &mut S, pid: u32) -> Answer
    requires rules { IsWorld (S.contents store.old) }
    requires alive { IsTrue (is_alive (at (S.contents store.old) pid)) }
    requires due { IsTrue (is_some (signal_due (at (S.contents store.old) pid))) }
    ensures answer { IfSome (at (S.contents store.old) pid) (λ p. result ≡ (delivery (S.contents store.old) pid p.body (signal_for p.body)).answer) }
    ensures world { IfSome (at (S.contents store.old) pid) (λ p. S.contents store.new ≡ (delivery (S.contents store.old) pid p.body (signal_for p.body)).world) }
{
    match signal_due(store, pid) {
        Some(signal) => Answer::Signal {
            signal,
            effect: deliver(store, pid, signal),
        },
        None => unreachable!(),
    }
}

// A process that waits asks again.
fn resume_call<S: ProcStore>(store: &mut S, pid: u32) -> Outcome
    requires rules { IsWorld (S.contents store.old) }
    requires there { IsTrue (is_some (at (S.contents store.old) pid)) }
    ensures answer { IfSome (at (S.contents store.old) pid) (λ p. result ≡ (resumed (S.contents store.old) pid p.body.waiting).outcome) }
    ensures world { IfSome (at (S.contents store.old) pid) (λ p. S.contents store.new ≡ (resumed (S.contents store.old) pid p.body.waiting).world) }
{
    let waiting = match store.get(pid) {
        Some(process) => process.body.waiting,
        None => unreachable!(),
    };
    resume(store, pid, waiting)
}
