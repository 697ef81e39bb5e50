//! The delivery of a signal: what it does to the body of its process, and then in the world.
ghost use Rattle.std.specs.Prelude.{◌≡◌, ◌≢◌, IsTrue, IfSome};
ghost use Rattle.sk_world.specs.SignalSet.{IsSignal};
ghost use Rattle.sk_world.specs.declared.disposition.DefaultAction.TheVariants as action;
ghost use Rattle.sk_world.specs.declared.process.TheConstants.{INIT};
ghost use Rattle.sk_world.specs.World.{at, is_alive, changed};
ghost use Rattle.sk_world.specs.Rules.{IsWorld};
ghost use Rattle.sk_machine.specs.Orphans.{ended_and_hung_up};
ghost use Rattle.sk_machine.specs.declared.answer.Effect.TheVariants.{Ended};
ghost use Rattle.sk_machine.specs.Delivering.{stopping, acts_by_default, delivered};
ghost use Rattle.sk_kernel.specs.Deeds.{entered, default_deed, acted, left};
ghost use Rattle.sk_kernel.specs.declared.delivering.Deed.TheVariants.{Stop};

use sk_machine::{Effect, end, group_of, is_waiting, orphaned};
use sk_world::signals::{SIGCHLD, SIGKILL, SIGSEGV, SIGSYS};
use sk_world::{
    Body, DefaultAction, Disposition, INIT, Life, Note, ProcStore, SigSet, Waiting, default_action,
    parent_of, send, tty_stop,
};

/// What is left to be done in the world, once a signal has acted on the body of its process.
enum Deed {
    /// Nothing more. The signal had this effect.
    Nothing(Effect),
    /// The process ends by this signal.
    End(u8),
    /// The process stops.
    Stop,
}

/// Delivers a signal to a process, whether or not it was pending: signal(7).
pub fn deliver<S: ProcStore>(store: &mut S, pid: u32, signal: u8) -> Effect
    requires rules { IsWorld (S.contents store.old) }
    requires alive { IsTrue (is_alive (at (S.contents store.old) pid)) }
    requires signal { IsSignal signal }
    ensures answer { IfSome (at (S.contents store.old) pid) (λ p. result ≡ (delivered (S.contents store.old) pid p.body signal).effect) }
    ensures world { IfSome (at (S.contents store.old) pid) (λ p. S.contents store.new ≡ (delivered (S.contents store.old) pid p.body signal).world) }
    ensures rules { IsWorld (S.contents store.new) }
{
    match act_at(store, pid, signal) {
        Deed::Nothing(effect) => effect,
        Deed::End(signal) => terminate(store, pid, signal),
        Deed::Stop => stop(store, pid, signal),
    }
}

fn act_at<S: ProcStore>(store: &mut S, pid: u32, signal: u8) -> Deed
    requires rules { IsWorld (S.contents store.old) }
    requires alive { IsTrue (is_alive (at (S.contents store.old) pid)) }
    requires signal { IsSignal signal }
    ensures left { IfSome (at (S.contents store.old) pid) (λ p. left (S.contents store.new) pid signal result ≡ delivered (S.contents store.old) pid p.body signal) }
    ensures other { result ≡ Stop → pid ≢ INIT }
    ensures alive { IsTrue (is_alive (at (S.contents store.new) pid)) }
    ensures rules { IsWorld (S.contents store.new) }
{
    match store.body_mut(pid) {
        Some(body) => act(body, pid, signal),
        None => unreachable!(),
    }
}

// Takes the signal from those that are pending, and does what it does to the body of the process of this pid.
fn act(body: &mut Body, pid: u32, signal: u8) -> Deed
    requires { IsSignal signal }
    ensures deed { result ≡ (acted pid body.old signal).deed }
    ensures body { body.new ≡ (acted pid body.old signal).body }
    ensures life { body.new.life ≡ body.old.life }
    ensures other { result ≡ Stop → pid ≢ INIT }
{
    body.signals.take(signal);
    if signal == SIGKILL {
        return Deed::End(SIGKILL);
    }
    match body.signals.action(signal) {
        Disposition::Default => default_deed(pid, signal),
        Disposition::Ignore => Deed::Nothing(Effect::Ignored),
        Disposition::Handler { program, mask } => enter_handler(body, signal, program, mask),
    }
}

// The default action of the signal. By default process 1 minds only a SIGSYS.
fn default_deed(pid: u32, signal: u8) -> Deed
    requires { IsSignal signal }
    ensures deed { result ≡ default_deed pid signal }
    ensures other { result ≡ Stop → pid ≢ INIT }
{
    if pid == INIT && signal != SIGSYS {
        return Deed::Nothing(Effect::Ignored);
    }
    match default_action(signal) {
        DefaultAction::Terminate => Deed::End(signal),
        DefaultAction::Stop => Deed::Stop,
        DefaultAction::Ignore => Deed::Nothing(Effect::Ignored),
        DefaultAction::Continue => Deed::Nothing(Effect::Ignored),
    }
}

// Begins a handler of the signal. SIGSEGV ends a process that has no room for one more frame.
fn enter_handler(body: &mut Body, signal: u8, program: u64, mask: SigSet) -> Deed
    requires { IsSignal signal }
    ensures deed { result ≡ (entered body.old signal program mask).deed }
    ensures body { body.new ≡ (entered body.old signal program mask).body }
    ensures life { body.new.life ≡ body.old.life }
    ensures other { result ≢ Stop }
{
    let interrupted = is_waiting(body.waiting);
    if !body.signals.push_frame(signal, mask) {
        return Deed::End(SIGSEGV);
    }
    body.waiting = Waiting::Nothing;
    Deed::Nothing(Effect::Handler {
        program,
        interrupted,
    })
}

fn terminate<S: ProcStore>(store: &mut S, pid: u32, signal: u8) -> Effect
    requires rules { IsWorld (S.contents store.old) }
    requires alive { IsTrue (is_alive (at (S.contents store.old) pid)) }
    ensures answer { result ≡ Ended signal }
    ensures world { S.contents store.new ≡ ended_and_hung_up (S.contents store.old) pid signal }
    ensures rules { IsWorld (S.contents store.new) }
{
    let status = u32::from(signal);
    end(store, pid, status);
    Effect::Ended(status)
}

// Stops the process, which is announced to its parent; but a stop signal of a terminal stops nobody in an orphaned
// group.
fn stop<S: ProcStore>(store: &mut S, pid: u32, signal: u8) -> Effect
    requires rules { IsWorld (S.contents store.old) }
    requires alive { IsTrue (is_alive (at (S.contents store.old) pid)) }
    requires other { pid ≢ INIT }
    ensures answer { result ≡ (acts_by_default (S.contents store.old) pid signal action.Stop).effect }
    ensures world { S.contents store.new ≡ (acts_by_default (S.contents store.old) pid signal action.Stop).world }
    ensures rules { IsWorld (S.contents store.new) }
{
    if tty_stop(signal) && orphaned(store, group_of(store, pid)) {
        return Effect::Ignored;
    }
    let parent = parent_of(store, pid);
    set_stopped(store, pid, signal);
    send(store, parent, SIGCHLD);
    Effect::Stopped
}

fn set_stopped<S: ProcStore>(store: &mut S, pid: u32, signal: u8)
    requires rules { IsWorld (S.contents store.old) }
    requires alive { IsTrue (is_alive (at (S.contents store.old) pid)) }
    requires other { pid ≢ INIT }
    ensures world { S.contents store.new ≡ changed (S.contents store.old) pid (stopping signal) }
    ensures rules { IsWorld (S.contents store.new) }
{
    if let Some(body) = store.body_mut(pid) {
        body.life = Life::Stopped;
        body.note = Note::Stopped(signal);
    }
}
