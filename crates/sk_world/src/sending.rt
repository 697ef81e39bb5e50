//! How a signal is sent: it is generated at its process, which SIGCONT continues.
ghost use Rattle.std.specs.Prelude.{◌≡◌};
ghost use Rattle.sk_world.specs.SignalSet.{IsSignal};
ghost use Rattle.sk_world.specs.Rules.{IsWorld};
ghost use Rattle.sk_world.specs.Sending.{signalled, generated_at, sent};

use crate::asking::{is_stopped, parent_of};
use crate::process::{Body, INIT, Life, Note};
use crate::signals::{SIGCHLD, SIGCONT};
use crate::store::ProcStore;

/// Sends a signal to a process, as kill(2) does. Nothing comes of it where the process is not there or is a zombie. A
/// stopped process continues by SIGCONT, which is announced to its parent.
pub fn send<S: ProcStore>(store: &mut S, pid: u32, signal: u8)
    requires signal { IsSignal signal }
    ensures world { S.contents store.new ≡ sent (S.contents store.old) pid signal }
    ensures rules { IsWorld (S.contents store.old) → IsWorld (S.contents store.new) }
{
    if signal == SIGCONT && is_stopped(store, pid) {
        let parent = parent_of(store, pid);
        generate_at(store, pid, signal);
        generate_at(store, parent, SIGCHLD);
    } else {
        generate_at(store, pid, signal);
    }
}

fn generate_at<S: ProcStore>(store: &mut S, pid: u32, signal: u8)
    requires { IsSignal signal }
    ensures { S.contents store.new ≡ generated_at (S.contents store.old) pid signal }
{
    if let Some(body) = store.body_mut(pid) {
        generate(body, signal, pid == INIT);
    }
}

fn generate(body: &mut Body, signal: u8, init: bool)
    requires { IsSignal signal }
    ensures { body.new ≡ signalled signal init body.old }
{
    if matches!(body.life, Life::Zombie(_)) {
        return;
    }
    body.signals.generate(signal, init);
    if signal == SIGCONT && matches!(body.life, Life::Stopped) {
        body.life = Life::Running;
        body.note = Note::Continued;
    }
}
