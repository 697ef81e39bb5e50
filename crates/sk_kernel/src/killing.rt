//! kill(2): whom the caller may signal, and which error it gets where that is nobody.
ghost use Rattle.std.specs.Prelude.{◌≡◌, ◌||◌, ◌&&◌, ◌==◌, ◌≤◌, not, length, IsTrue};
ghost use Rattle.std.specs.Option.{is_some};
ghost use Rattle.std.specs.Result.{result_unwrap_or};
ghost use Rattle.sk_world.specs.Creds.{may_signal};
ghost use Rattle.sk_world.specs.declared.signals.TheConstants.{SIGCONT};
ghost use Rattle.sk_world.specs.World.{at, IsNext};
ghost use Rattle.sk_world.specs.Rules.{IsWorld};
ghost use Rattle.sk_machine.specs.Sessions.{session_of, answered};
ghost use Rattle.sk_machine.specs.Killing.{may_kill, killed, after_kill};
ghost use Rattle.sk_kernel.specs.Targets.{meant, reached, is_reached, after_kill_of, after_kill_of_one};

use crate::targets::{next_target, who_meant};
use sk_machine::{group_of, session_of};
use sk_world::signals::SIGCONT;
use sk_world::{Creds, Errno, Proc, ProcStore, Who, send};

/// Sends a signal to the processes that the target means, as far as the caller, which has these ids, may: kill(2).
pub fn kill<S: ProcStore>(
    store: &mut S,
    caller: u32,
    creds: Creds,
    target: i32,
    signal: u32,
) -> Result<u32, Errno>
    requires rules { IsWorld (S.contents store.old) }
    ensures answer { result ≡ answered 0 (after_kill (S.contents store.old) caller creds target signal) }
    ensures world { S.contents store.new ≡ result_unwrap_or (after_kill (S.contents store.old) caller creds target signal) (S.contents store.old) }
    ensures rules { IsWorld (S.contents store.new) }
{
    if signal > 31 {
        return Err(Errno::Einval);
    }
    let signal = signal as u8;
    let who = who_meant(group_of(store, caller), target);
    if let Who::Child(pid) = who {
        return kill_one(store, caller, creds, pid, signal);
    }
    kill_each(store, caller, creds, who, signal)
}

// The same where this one process is meant.
fn kill_one<S: ProcStore>(
    store: &mut S,
    caller: u32,
    creds: Creds,
    pid: u32,
    signal: u8,
) -> Result<u32, Errno>
    requires rules { IsWorld (S.contents store.old) }
    requires signal { signal ≤ 31 }
    ensures answer { result ≡ answered 0 (after_kill_of_one (S.contents store.old) caller creds pid signal) }
    ensures world { S.contents store.new ≡ result_unwrap_or (after_kill_of_one (S.contents store.old) caller creds pid signal) (S.contents store.old) }
    ensures rules { IsWorld (S.contents store.new) }
{
    let Some(process) = store.get(pid) else {
        return Err(Errno::Esrch);
    };
    if !may_signal(store, caller, creds, signal, process) {
        return Err(Errno::Eperm);
    }
    if signal != 0 {
        send(store, pid, signal);
    }
    Ok(0)
}

// The same where these are meant.
fn kill_each<S: ProcStore>(
    store: &mut S,
    caller: u32,
    creds: Creds,
    who: Who,
    signal: u8,
) -> Result<u32, Errno>
    requires rules { IsWorld (S.contents store.old) }
    requires signal { signal ≤ 31 }
    ensures answer { result ≡ answered 0 (after_kill_of (S.contents store.old) caller creds who signal) }
    ensures world { S.contents store.new ≡ result_unwrap_or (after_kill_of (S.contents store.old) caller creds who signal) (S.contents store.old) }
    ensures rules { IsWorld (S.contents store.new) }
{
    if !is_any_meant(store, caller, who) {
        return Err(Errno::Esrch);
    }
    if !is_any_permitted(store, caller, creds, who, signal) {
        return Err(Errno::Eperm);
    }
    send_to_permitted(store, caller, creds, who, signal);
    Ok(0)
}

fn is_any_meant<S: ProcStore>(store: &S, caller: u32, who: Who) -> bool
    requires rules { IsWorld (S.contents store.now) }
    ensures { result ≡ not (length (meant (S.contents store.now) caller who) == 0) }
{
    next_target(store, caller, who, 0).is_some()
}

// Whether there is a process that is meant and that the caller may send the signal to.
fn is_any_permitted<S: ProcStore>(
    store: &S,
    caller: u32,
    creds: Creds,
    who: Who,
    signal: u8,
) -> bool
    requires rules { IsWorld (S.contents store.now) }
    ensures { result ≡ not (length (reached (S.contents store.now) caller creds who signal) == 0) }
{
    next_permitted(store, caller, creds, who, signal, 0).is_some()
}

// Sends the signal to each process that is meant and that the caller may send it to, in rising order, but signal 0 to
// none. A signal changes neither whom a later one is meant for nor whom it may be sent to.
fn send_to_permitted<S: ProcStore>(store: &mut S, caller: u32, creds: Creds, who: Who, signal: u8)
    requires rules { IsWorld (S.contents store.old) }
    requires signal { signal ≤ 31 }
    ensures world { S.contents store.new ≡ killed (S.contents store.old) (reached (S.contents store.old) caller creds who signal) signal }
    ensures rules { IsWorld (S.contents store.new) }
{
    if signal == 0 {
        return;
    }
    let mut after = 0;
    while let Some(next) = next_permitted(store, caller, creds, who, signal, after) {
        send(store, next, signal);
        after = next;
    }
}

// The least pid above `after` of a process that is meant and that the caller may send the signal to.
fn next_permitted<S: ProcStore>(
    store: &S,
    caller: u32,
    creds: Creds,
    who: Who,
    signal: u8,
    after: u32,
) -> Option<u32>
    requires rules { IsWorld (S.contents store.now) }
    ensures next { IsNext (is_reached (S.contents store.now) caller creds who signal) after result }
{
    let mut from = after;
    while let Some(pid) = next_target(store, caller, who, from) {
        if may_kill(store, caller, creds, signal, pid) {
            return Some(pid);
        }
        from = pid;
    }
    None
}

// Whether the caller, which has these ids, may send the signal to the process of this pid, which is there.
fn may_kill<S: ProcStore>(store: &S, caller: u32, creds: Creds, signal: u8, pid: u32) -> bool
    requires { IsTrue (is_some (at (S.contents store.now) pid)) }
    ensures { result ≡ may_kill (S.contents store.now) caller creds signal pid }
{
    match store.get(pid) {
        Some(process) => may_signal(store, caller, creds, signal, process),
        None => unreachable!(),
    }
}

// The same of this process.
fn may_signal<S: ProcStore>(
    store: &S,
    caller: u32,
    creds: Creds,
    signal: u8,
    process: &Proc,
) -> bool
    ensures { result ≡ (may_signal creds process.now.body.creds || ((signal == SIGCONT) && (process.now.links.session == session_of (at (S.contents store.now) caller)))) }
{
    creds.may_signal(&process.body.creds)
        || (signal == SIGCONT && process.links.session == session_of(store, caller))
}
