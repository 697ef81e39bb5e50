//! What tests do with a store and look up in it, whatever it is.

ghost use Rattle.std.specs.Prelude.{◌≡◌, ◌≢◌, IfOk, IsTrue};
ghost use Rattle.sk_world.specs.declared.process.TheConstants.{INIT};
ghost use Rattle.sk_world.specs.World.{at, has_ended, is_alive};
ghost use Rattle.sk_world.specs.Rules.{IsWorld};

use sk_table::{Body, Life, Note, ProcStore, Waiting, end, fork, laws};
use sk_world::SigSet;
use std::alloc::{AllocError, Global};
use std::process::Abort;

/// The world as the system starts.
pub(crate) fn opening<S: ProcStore>(alloc: Global) -> Result<S, AllocError>
    ensures { IfOk result (λ store. IsWorld (S.contents store)) }
{
    laws::rules_are_kept();
    S::new(alloc)
}

/// The world after these processes have forked, one after the other, since the system started.
pub(crate) fn after_forks<S: ProcStore, R: Abort + AllocGlobal>(
    rt: &R,
    parents: &[u32],
) -> Result<S, AllocError>
    ensures { IfOk result (λ store. IsWorld (S.contents store)) }
{
    let mut store = opening::<S>(rt.alloc())?;
    forks_of(rt, &mut store, parents)?;
    Ok(store)
}

/// The test fails where the process does not live.
pub(crate) fn assert_alive<S: ProcStore>(rt: &impl Abort, store: &S, pid: u32)
    ensures { IsTrue (is_alive (at (S.contents store.now) pid)) }
{
    match store.get(pid) {
        Some(process) => assert!(rt; !matches!(process.body.life, Life::Zombie(_))),
        None => assert!(rt; false),
    }
}

/// Forks a process that lives, where there is room.
pub(crate) fn fork_of<S: ProcStore>(
    rt: &impl Abort,
    store: &mut S,
    pid: u32,
) -> Result<u32, AllocError>
    requires { IsWorld (S.contents store.old) }
    ensures { IsWorld (S.contents store.new) }
{
    assert_alive(rt, store, pid);
    match fork(store, pid)? {
        Ok(child) => Ok(child),
        Err(_) => panic!(rt; "no room"),
    }
}

/// So do these processes, one after the other.
pub(crate) fn forks_of<S: ProcStore>(
    rt: &impl Abort,
    store: &mut S,
    parents: &[u32],
) -> Result<(), AllocError>
    requires { IsWorld (S.contents store.old) }
    ensures { IsWorld (S.contents store.new) }
{
    for parent in parents {
        fork_of(rt, store, *parent)?;
    }
    Ok(())
}

/// Ends a process that lives, and sends nothing to the groups that are orphaned by it.
pub(crate) fn end_of<S: ProcStore>(rt: &impl Abort, store: &mut S, pid: u32, status: u32)
    requires { IsWorld (S.contents store.old) }
    ensures { IsWorld (S.contents store.new) }
{
    assert_alive(rt, store, pid);
    end(store, pid, status);
}

/// Stops a process other than process 1 by this signal, if it runs.
pub(crate) fn stop<S: ProcStore>(store: &mut S, pid: u32, signal: u8)
    requires world { IsWorld (S.contents store.old) }
    requires other { pid ≢ INIT }
    ensures { IsWorld (S.contents store.new) }
{
    if let Some(body) = store.body_mut(pid) {
        stop_body(body, signal);
    }
}

fn stop_body(body: &mut Body, signal: u8)
    ensures { has_ended body.new.life ≡ has_ended body.old.life }
{
    if matches!(body.life, Life::Running) {
        body.life = Life::Stopped;
        body.note = Note::Stopped(signal);
    }
}

pub(crate) fn parent<S: ProcStore>(store: &S, pid: u32) -> Option<u32> {
    store.get(pid).map(|process| process.links.parent)
}

pub(crate) fn life<S: ProcStore>(store: &S, pid: u32) -> Option<Life> {
    store.get(pid).map(|process| process.body.life)
}

pub(crate) fn waiting<S: ProcStore>(store: &S, pid: u32) -> Option<Waiting> {
    store.get(pid).map(|process| process.body.waiting)
}

/// The signals that wait to be delivered to a process.
pub(crate) fn pending<S: ProcStore>(store: &S, pid: u32) -> Option<SigSet> {
    store.get(pid).map(|process| process.body.signals.pending())
}
