//! What only the tests of stores do with them.

ghost use Rattle.std.specs.Prelude.{◌≡◌};
ghost use Rattle.sk_world.specs.Rules.{IsWorld};

use crate::world::assert_alive;
use sk_table::{
    Body, INIT, LAST_PID, Life, Links, PROCESSES, Poll, ProcStore, Request, WaitOptions, Who,
    first_process, reap, reparent, wait_poll,
};
use std::alloc::Global;
use std::process::Abort;

pub(crate) fn links(parent: u32, group: u32, session: u32) -> Links
    ensures { result ≡ record { parent = parent; group = group; session = session } }
{
    Links {
        parent,
        group,
        session,
    }
}

/// Puts a process in that does nothing.
pub(crate) fn insert<S: ProcStore>(
    rt: &impl Abort,
    alloc: Global,
    store: &mut S,
    pid: u32,
    links: Links,
) {
    assert!(rt; pid >= 2 && pid <= LAST_PID && store.count() < PROCESSES);
    assert!(rt; links.parent <= LAST_PID && links.group <= LAST_PID && links.session <= LAST_PID);
    let mut proc = first_process(alloc);
    proc.links = links;
    match store.get(pid) {
        Some(_) => assert!(rt; false),
        None => store.insert(pid, proc),
    }
}

/// Takes a zombie out, and answers its status.
pub(crate) fn reap_of<S: ProcStore>(rt: &impl Abort, store: &mut S, pid: u32) -> u32
    requires { IsWorld (S.contents store.old) }
    ensures { IsWorld (S.contents store.new) }
{
    assert!(rt; pid != INIT);
    match store.get(pid) {
        Some(process) => assert!(rt; matches!(process.body.life, Life::Zombie(_))),
        None => assert!(rt; false),
    }
    reap(store, pid)
}

/// What a wait4 of a process finds.
pub(crate) fn wait_of<S: ProcStore>(
    rt: &impl Abort,
    store: &mut S,
    caller: u32,
    who: Who,
    options: WaitOptions,
) -> Poll
    requires { IsWorld (S.contents store.old) }
    ensures { IsWorld (S.contents store.new) }
{
    if store.get(caller).is_none() {
        assert!(rt; false);
    }
    wait_poll(store, caller, &Request { who, options })
}

/// Hands the children of a process that is there on.
pub(crate) fn reparent_of<S: ProcStore>(rt: &impl Abort, store: &mut S, pid: u32)
    requires { IsWorld (S.contents store.old) }
    ensures { IsWorld (S.contents store.new) }
{
    assert!(rt; store.get(pid).is_some());
    reparent(store, pid);
}

/// Lets a process count as one that has executed a program, if it is there.
pub(crate) fn set_executed<S: ProcStore>(store: &mut S, pid: u32) {
    if let Some(body) = store.body_mut(pid) {
        body.executed = true;
    }
}

/// Makes a process a subreaper, or no longer one.
pub(crate) fn mark<S: ProcStore>(store: &mut S, pid: u32, subreaper: bool)
    requires { IsWorld (S.contents store.old) }
    ensures { IsWorld (S.contents store.new) }
{
    if let Some(body) = store.body_mut(pid) {
        mark_body(body, subreaper);
    }
}

fn mark_body(body: &mut Body, subreaper: bool)
    ensures { body.new.life ≡ body.old.life }
{
    body.subreaper = subreaper;
}

pub(crate) fn is_executed<S: ProcStore>(store: &S, pid: u32) -> Option<bool> {
    store.get(pid).map(|process| process.body.executed)
}
