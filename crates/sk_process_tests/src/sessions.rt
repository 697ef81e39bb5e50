//! Groups and sessions over a store that keeps processes: each function once. What else setpgid(2), setsid(2) and ends come to,
//! the runs of `sk_laws` compute.
ghost use Rattle.sk_world.specs.Rules.{IsWorld};

use crate::world::{after_forks, assert_alive, fork_of, pending, stop};
use sk_machine::{getpgid, getsid, group_of, orphaned, session_of};
use sk_table::{INIT, ListStore, ProcStore};
use sk_world::signals::{SIGHUP, SIGTSTP};
use sk_world::{Errno, SigSet};
use std::process::Abort;
use std::test::Fail;

// setpgid of a process that is there.
fn setpgid(rt: &impl Abort, store: &mut ListStore, caller: u32, pid: i32) -> Result<u32, Errno>
    requires { IsWorld store.old }
    ensures { IsWorld store.new }
{
    assert!(rt; store.get(caller).is_some());
    sk_machine::setpgid(store, caller, pid, 0)
}

// setsid of a process that is there.
fn setsid(rt: &impl Abort, store: &mut ListStore, caller: u32) -> Result<u32, Errno>
    requires { IsWorld store.old }
    ensures { IsWorld store.new }
{
    assert!(rt; store.get(caller).is_some());
    sk_machine::setsid(store, caller)
}

// The group and the session that getpgid and getsid of a process that is there tell.
fn group_and_session(
    rt: &impl Abort,
    store: &ListStore,
    caller: u32,
    pid: i32,
) -> (Result<u32, Errno>, Result<u32, Errno>)
    requires { IsWorld store.now }
{
    assert!(rt; store.get(caller).is_some());
    (getpgid(store, caller, pid), getsid(store, caller, pid))
}

// The end of a process that lives, and what it sends to the groups that it leaves orphaned.
fn end(rt: &impl Abort, store: &mut ListStore, pid: u32, status: u32)
    requires { IsWorld store.old }
    ensures { IsWorld store.new }
{
    assert_alive(rt, store, pid);
    sk_machine::end(store, pid, status);
}

// A shell, 2, leads a session and group 2, and has a job: 3 in group 3, which is stopped. SIGCONT has gone on to be a note.
#[test]
fn stopped_job_of_a_shell_that_ends_is_hung_up(rt: HostRuntime) -> Result<(), Fail> {
    let mut store: ListStore = after_forks(&rt, &[INIT])?;
    assert_eq!(rt; setsid(&rt, &mut store, 2), Ok(2));
    fork_of(&rt, &mut store, 2)?;
    assert_eq!(rt; setpgid(&rt, &mut store, 2, 3), Ok(0));
    assert_eq!(rt; group_and_session(&rt, &store, INIT, 3), (Ok(3), Ok(2)));
    assert_eq!(rt; (group_of(&store, 3), session_of(&store, 3)), (3, 2));
    stop(&mut store, 3, SIGTSTP);
    let before = orphaned(&store, 3);
    end(&rt, &mut store, 2, 0x100);
    assert_eq!(rt; (before, orphaned(&store, 3)), (false, true));
    assert_eq!(rt; pending(&store, 3), Some(SigSet::empty().with(SIGHUP)));
    Ok(())
}
