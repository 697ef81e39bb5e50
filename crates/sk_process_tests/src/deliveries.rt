//! kill(2), wait4(2) and the delivery of signals over a store that keeps processes: each function once. What else they come to,
//! the runs of `sk_laws` compute.
ghost use Rattle.sk_world.specs.SignalSet.{IsSignal};
ghost use Rattle.sk_world.specs.Rules.{IsWorld};

use crate::world::{after_forks, assert_alive, life, pending, waiting};
use sk_insn::Record;
use sk_kernel::kill;
use sk_machine::{Effect, Outcome};
use sk_table::{INIT, Life, ListStore, ProcStore, Waiting};
use sk_world::signals::SIGTERM;
use sk_world::{Creds, SigSet};
use std::process::Abort;
use std::test::Fail;

/// The ids of the superuser.
pub(crate) const ROOT: Creds = Creds {
    real: 0,
    effective: 0,
    saved: 0,
    no_new_privs: false,
};

// A wait4 for any child of a process that is there.
fn wait4(rt: &impl Abort, store: &mut ListStore, caller: u32) -> Outcome
    requires { IsWorld store.old }
    ensures { IsWorld store.new }
{
    assert!(rt; store.get(caller).is_some());
    let call = Record::native(61, 0, [0xffff_ffff, 0, 0, 0, 0, 0]);
    sk_kernel::wait4(store, caller, &call)
}

// A process that waits asks again.
fn resume(rt: &impl Abort, store: &mut ListStore, pid: u32) -> Outcome
    requires { IsWorld store.old }
    ensures { IsWorld store.new }
{
    match waiting(store, pid) {
        Some(waiting) => {
            assert!(rt; store.get(pid).is_some());
            sk_kernel::resume(store, pid, waiting)
        }
        None => {
            assert!(rt; false);
            Outcome::Waits
        }
    }
}

// The delivery of a signal to a process that lives.
fn deliver(rt: &impl Abort, store: &mut ListStore, pid: u32, signal: u8) -> Effect
    requires world { IsWorld store.old }
    requires signal { IsSignal signal }
    ensures { IsWorld store.new }
{
    assert_alive(rt, store, pid);
    sk_kernel::deliver(store, pid, signal)
}

#[test]
fn a_child_is_killed_while_its_parent_waits(rt: HostRuntime) -> Result<(), Fail> {
    let mut store: ListStore = after_forks(&rt, &[INIT])?;
    let waits = (wait4(&rt, &mut store, INIT), resume(&rt, &mut store, INIT));
    assert_eq!(rt; waits, (Outcome::Waits, Outcome::Waits));
    assert_eq!(rt; kill(&mut store, INIT, ROOT, 2, 15), Ok(0));
    assert_eq!(rt; pending(&store, 2), Some(SigSet::empty().with(SIGTERM)));
    assert_eq!(rt; deliver(&rt, &mut store, 2, SIGTERM), Effect::Ended(15));
    assert_eq!(rt; life(&store, 2), Some(Life::Zombie(15)));
    let told = (resume(&rt, &mut store, INIT), waiting(&store, INIT));
    let expected = Outcome::Told { pid: 2, status: 15 };
    assert_eq!(rt; told, (expected, Some(Waiting::Nothing)));
    Ok(())
}
