//! Whose turn is next, over each store: who waits is passed over, and hears what ends its call.
ghost use Rattle.std.specs.Prelude.{◌≡◌};
ghost use Rattle.sk_world.specs.Rules.{IsWorld};

use crate::world::after_forks;
use sk_kernel::Candidates;
use sk_table::{Body, INIT, ListStore, ProcStore, SlotStore, Waiting, send};
use sk_world::signals::SIGUSR1;
use std::process::Abort;
use std::test::Fail;

#[test]
fn who_waits_is_passed_over(rt: HostRuntime) -> Result<(), Fail> {
    turns_go_round::<ListStore, HostRuntime>(&rt)?;
    turns_go_round::<SlotStore, HostRuntime>(&rt)
}

// Two children pause, and the turn comes to one of them that has a signal due.
fn turns_go_round<S: ProcStore, R: Abort + AllocGlobal>(rt: &R) -> Result<(), Fail> {
    let mut store: Candidates<S> = after_forks(rt, &[INIT, INIT])?;
    turns(rt, &store, &[(0, Some(1)), (1, Some(2)), (3, Some(1))]);
    waits(&mut store, 2, Waiting::Pause);
    waits(&mut store, 3, Waiting::Pause);
    turns(rt, &store, &[(0, Some(1)), (1, Some(1))]);
    send(&mut store, 2, SIGUSR1);
    waits(&mut store, 3, Waiting::Nothing);
    turns(rt, &store, &[(1, Some(2)), (2, Some(3)), (3, Some(1))]);
    Ok(())
}

// Each is who comes next after a pid.
fn turns<S: ProcStore>(rt: &impl Abort, store: &Candidates<S>, rows: &[(u32, Option<u32>)])
    requires { IsWorld store.now }
{
    for (after, next) in rows {
        let runner = store.next_runner(*after);
        assert_eq!(rt; runner.map(|runner| runner.pid), *next, "after {after}");
    }
}

// Makes a process wait for this.
fn waits<S: ProcStore>(store: &mut Candidates<S>, pid: u32, waiting: Waiting)
    requires { IsWorld store.old }
    ensures { IsWorld store.new }
{
    if let Some(body) = store.body_mut(pid) {
        wait_for(body, waiting);
    }
}

fn wait_for(body: &mut Body, waiting: Waiting)
    ensures { body.new.life ≡ body.old.life }
{
    body.waiting = waiting;
}
