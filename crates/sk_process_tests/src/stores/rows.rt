//! What stops, ends and waits do over each store: each function once. What else they come to is computed in `sk_laws`, of any
//! store.
use crate::stores::testing::{mark, reap_of, reparent_of, wait_of};
use crate::world::{after_forks, end_of, life, parent, stop};
use sk_table::{
    INIT, Life, ListStore, Poll, ProcStore, Request, SlotStore, WaitOptions, Who, ready, reaper,
    send,
};
use sk_world::signals::{SIGCONT, SIGTSTP};
use std::process::Abort;
use std::test::Fail;

#[test]
fn rows_hold_over_a_list(rt: HostRuntime) -> Result<(), Fail> {
    rows::<ListStore, HostRuntime>(&rt)
}

#[test]
fn rows_hold_over_slots(rt: HostRuntime) -> Result<(), Fail> {
    rows::<SlotStore, HostRuntime>(&rt)
}

fn rows<S: ProcStore, R: Abort + AllocGlobal>(rt: &R) -> Result<(), Fail> {
    sigcont_continues_and_is_told_once::<S, R>(rt)?;
    orphans_go_to_the_nearest_subreaper::<S, R>(rt)
}

fn sigcont_continues_and_is_told_once<S: ProcStore, R: Abort + AllocGlobal>(
    rt: &R,
) -> Result<(), Fail> {
    let mut store: S = after_forks(rt, &[INIT])?;
    stop(&mut store, 2, SIGTSTP);
    send(&mut store, 2, SIGCONT);
    assert_eq!(rt; life(&store, 2), Some(Life::Running));
    let options = WaitOptions::WNOHANG | WaitOptions::WCONTINUED;
    let continued = Poll::Told {
        pid: 2,
        status: 0xffff,
    };
    let polls = (
        wait_of(rt, &mut store, INIT, Who::Any, options),
        wait_of(rt, &mut store, INIT, Who::Any, options),
    );
    assert_eq!(rt; polls, (continued, Poll::NotReady));
    Ok(())
}

// The child of 3 goes to 2, and when that hands its children on to process 1.
fn orphans_go_to_the_nearest_subreaper<S: ProcStore, R: Abort + AllocGlobal>(
    rt: &R,
) -> Result<(), Fail> {
    let mut store: S = after_forks(rt, &[INIT, 2, 3])?;
    mark(&mut store, 2, true);
    assert_eq!(rt; (reaper(&store, 3), reaper(&store, 2)), (2, INIT));
    end_of(rt, &mut store, 3, 9);
    assert_eq!(rt; parent(&store, 4), Some(2));
    let asked = Request {
        who: Who::Any,
        options: WaitOptions::WNOHANG,
    };
    if store.get(2).is_some() {
        assert_eq!(rt; ready(&store, 2, &asked), Poll::Told { pid: 3, status: 9 });
    }
    assert_eq!(rt; reap_of(rt, &mut store, 3), 9);
    assert_eq!(rt; (life(&store, 3), store.count()), (None, 3));
    reparent_of(rt, &mut store, 2);
    assert_eq!(rt; parent(&store, 4), Some(INIT));
    Ok(())
}
