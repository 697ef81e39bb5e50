//! What each store keeps of the processes that are put in, moved and taken out, and which pids it gives.
use crate::stores::testing::{insert, is_executed, links, set_executed};
use sk_table::{INIT, LAST_PID, ListStore, ProcStore, SlotStore};
use std::process::Abort;
use std::test::Fail;

#[test]
fn list_keeps_processes(rt: HostRuntime) -> Result<(), Fail> {
    rows::<ListStore, HostRuntime>(&rt)
}

#[test]
fn slots_keep_processes(rt: HostRuntime) -> Result<(), Fail> {
    rows::<SlotStore, HostRuntime>(&rt)
}

fn rows<S: ProcStore, R: Abort + AllocGlobal>(rt: &R) -> Result<(), Fail> {
    fresh_passes_over_groups_and_goes_round::<S, R>(rt)?;
    store_keeps_three_processes::<S, R>(rt)?;
    Ok(())
}

fn fresh_passes_over_groups_and_goes_round<S: ProcStore, R: Abort + AllocGlobal>(
    rt: &R,
) -> Result<(), Fail> {
    let mut store = S::new(rt.alloc())?;
    insert(rt, rt.alloc(), &mut store, 5, links(INIT, 2, INIT));
    insert(
        rt,
        rt.alloc(),
        &mut store,
        LAST_PID,
        links(INIT, INIT, INIT),
    );
    assert!(rt; store.remove(LAST_PID));
    assert_eq!(rt; (store.last(), store.fresh()), (LAST_PID, 3));
    Ok(())
}

fn store_keeps_three_processes<S: ProcStore, R: Abort + AllocGlobal>(rt: &R) -> Result<(), Fail> {
    let mut store = S::new(rt.alloc())?;
    insert(rt, rt.alloc(), &mut store, 9, links(INIT, INIT, INIT));
    insert(rt, rt.alloc(), &mut store, 5, links(INIT, INIT, INIT));
    finds_three_processes(rt, &store);
    moves_one_of_them(rt, &mut store);
    lends_one_of_them(rt, &mut store);
    takes_one_of_them_out(rt, &mut store);
    Ok(())
}

fn finds_three_processes<S: ProcStore>(rt: &impl Abort, store: &S) {
    assert_eq!(rt; (store.count(), store.last()), (3, 5));
    for (after, next) in [(0, Some(1)), (1, Some(5)), (5, Some(9)), (9, None)] {
        let found = (store.next_pid(after), store.next_member(INIT, after));
        assert_eq!(rt; found, (next, next));
    }
    assert_eq!(rt;
        (store.next_child(INIT, 0), store.next_child(INIT, 5)),
        (Some(5), Some(9))
    );
}

fn moves_one_of_them<S: ProcStore>(rt: &impl Abort, store: &mut S) {
    assert!(rt; store.relink(9, links(5, 5, INIT)));
    assert!(rt; !store.relink(7, links(5, 5, INIT)));
    assert_eq!(rt;
        (store.next_child(INIT, 0), store.next_child(INIT, 5)),
        (Some(5), None)
    );
    assert_eq!(rt;
        (store.next_child(5, 0), store.next_member(5, 0)),
        (Some(9), Some(9))
    );
}

fn lends_one_of_them<S: ProcStore>(rt: &impl Abort, store: &mut S) {
    set_executed(store, 9);
    assert_eq!(rt;
        (is_executed(store, 9), is_executed(store, 5)),
        (Some(true), Some(false))
    );
    assert!(rt; store.body_mut(7).is_none());
}

fn takes_one_of_them_out<S: ProcStore>(rt: &impl Abort, store: &mut S) {
    assert!(rt; store.remove(5) && !store.remove(5) && store.get(5).is_none());
    assert!(rt; store.used(5) && store.used(9) && !store.used(7));
    assert_eq!(rt; store.count(), 2);
}
