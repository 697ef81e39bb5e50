//! What only the store in slots tells: slots that are used again, and its rows of children and members.
use crate::stores::testing::{insert, is_executed, links, set_executed};
use sk_table::{INIT, ProcStore, SlotStore};
use std::alloc::AllocError;
use std::process::Abort;
use std::test::Fail;

// Process 1, and two children of it in its group, which were put in in this order: 9 and 5.
fn with_two_children<R: Abort + AllocGlobal>(rt: &R) -> Result<SlotStore, AllocError> {
    let mut store = SlotStore::new(rt.alloc())?;
    for pid in [9, 5] {
        insert(rt, rt.alloc(), &mut store, pid, links(INIT, INIT, INIT));
    }
    Ok(store)
}

fn slots(store: &SlotStore, first: u32, second: u32, third: u32) -> [Option<usize>; 3] {
    [
        store.slot_of(first),
        store.slot_of(second),
        store.slot_of(third),
    ]
}

#[test]
fn slot_of_a_process_that_went_is_used_again(rt: HostRuntime) -> Result<(), Fail> {
    let mut store = with_two_children(&rt)?;
    set_executed(&mut store, 5);
    let before = slots(&store, INIT, 5, 9);
    assert!(rt; before.iter().all(|slot| slot.is_some()));
    assert!(rt; store.remove(5));
    assert!(rt; slots(&store, 5, 0, 40000) == [None; 3]);
    insert(&rt, rt.alloc(), &mut store, 7, links(INIT, INIT, INIT));
    assert!(rt; slots(&store, INIT, 7, 9) == before);
    assert!(rt; is_executed(&store, 7) == Some(false));
    Ok(())
}

// Each is a process, and itself beside each of its children.
fn assert_children(rt: &impl Abort, store: &SlotStore, rows: &[(u32, &[(u32, u32)])]) {
    for (parent, children) in rows {
        assert!(rt; store.children(*parent) == *children);
    }
}

// Each is a group, and itself beside each of its members.
fn assert_members(rt: &impl Abort, store: &SlotStore, rows: &[(u32, &[(u32, u32)])]) {
    for (group, members) in rows {
        assert!(rt; store.members(*group) == *members);
    }
}

#[test]
fn children_and_members_are_lent_in_rising_order(rt: HostRuntime) -> Result<(), Fail> {
    let mut store = with_two_children(&rt)?;
    assert_children(&rt, &store, &[(0, &[(0, 1)]), (INIT, &[(1, 5), (1, 9)])]);
    assert!(rt; store.remove(5));
    insert(&rt, rt.alloc(), &mut store, 7, links(INIT, INIT, INIT));
    assert_children(&rt, &store, &[(INIT, &[(1, 7), (1, 9)])]);
    assert_members(&rt, &store, &[(INIT, &[(1, 1), (1, 7), (1, 9)])]);
    assert!(rt; store.relink(9, links(7, 9, INIT)));
    assert_children(
        &rt,
        &store,
        &[(7, &[(7, 9)]), (INIT, &[(1, 7)]), (40000, &[])],
    );
    assert_members(
        &rt,
        &store,
        &[(9, &[(9, 9)]), (INIT, &[(1, 1), (1, 7)]), (7, &[])],
    );
    Ok(())
}
