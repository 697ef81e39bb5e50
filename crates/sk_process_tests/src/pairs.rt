//! A row of pairs, and what it tells of a first number.
use sk_world::PairRow;
use std::test::Fail;

#[test]
fn pairs_come_in_rising_order(rt: HostRuntime) -> Result<(), Fail> {
    let mut row = PairRow::new(rt.alloc())?;
    row.insert(1, 9);
    row.insert(7, 2);
    row.insert(1, 5);
    row.insert(0, 8);
    assert!(rt; row.slice_of(1) == &[(1u32, 5u32), (1, 9)][..]);
    assert!(rt; row.slice_of(3).is_empty());
    for (first, after, next) in [
        (1, 0, Some(5)),
        (1, 5, Some(9)),
        (1, 9, None),
        (7, 0, Some(2)),
        (8, 0, None),
    ] {
        assert_eq!(rt; row.next(first, after), next);
    }
    row.remove(1, 5);
    assert!(rt; row.slice_of(1) == &[(1u32, 9u32)][..]);
    Ok(())
}
