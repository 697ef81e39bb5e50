//! A set of numbers that lie at the edges of its words.
use sk_world::NumberSet;

#[test]
fn members_come_in_rising_order(rt: HostRuntime) {
    let mut set = NumberSet::empty();
    for number in [0u32, 63, 64, 4000, 32767] {
        set.insert(number);
    }
    set.remove(4000);
    set.remove(4001);
    assert_eq!(rt; set.first(), Some(0));
    assert_eq!(rt; NumberSet::empty().first(), None);
    assert!(rt;
        set.contains(0)
            && set.contains(32767)
            && !set.contains(4000)
            && !set.contains(32768)
            && !set.contains(u32::MAX)
    );
    for (after, next) in [
        (0u32, Some(63u32)),
        (62, Some(63)),
        (63, Some(64)),
        (64, Some(32767)),
        (32766, Some(32767)),
        (32767, None),
        (u32::MAX, None),
    ] {
        assert_eq!(rt; set.next(after), next);
    }
}
