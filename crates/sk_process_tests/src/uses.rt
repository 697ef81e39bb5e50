//! Numbers that two processes use, and that one of them leaves in use.
use sk_table::Uses;
use sk_world::Links;
use std::test::Fail;

#[test]
fn numbers_are_used_until_the_last_process_goes(rt: HostRuntime) -> Result<(), Fail> {
    let mut uses = Uses::new(rt.alloc())?;
    let links = Links {
        parent: 1,
        group: 5,
        session: 1,
    };
    uses.enter(5, links);
    uses.enter(7, links);
    uses.leave(5, links);
    assert!(rt; uses.has(5) && uses.has(7) && uses.has(1));
    assert!(rt; !uses.has(6) && !uses.has(40000));
    uses.leave(7, links);
    assert!(rt; !uses.has(5) && !uses.has(7) && !uses.has(1));
    Ok(())
}
