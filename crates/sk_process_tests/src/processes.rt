//! What a child has of its parent, and which bits are options of wait4(2): each function once.
use bitflags::Flags;
use sk_table::first_process;
use sk_world::signals::{SIGTERM, SIGUSR1};
use sk_world::{INIT, Note, SigSet, WaitOptions};
use std::test::Fail;

#[test]
fn a_child_has_the_rights_and_nothing_that_pends(rt: HostRuntime) -> Result<(), Fail> {
    let mut parent = first_process(rt.alloc());
    parent.body.creds.no_new_privs = true;
    parent.body.signals.set_mask(SigSet::empty().with(SIGUSR1));
    parent.body.signals.generate(SIGTERM, false);
    parent.body.executed = true;
    parent.body.note = Note::Continued;
    let child = parent.child(7, parent.body.chain.share()?);
    assert_eq!(rt; (child.links.parent, child.links.group), (7, INIT));
    let signals = (child.body.signals.mask(), child.body.signals.pending());
    assert_eq!(rt; signals, (SigSet::empty().with(SIGUSR1), SigSet::empty()));
    assert_eq!(rt;
        (child.body.creds, child.body.note),
        (parent.body.creds, Note::Nothing)
    );
    assert!(rt; child.body.chain.is_empty() && !child.body.executed);
    Ok(())
}

#[test]
fn wait_options_are_three_bits(rt: HostRuntime) {
    let all = WaitOptions::WNOHANG | WaitOptions::WUNTRACED | WaitOptions::WCONTINUED;
    for (bits, options) in [(0, Some(WaitOptions::empty())), (11, Some(all)), (4, None)] {
        assert_eq!(rt; WaitOptions::from_bits(bits), options);
    }
}
