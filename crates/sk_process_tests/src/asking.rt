//! What is asked about a process by its pid, and of the registers of a call.

use crate::world::{after_forks, end_of, stop};
use bitflags::Flags;
use sk_insn::Record;
use sk_machine::{Outcome, is_waiting, register, signed, unsigned};
use sk_table::{INIT, ListStore, ProcStore};
use sk_world::signals::SIGTSTP;
use sk_world::{
    Errno, Request, WaitOptions, Waiting, Who, is_alive, is_asked_for, is_stopped, is_zombie,
    parent_of,
};
use std::test::Fail;

#[test]
fn a_process_has_a_parent_and_is_in_one_state(rt: HostRuntime) -> Result<(), Fail> {
    let mut store: ListStore = after_forks(&rt, &[INIT, INIT])?;
    stop(&mut store, 2, SIGTSTP);
    end_of(&rt, &mut store, 3, 0x100);
    for (pid, expected) in [
        (INIT, (0, true, false, false)),
        (2, (INIT, true, true, false)),
        (3, (INIT, false, false, true)),
        (4, (0, false, false, false)),
    ] {
        let found = (
            parent_of(&store, pid),
            is_alive(&store, pid),
            is_stopped(&store, pid),
            is_zombie(&store, pid),
        );
        assert!(rt; found == expected);
    }
    Ok(())
}

#[test]
fn a_wait_asks_for_one_for_any_or_for_a_group(rt: HostRuntime) -> Result<(), Fail> {
    let store: ListStore = after_forks(&rt, &[INIT])?;
    let Some(child) = store.get(2) else {
        return Err(Fail::from("no child"));
    };
    let asked = [Who::Child(3), Who::Any, Who::Group(1)].map(|who| is_asked_for(who, 2, child));
    assert!(rt; asked == [false, true, true]);
    let asks = Waiting::Asks(Request {
        who: Who::Any,
        options: WaitOptions::empty(),
    });
    assert!(rt; is_waiting(asks) && !is_waiting(Waiting::Nothing));
    Ok(())
}

#[test]
fn a_register_has_64_bits_and_a_low_half(rt: HostRuntime) {
    let call = Record::native(39, 0, [7, 0x1_ffff_fffe, 0, 0, 0, 5]);
    let found = (register(&call, 1), unsigned(&call, 1), signed(&call, 1));
    assert_eq!(rt; found, (0x1_ffff_fffe, 0xffff_fffe, -2));
    assert_eq!(rt; Outcome::failed(Errno::Esrch), Outcome::Returned(-3));
}
