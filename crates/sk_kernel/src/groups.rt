//! The calls about process groups and sessions.

ghost use Rattle.std.specs.Prelude.{◌≡◌, IsTrue};
ghost use Rattle.std.specs.Option.{is_some};
ghost use Rattle.sk_world.specs.World.{at};
ghost use Rattle.sk_world.specs.Rules.{IsWorld};
ghost use Rattle.sk_machine.specs.Sessions.{group_of, after_setpgid, after_setsid, group_asked, session_asked};
ghost use Rattle.sk_machine.specs.Arguments.{signed};
ghost use Rattle.sk_machine.specs.Performed.{returns, asked, changes};
ghost use Rattle.sk_kernel.specs.Rows.{ComesTo};

use crate::outcome::returned;
use sk_insn::Record;
use sk_machine::{Outcome, signed};
use sk_world::ProcStore;

/// setpgid(2).
pub(crate) fn setpgid<S: ProcStore>(store: &mut S, pid: u32, call: &Record) -> Outcome
    requires rules { IsWorld (S.contents store.old) }
    requires there { IsTrue (is_some (at (S.contents store.old) pid)) }
    ensures performed { ComesTo (S.contents store.old) pid
        (λ w body. changes w 0 (after_setpgid w pid (signed call.now 0) (signed call.now 1))) result (S.contents store.new) }
    ensures rules { IsWorld (S.contents store.new) }
{
    let process = signed(call, 0);
    let group = signed(call, 1);
    returned(sk_machine::setpgid(store, pid, process, group))
}

/// setsid(2).
pub(crate) fn setsid<S: ProcStore>(store: &mut S, pid: u32) -> Outcome
    requires rules { IsWorld (S.contents store.old) }
    requires there { IsTrue (is_some (at (S.contents store.old) pid)) }
    ensures performed { ComesTo (S.contents store.old) pid (λ w body. changes w pid (after_setsid w pid)) result (S.contents store.new) }
    ensures rules { IsWorld (S.contents store.new) }
{
    returned(sk_machine::setsid(store, pid))
}

/// getpgid(2).
pub(crate) fn getpgid<S: ProcStore>(store: &S, pid: u32, call: &Record) -> Outcome
    requires rules { IsWorld (S.contents store.now) }
    requires there { IsTrue (is_some (at (S.contents store.now) pid)) }
    ensures { ComesTo (S.contents store.now) pid (λ w body. asked w (group_asked w pid (signed call.now 0))) result (S.contents store.now) }
{
    returned(sk_machine::getpgid(store, pid, signed(call, 0)))
}

/// getsid(2).
pub(crate) fn getsid<S: ProcStore>(store: &S, pid: u32, call: &Record) -> Outcome
    requires rules { IsWorld (S.contents store.now) }
    requires there { IsTrue (is_some (at (S.contents store.now) pid)) }
    ensures { ComesTo (S.contents store.now) pid (λ w body. asked w (session_asked w pid (signed call.now 0))) result (S.contents store.now) }
{
    returned(sk_machine::getsid(store, pid, signed(call, 0)))
}
