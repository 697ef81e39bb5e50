//! The calls by which processes come and go, and signal each other.

ghost use Rattle.std.specs.Prelude.{◌≡◌, ◌&&◌, IsTrue, IfOk, IfSome, OnErr};
ghost use Rattle.std.specs.Option.{is_some};
ghost use Rattle.sk_world.specs.World.{at, is_alive};
ghost use Rattle.sk_world.specs.Rules.{IsWorld};
ghost use Rattle.sk_world.specs.Forking.{fork_answer, has_room, has_filters};
ghost use Rattle.sk_machine.specs.Arguments.{unsigned, signed};
ghost use Rattle.sk_machine.specs.Killing.{after_kill};
ghost use Rattle.sk_machine.specs.Performed.{changes};
ghost use Rattle.sk_machine.specs.Performing.{forks, exit_status, end_of_caller};
ghost use Rattle.sk_kernel.specs.Rows.{ComesTo};

use crate::caller::caller;
use crate::outcome::returned;
use sk_insn::Record;
use sk_machine::{Outcome, signed, unsigned};
use sk_world::ProcStore;
use std::alloc::AllocError;

/// fork(2).
pub(crate) fn fork<S: ProcStore>(store: &mut S, pid: u32) -> Result<Outcome, AllocError>
    requires rules { IsWorld (S.contents store.old) }
    requires alive { IsTrue (is_alive (at (S.contents store.old) pid)) }
    ensures performed { IfOk result (λ outcome.
        ComesTo (S.contents store.old) pid (λ w body. forks w pid (fork_answer w)) outcome (S.contents store.new)) }
    ensures memory { OnErr result (IsTrue (has_room (S.contents store.old) && has_filters (at (S.contents store.old) pid))) }
    ensures kept { OnErr result (S.contents store.new ≡ S.contents store.old) }
    ensures rules { IsWorld (S.contents store.new) }
{
    Ok(returned(sk_world::fork(store, pid)?))
}

/// exit(2), and exit_group(2), as a process has one thread. Of the code the low 8 bits are told: wait(2).
pub(crate) fn exit<S: ProcStore>(store: &mut S, pid: u32, call: &Record) -> Outcome
    requires rules { IsWorld (S.contents store.old) }
    requires alive { IsTrue (is_alive (at (S.contents store.old) pid)) }
    ensures performed { ComesTo (S.contents store.old) pid
        (λ w body. end_of_caller w pid (exit_status (unsigned call.now 0))) result (S.contents store.new) }
    ensures rules { IsWorld (S.contents store.new) }
{
    let status = exit_status(unsigned(call, 0));
    sk_machine::end(store, pid, status);
    Outcome::Ended(status)
}

fn exit_status(code: u32) -> u32
    ensures { result ≡ exit_status code }
{
    code % 256 * 256
}

/// kill(2).
pub(crate) fn kill<S: ProcStore>(store: &mut S, pid: u32, call: &Record) -> Outcome
    requires rules { IsWorld (S.contents store.old) }
    requires there { IsTrue (is_some (at (S.contents store.old) pid)) }
    ensures performed { ComesTo (S.contents store.old) pid
        (λ w body. changes w 0 (after_kill w pid body.creds (signed call.now 0) (unsigned call.now 1))) result (S.contents store.new) }
    ensures rules { IsWorld (S.contents store.new) }
{
    let creds = caller(store, pid).body.creds;
    returned(crate::kill(store, pid, creds, signed(call, 0), unsigned(call, 1)))
}
