//! Whom the argument of kill(2) or wait4(2) means, and the next of them.
ghost use Rattle.std.specs.Prelude.{◌≡◌, ◌&&◌, ◌==◌, not};
ghost use Rattle.std.specs.Option.{is_some};
ghost use Rattle.sk_world.specs.declared.process.TheConstants.{INIT};
ghost use Rattle.sk_world.specs.World.{at, IsNext};
ghost use Rattle.sk_world.specs.Rules.{IsWorld};
ghost use Rattle.sk_machine.specs.Arguments.{who_meant};
ghost use Rattle.sk_kernel.specs.Targets.{is_target};

use sk_world::{INIT, ProcStore, Who};

/// The least pid above `after` of a process that kill(2) means.
pub(crate) fn next_target<S: ProcStore>(store: &S, caller: u32, who: Who, after: u32) -> Option<u32>
    requires rules { IsWorld (S.contents store.now) }
    ensures next { IsNext (is_target (S.contents store.now) caller who) after result }
{
    match who {
        Who::Child(pid) => alone_above(store, pid, after),
        Who::Any => next_other(store, caller, after),
        Who::Group(group) => store.next_member(group, after),
    }
}

// This one pid, where it is above `after` and a process's.
fn alone_above<S: ProcStore>(store: &S, pid: u32, after: u32) -> Option<u32>
    ensures next { IsNext (λ q. is_some (at (S.contents store.now) q) && (q == pid)) after result }
{
    if pid > after && store.get(pid).is_some() {
        Some(pid)
    } else {
        None
    }
}

// The least pid above `after` but for process 1 and the caller.
fn next_other<S: ProcStore>(store: &S, caller: u32, after: u32) -> Option<u32>
    requires rules { IsWorld (S.contents store.now) }
    ensures next { IsNext (λ q. is_some (at (S.contents store.now) q) && (not (q == INIT) && not (q == caller))) after result }
{
    let mut from = after;
    while let Some(pid) = store.next_pid(from) {
        if pid != INIT && pid != caller {
            return Some(pid);
        }
        from = pid;
    }
    None
}

/// Whom the argument of kill(2) or wait4(2) means, where the caller is in this group.
pub(crate) fn who_meant(group: u32, argument: i32) -> Who
    ensures { result ≡ who_meant group argument }
{
    match u32::try_from(argument) {
        Ok(0) => Who::Group(group),
        Ok(pid) => Who::Child(pid),
        Err(_) => {
            if argument == -1 {
                Who::Any
            } else {
                Who::Group(argument.unsigned_abs())
            }
        }
    }
}
