//! Orphaned process groups, and which processes tie a group to its session.
ghost use Rattle.std.specs.Prelude.{◌≡◌};
ghost use Rattle.sk_world.specs.World.{at, is_alive, is_stopped};
ghost use Rattle.sk_world.specs.Rules.{IsWorld};
ghost use Rattle.sk_machine.specs.Sessions.{group_of};
ghost use Rattle.sk_machine.specs.Orphans.{is_living_member, is_outside, is_tie, is_orphaned, has_stopped_member};

use crate::asking::session_of;
use sk_world::{Life, ProcStore};

/// Whether the process group is orphaned: POSIX.1-2017, 3.264. A group without a process that has not ended is.
pub fn orphaned<S: ProcStore>(store: &S, group: u32) -> bool
    requires rules { IsWorld (S.contents store.now) }
    ensures { result ≡ is_orphaned (S.contents store.now) group }
{
    let mut after = 0;
    while let Some(pid) = store.next_member(group, after) {
        if is_tie(store, group, pid) {
            return false;
        }
        after = pid;
    }
    true
}

/// Whether the process ties the group to its session.
pub(crate) fn is_tie<S: ProcStore>(store: &S, group: u32, pid: u32) -> bool
    ensures { result ≡ is_tie (S.contents store.now) group pid }
{
    match store.get(pid) {
        Some(process) => {
            !matches!(process.body.life, Life::Zombie(_))
                && process.links.group == group
                && is_outside(store, process.links.session, group, process.links.parent)
        }
        None => false,
    }
}

// Whether the process is there, in the session, and outside the group.
fn is_outside<S: ProcStore>(store: &S, session: u32, group: u32, pid: u32) -> bool
    ensures { result ≡ is_outside session group (at (S.contents store.now) pid) }
{
    match store.get(pid) {
        Some(process) => process.links.group != group && process.links.session == session,
        None => false,
    }
}
