//! setpgid(2) and setsid(2), with the conditions for each in the order of their errors.
ghost use Rattle.std.specs.Prelude.{◌≡◌, ◌≤◌, IsTrue};
ghost use Rattle.std.specs.Option.{is_some};
ghost use Rattle.std.specs.Result.{result_unwrap_or};
ghost use Rattle.sk_world.specs.World.{at, relinked, is_child_of};
ghost use Rattle.sk_world.specs.Rules.{IsWorld, has_links_within};
ghost use Rattle.sk_machine.specs.Sessions.{answered, has_executed, is_group, is_group_of_session, links_in_group, links_of_leader, may_move_child, may_join, may_regroup, regrouped, after_setpgid, after_setsid};
ghost use Rattle.sk_world.specs.declared.process.TheConstants.{LAST_PID};

use crate::asking::{pid_named, session_of};
use sk_world::{Errno, Links, ProcStore};

/// Puts the caller, or a child of it, into a process group: setpgid(2). The pid 0 stands for the caller, and the
/// group 0 for the one with the target's pid.
pub fn setpgid<S: ProcStore>(store: &mut S, caller: u32, pid: i32, group: i32) -> Result<u32, Errno>
    requires rules { IsWorld (S.contents store.old) }
    requires there { IsTrue (is_some (at (S.contents store.old) caller)) }
    ensures answer { result ≡ answered 0 (after_setpgid (S.contents store.old) caller pid group) }
    ensures world { S.contents store.new ≡ result_unwrap_or (after_setpgid (S.contents store.old) caller pid group) (S.contents store.old) }
    ensures rules { IsWorld (S.contents store.new) }
{
    if group < 0 {
        return Err(Errno::Einval);
    }
    let target = pid_named(caller, pid);
    regroup(store, caller, target, pid_named(target, group))
}

/// Makes the caller the leader of a new session, and of a new group in it: setsid(2).
pub fn setsid<S: ProcStore>(store: &mut S, caller: u32) -> Result<u32, Errno>
    requires rules { IsWorld (S.contents store.old) }
    requires there { IsTrue (is_some (at (S.contents store.old) caller)) }
    ensures answer { result ≡ answered caller (after_setsid (S.contents store.old) caller) }
    ensures world { S.contents store.new ≡ result_unwrap_or (after_setsid (S.contents store.old) caller) (S.contents store.old) }
    ensures rules { IsWorld (S.contents store.new) }
{
    if is_group(store, caller) {
        return Err(Errno::Eperm);
    }
    lead(store, caller);
    Ok(caller)
}

fn regroup<S: ProcStore>(store: &mut S, caller: u32, target: u32, group: u32) -> Result<u32, Errno>
    requires rules { IsWorld (S.contents store.old) }
    requires there { IsTrue (is_some (at (S.contents store.old) caller)) }
    ensures answer { result ≡ answered 0 (regrouped (S.contents store.old) caller target group) }
    ensures world { S.contents store.new ≡ result_unwrap_or (regrouped (S.contents store.old) caller target group) (S.contents store.old) }
{
    may_regroup(store, caller, target, group)?;
    put_into_group(store, target, group);
    Ok(0)
}

fn may_regroup<S: ProcStore>(store: &S, caller: u32, target: u32, group: u32) -> Result<(), Errno>
    requires { IsWorld (S.contents store.now) }
    ensures { result ≡ may_regroup (S.contents store.now) caller target group }
{
    if target != caller {
        may_move_child(store, caller, target)?;
    }
    may_join(store, caller, target, group)
}

fn may_move_child<S: ProcStore>(store: &S, caller: u32, child: u32) -> Result<(), Errno>
    ensures { result ≡ may_move_child (S.contents store.now) caller child }
{
    if !is_child_of(store, caller, child) {
        return Err(Errno::Esrch);
    }
    if session_of(store, child) != session_of(store, caller) {
        return Err(Errno::Eperm);
    }
    if has_executed(store, child) {
        return Err(Errno::Eacces);
    }
    Ok(())
}

fn may_join<S: ProcStore>(store: &S, caller: u32, target: u32, group: u32) -> Result<(), Errno>
    requires { IsWorld (S.contents store.now) }
    ensures { result ≡ may_join (S.contents store.now) caller target group }
{
    if session_of(store, target) == target {
        return Err(Errno::Eperm);
    }
    if group != target && !is_group_of_session(store, session_of(store, caller), group) {
        return Err(Errno::Eperm);
    }
    Ok(())
}

fn is_child_of<S: ProcStore>(store: &S, parent: u32, pid: u32) -> bool
    ensures { result ≡ is_child_of parent (at (S.contents store.now) pid) }
{
    match store.get(pid) {
        Some(process) => process.links.parent == parent,
        None => false,
    }
}

fn has_executed<S: ProcStore>(store: &S, pid: u32) -> bool
    ensures { result ≡ has_executed (at (S.contents store.now) pid) }
{
    match store.get(pid) {
        Some(process) => process.body.executed,
        None => false,
    }
}

fn is_group<S: ProcStore>(store: &S, group: u32) -> bool
    requires { IsWorld (S.contents store.now) }
    ensures { result ≡ is_group (S.contents store.now) group }
{
    store.next_member(group, 0).is_some()
}

// Whether some process of the session is in the group.
fn is_group_of_session<S: ProcStore>(store: &S, session: u32, group: u32) -> bool
    requires { IsWorld (S.contents store.now) }
    ensures { result ≡ is_group_of_session (S.contents store.now) session group }
{
    let mut after = 0;
    while let Some(pid) = store.next_member(group, after) {
        if session_of(store, pid) == session {
            return true;
        }
        after = pid;
    }
    false
}

fn put_into_group<S: ProcStore>(store: &mut S, pid: u32, group: u32)
    requires rules { IsWorld (S.contents store.old) }
    requires within { group ≤ LAST_PID }
    ensures { S.contents store.new ≡ relinked (S.contents store.old) pid (links_in_group group) }
{
    if let Some(process) = store.get(pid) {
        let links = Links {
            group,
            ..process.links
        };
        store.relink(pid, links);
    }
}

fn lead<S: ProcStore>(store: &mut S, pid: u32)
    requires rules { IsWorld (S.contents store.old) }
    requires within { pid ≤ LAST_PID }
    ensures { S.contents store.new ≡ relinked (S.contents store.old) pid (links_of_leader pid) }
{
    if let Some(process) = store.get(pid) {
        let links = Links {
            group: pid,
            session: pid,
            ..process.links
        };
        store.relink(pid, links);
    }
}
