//! The end of a process, and which groups it leaves orphaned and hangs up.
ghost use Rattle.std.specs.Prelude.{[], ◌≡◌, ◌≢◌, ℕ, ◌&&◌, ◌||◌, false, filter, IsTrue, IsFalse, None, Some};
ghost use Rattle.sk_world.specs.NumberSets.{contains};
ghost use Rattle.sk_world.specs.SignalSet.{IsSignal};
ghost use Rattle.sk_world.specs.declared.process.TheConstants.{INIT};
ghost use Rattle.sk_world.specs.World.{at, is_alive, is_child_of};
ghost use Rattle.sk_world.specs.Rules.{IsWorld};
ghost use Rattle.sk_machine.specs.Sessions.{is_group};
ghost use Rattle.sk_machine.specs.Orphans.{is_tie, is_orphaned, has_stopped_member, groups as groups_of, sent_to_group, hung_up, each_hung_up, ended_and_hung_up};
ghost use Rattle.sk_machine.specs.views.Ties.{is_engaged, TiesNone};

use crate::orphans::{is_tie, orphaned};
use sk_world::signals::{SIGCONT, SIGHUP};
use sk_world::{INIT, NumberSet, ProcStore, is_alive, is_stopped, is_zombie, send};

/// Ends a process with this status: exit(2). The groups that this leaves orphaned, with a stopped process in them, get
/// SIGHUP and then SIGCONT: POSIX.1-2017, exit(), "Consequences of Process Termination". Where neither the process nor a
/// child of it ties a group to its session, that costs a look at each child.
pub fn end<S: ProcStore>(store: &mut S, pid: u32, status: u32)
    requires rules { IsWorld (S.contents store.old) }
    requires alive { IsTrue (is_alive (at (S.contents store.old) pid)) }
    ensures world { S.contents store.new ≡ ended_and_hung_up (S.contents store.old) pid status }
    ensures rules { IsWorld (S.contents store.new) }
{
    if pid != INIT && may_untie(store, pid) {
        end_and_hang_up(store, pid, status);
    } else {
        sk_world::end(store, pid, status);
    }
}

// Whether the end of the process may take a tie from a group: whether it, or a child of it, ties one to its session.
// Where the system has halted, a parent may be a zombie and go, so that any tie may be taken.
fn may_untie<S: ProcStore>(store: &S, pid: u32) -> bool
    requires rules { IsWorld (S.contents store.now) }
    ensures { IsFalse result → (q : ℕ) → IsTrue (is_engaged (S.contents store.now) pid q) → TiesNone (S.contents store.now) q }
{
    is_zombie(store, INIT) || ties_a_group(store, pid) || has_child_that_ties(store, pid)
}

// Whether the process ties its group to its session.
fn ties_a_group<S: ProcStore>(store: &S, pid: u32) -> bool
    ensures { IsFalse result → TiesNone (S.contents store.now) pid }
{
    match store.get(pid) {
        Some(process) => is_tie(store, process.links.group, pid),
        None => false,
    }
}

// Whether a child of the process ties its group to its session.
fn has_child_that_ties<S: ProcStore>(store: &S, parent: u32) -> bool
    requires rules { IsWorld (S.contents store.now) }
    ensures { IsFalse result → (q : ℕ) → IsTrue (is_child_of parent (at (S.contents store.now) q)) → TiesNone (S.contents store.now) q }
{
    let mut after = 0;
    while let Some(child) = store.next_child(parent, after) {
        if ties_a_group(store, child) {
            return true;
        }
        after = child;
    }
    false
}

// Ends a process, and hangs up the groups that this leaves orphaned with a stopped process in them.
fn end_and_hang_up<S: ProcStore>(store: &mut S, pid: u32, status: u32)
    requires rules { IsWorld (S.contents store.old) }
    requires alive { IsTrue (is_alive (at (S.contents store.old) pid)) }
    requires other { pid ≢ INIT }
    ensures world { S.contents store.new ≡ ended_and_hung_up (S.contents store.old) pid status }
    ensures rules { IsWorld (S.contents store.new) }
{
    let mut groups = NumberSet::empty();
    add_groups_tied_by(store, pid, &mut groups);
    sk_world::end(store, pid, status);
    keep_orphaned(store, &mut groups);
    hang_up_each(store, &groups);
}

// Groups that are not orphaned, among them each that the process or a child of it ties to its session: those that its
// end may leave orphaned. Where the system has halted, a parent may be a zombie and go, so any tie may.
fn add_groups_tied_by<S: ProcStore>(store: &S, pid: u32, groups: &mut NumberSet)
    requires rules { IsWorld (S.contents store.now) }
    requires empty { groups.old ≡ [] }
    ensures tied { (group : ℕ) → IsTrue (contains groups.new group) → is_orphaned (S.contents store.now) group ≡ false }
    ensures whole { (group q : ℕ) → IsTrue (is_tie (S.contents store.now) group q) → IsTrue (is_engaged (S.contents store.now) pid q) → IsTrue (contains groups.new group) }
{
    if is_zombie(store, INIT) {
        add_ties(store, groups);
    } else {
        add_tie(store, pid, groups);
        add_ties_of_children(store, pid, groups);
    }
}

// Adds each group that some process ties to its session.
fn add_ties<S: ProcStore>(store: &S, groups: &mut NumberSet)
    requires rules { IsWorld (S.contents store.now) }
    requires tied { (group : ℕ) → IsTrue (contains groups.old group) → is_orphaned (S.contents store.now) group ≡ false }
    ensures tied { (group : ℕ) → IsTrue (contains groups.new group) → is_orphaned (S.contents store.now) group ≡ false }
    ensures whole { (group q : ℕ) → IsTrue (is_tie (S.contents store.now) group q) → IsTrue (contains groups.new group) }
{
    let mut after = 0;
    while let Some(pid) = store.next_pid(after) {
        add_tie(store, pid, groups);
        after = pid;
    }
}

// Adds each group that a child of the process ties to its session.
fn add_ties_of_children<S: ProcStore>(store: &S, parent: u32, groups: &mut NumberSet)
    requires rules { IsWorld (S.contents store.now) }
    requires tied { (group : ℕ) → IsTrue (contains groups.old group) → is_orphaned (S.contents store.now) group ≡ false }
    ensures tied { (group : ℕ) → IsTrue (contains groups.new group) → is_orphaned (S.contents store.now) group ≡ false }
    ensures kept { (group : ℕ) → IsTrue (contains groups.old group) → IsTrue (contains groups.new group) }
    ensures whole { (group q : ℕ) → IsTrue (is_tie (S.contents store.now) group q) → IsTrue (is_child_of parent (at (S.contents store.now) q)) → IsTrue (contains groups.new group) }
{
    let mut after = 0;
    while let Some(child) = store.next_child(parent, after) {
        add_tie(store, child, groups);
        after = child;
    }
}

// Adds the group of a process, where the process ties it to its session.
fn add_tie<S: ProcStore>(store: &S, pid: u32, groups: &mut NumberSet)
    requires rules { IsWorld (S.contents store.now) }
    ensures { (group : ℕ) → contains groups.new group ≡ (is_tie (S.contents store.now) group pid || contains groups.old group) }
{
    if let Some(process) = store.get(pid) {
        let group = process.links.group;
        if is_tie(store, group, pid) {
            groups.insert(group);
        }
    }
}

// Keeps those of the groups that are orphaned and have a stopped process.
fn keep_orphaned<S: ProcStore>(store: &S, groups: &mut NumberSet)
    requires rules { IsWorld (S.contents store.now) }
    ensures { (group : ℕ) → contains groups.new group ≡ (contains groups.old group && (is_orphaned (S.contents store.now) group && has_stopped_member (S.contents store.now) group)) }
{
    let mut next = groups.first();
    while let Some(group) = next {
        if !is_stopped_orphan(store, group) {
            groups.remove(group);
        }
        next = groups.next(group);
    }
}

fn is_stopped_orphan<S: ProcStore>(store: &S, group: u32) -> bool
    requires { IsWorld (S.contents store.now) }
    ensures { result ≡ (is_orphaned (S.contents store.now) group && has_stopped_member (S.contents store.now) group) }
{
    orphaned(store, group) && has_stopped_member(store, group)
}

fn has_stopped_member<S: ProcStore>(store: &S, group: u32) -> bool
    requires { IsWorld (S.contents store.now) }
    ensures { result ≡ has_stopped_member (S.contents store.now) group }
{
    let mut after = 0;
    while let Some(pid) = store.next_member(group, after) {
        if is_stopped(store, pid) {
            return true;
        }
        after = pid;
    }
    false
}

// Hangs up each of these groups, in rising order.
fn hang_up_each<S: ProcStore>(store: &mut S, groups: &NumberSet)
    requires rules { IsWorld (S.contents store.old) }
    requires known { (group : ℕ) → IsTrue (contains groups.now group) → IsTrue (is_group (S.contents store.old) group) }
    ensures world { S.contents store.new ≡ each_hung_up (S.contents store.old) (filter (contains groups.now) (groups_of (S.contents store.old))) }
    ensures rules { IsWorld (S.contents store.new) }
{
    let mut next = groups.first();
    while let Some(group) = next {
        hang_up(store, group);
        next = groups.next(group);
    }
}

fn hang_up<S: ProcStore>(store: &mut S, group: u32)
    requires rules { IsWorld (S.contents store.old) }
    ensures world { S.contents store.new ≡ hung_up (S.contents store.old) group }
    ensures rules { IsWorld (S.contents store.new) }
{
    send_to_group(store, group, SIGHUP);
    send_to_group(store, group, SIGCONT);
}

// Sends a signal to each process of a group that has not ended.
fn send_to_group<S: ProcStore>(store: &mut S, group: u32, signal: u8)
    requires rules { IsWorld (S.contents store.old) }
    requires signal { IsSignal signal }
    ensures world { S.contents store.new ≡ sent_to_group (S.contents store.old) group signal }
    ensures rules { IsWorld (S.contents store.new) }
{
    let mut after = 0;
    while let Some(pid) = store.next_member(group, after) {
        if is_alive(store, pid) {
            send(store, pid, signal);
        }
        after = pid;
    }
}
