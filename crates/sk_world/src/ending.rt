//! exit(2): zombies, children that are handed on, and the halt of the system.
ghost use Rattle.std.specs.Prelude.{◌≡◌, ◌≤◌, IsTrue};
ghost use Rattle.std.specs.Option.{is_some, option_and_then};
ghost use Rattle.sk_world.specs.declared.process.TheConstants.{INIT, LAST_PID};
ghost use Rattle.sk_world.specs.declared.process.Life.TheVariants.{Zombie};
ghost use Rattle.sk_world.specs.World.{at, is_alive, is_child_of, is_zombie, stored, changed};
ghost use Rattle.sk_world.specs.Rules.{IsWorld, has_links_within};
ghost use Rattle.sk_world.specs.Subreapers.{new_parent};
ghost use Rattle.sk_world.specs.Ending.{handed_on, ignores_children, has_zombie_child, with_children_handed_on, reparented, zombie, left_to_parent, ended};

use crate::asking::parent_of;
use crate::process::{Body, INIT, Life, Links, Note, Waiting};
use crate::sending::send;
use crate::signals::SIGCHLD;
use crate::store::ProcStore;
use crate::subreapers::reaper;

/// Ends a process with this status: exit(2). The end of process 1 halts the system.
pub fn end<S: ProcStore>(store: &mut S, pid: u32, status: u32)
    requires rules { IsWorld (S.contents store.old) }
    requires alive { IsTrue (is_alive (at (S.contents store.old) pid)) }
    ensures world { S.contents store.new ≡ ended (S.contents store.old) pid status }
    ensures rules { IsWorld (S.contents store.new) }
{
    if pid == INIT {
        halt(store, status);
    } else {
        reparent(store, pid);
        leave_to_parent(store, pid, status);
    }
}

fn halt<S: ProcStore>(store: &mut S, status: u32)
    ensures { S.contents store.new ≡ changed (S.contents store.old) INIT (λ body. record body { life = Zombie status }) }
{
    if let Some(body) = store.body_mut(INIT) {
        body.life = Life::Zombie(status);
    }
}

// Ends a process that has no children.
fn leave_to_parent<S: ProcStore>(store: &mut S, pid: u32, status: u32)
    ensures { S.contents store.new ≡ left_to_parent (S.contents store.old) pid status }
{
    let parent = parent_of(store, pid);
    if ignores_children(store, parent) {
        store.remove(pid);
    } else {
        leave_zombie(store, pid, status);
        send(store, parent, SIGCHLD);
    }
}

fn leave_zombie<S: ProcStore>(store: &mut S, pid: u32, status: u32)
    ensures { S.contents store.new ≡ changed (S.contents store.old) pid (zombie status) }
{
    if let Some(body) = store.body_mut(pid) {
        become_zombie(body, status);
    }
}

fn become_zombie(body: &mut Body, status: u32)
    ensures { body.new ≡ zombie status body.old }
{
    body.life = Life::Zombie(status);
    body.signals.clear();
    body.waiting = Waiting::Nothing;
    body.note = Note::Nothing;
}

/// Hands the children of a process to its nearest ancestor that is a subreaper, and to process 1 where there is none.
/// The zombies among them are announced there, or go where SIGCHLD is ignored there: wait(2), "Notes".
pub fn reparent<S: ProcStore>(store: &mut S, pid: u32)
    requires rules { IsWorld (S.contents store.old) }
    requires there { IsTrue (is_some (at (S.contents store.old) pid)) }
    ensures world { S.contents store.new ≡ reparented (S.contents store.old) pid }
    ensures rules { IsWorld (S.contents store.new) }
{
    hand_on_and_announce(store, pid);
}

// By itself, so that the proof of the rules rests on its contract alone.
fn hand_on_and_announce<S: ProcStore>(store: &mut S, pid: u32)
    requires { IsWorld (S.contents store.old) }
    ensures { S.contents store.new ≡ reparented (S.contents store.old) pid }
{
    let parent = reaper(store, pid);
    let removes = ignores_children(store, parent);
    let has_zombie = hand_children_on(store, pid, parent, removes);
    if has_zombie && !removes {
        send(store, parent, SIGCHLD);
    }
}

// Hands the children of a process on, and says whether a zombie is among them.
fn hand_children_on<S: ProcStore>(store: &mut S, pid: u32, parent: u32, removes: bool) -> bool
    requires rules { IsWorld (S.contents store.old) }
    requires parent { parent ≡ new_parent (S.contents store.old) pid }
    requires removes { removes ≡ ignores_children (at (S.contents store.old) parent) }
    ensures zombies { result ≡ has_zombie_child (S.contents store.old) pid }
    ensures world { S.contents store.new ≡ with_children_handed_on (S.contents store.old) pid }
{
    let mut has_zombie = false;
    let mut after = 0;
    while let Some(child) = store.next_child(pid, after) {
        if hand_on(store, pid, child, parent, removes) {
            has_zombie = true;
        }
        after = child;
    }
    has_zombie
}

// Hands a child on, and says whether it is a zombie.
fn hand_on<S: ProcStore>(store: &mut S, dying: u32, child: u32, parent: u32, removes: bool) -> bool
    requires within { IsTrue (has_links_within (at (S.contents store.old) child)) }
    requires parent { parent ≤ LAST_PID }
    requires child { IsTrue (is_child_of dying (at (S.contents store.old) child)) }
    ensures zombie { result ≡ is_zombie (at (S.contents store.old) child) }
    ensures world { S.contents store.new ≡ stored (S.contents store.old) child (option_and_then (handed_on dying parent removes) (at (S.contents store.old) child)) }
{
    let Some(process) = store.get(child) else {
        return false;
    };
    let is_zombie = matches!(process.body.life, Life::Zombie(_));
    let links = Links {
        parent,
        ..process.links
    };
    if removes && is_zombie {
        store.remove(child);
    } else {
        store.relink(child, links);
    }
    is_zombie
}

fn ignores_children<S: ProcStore>(store: &S, pid: u32) -> bool
    ensures { result ≡ ignores_children (at (S.contents store.now) pid) }
{
    match store.get(pid) {
        Some(process) => process.body.signals.action(SIGCHLD).is_ignore(),
        None => false,
    }
}
