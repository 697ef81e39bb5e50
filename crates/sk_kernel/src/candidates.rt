//! The candidates for a turn: how each change of a store notes them, and who of them is next.
ghost use Rattle.std.specs.Prelude.{◌≡◌, ◌≢◌, ℕ, ◌≤◌, None, Some, IfSome, IsFalse};
ghost use Rattle.std.specs.Option.{option_map};
ghost use Rattle.sk_world.specs.NumberSets.{contains};
ghost use Rattle.sk_world.specs.declared.process.TheConstants.{LAST_PID};
ghost use Rattle.sk_world.specs.World.{at};
ghost use Rattle.sk_world.specs.Rules.{IsWorld};
ghost use Rattle.sk_machine.specs.Turns.{next_of, need_of};
ghost use Rattle.sk_kernel.specs.views.Noting.{AllBlocked, OthersBlocked, OthersAreThere, Notes, Forgets, LooksAt};

use crate::asking::{Runner, next_beside_waiter, next_in_turn};
use crate::blocked::{is_blocked, notified_parent, waiter};
use crate::reasons::halted;
use sk_world::{Body, INIT, LAST_PID, Links, NumberSet, Proc, ProcStore, parent_of};
use std::alloc::{AllocError, Global};
use std::marker::Model;

/// A store over another one, which notes each process that a change may have made runnable. A process that is not noted
/// cannot run. It takes no memory of its own.
#[derive(Drop)]
pub struct Candidates<S: ProcStore> {
    store: S,
    noted: NumberSet,
    // Who is looked at again before the next change: the process that the last one was about. Its parent may wait for
    // that change.
    touched: u32,
}

/// The processes of the store below, with the last pid given.
impl<S: ProcStore> Model for Candidates<S> {
    ghost use Rattle.sk_world.specs.World.{World};
    ghost use Rattle.sk_world.specs.views.WorldCode.{world_code};
    ghost use Rattle.sk_kernel.specs.views.Noting.{IsNoted};

    ghost Value = { World };

    ghost coded = { world_code };

    ghost view = { λ c. S.contents c.store };

    ghost invariant = { λ c. IsNoted (S.contents c.store) c.noted c.touched };
}

// Notes a process, if there can be one with this pid.
fn note(noted: &mut NumberSet, pid: u32)
    ensures { Notes pid noted.old noted.new }
{
    if pid <= LAST_PID {
        noted.insert(pid);
    }
}

// Takes the note of a process off.
fn forget(noted: &mut NumberSet, pid: u32)
    ensures { Forgets pid noted.old noted.new }
{
    if pid <= LAST_PID {
        noted.remove(pid);
    }
}

// Notes a process, or takes its note off where it is blocked or not there.
fn look_at<S: ProcStore>(store: &S, noted: &mut NumberSet, pid: u32)
    requires nobody { at (S.contents store.now) 0 ≡ None }
    ensures { LooksAt (S.contents store.now) pid noted.old noted.new }
{
    match store.get(pid) {
        Some(process) => look_at_process(store, noted, pid, process),
        None => forget(noted, pid),
    }
}

// The same of the process of this pid.
fn look_at_process<S: ProcStore>(store: &S, noted: &mut NumberSet, pid: u32, process: &Proc)
    requires nobody { at (S.contents store.now) 0 ≡ None }
    requires own { at (S.contents store.now) pid ≡ Some process.now }
    ensures { LooksAt (S.contents store.now) pid noted.old noted.new }
{
    if is_blocked(store, pid, process) {
        forget(noted, pid);
    } else {
        note(noted, pid);
    }
}

// Looks at the parent that a status change of the process is reported to.
fn announce<S: ProcStore>(store: &S, noted: &mut NumberSet, pid: u32, process: &Proc)
    requires nobody { at (S.contents store.now) 0 ≡ None }
    requires own { at (S.contents store.now) pid ≡ Some process.now }
    requires blocked { OthersBlocked (S.contents store.now) noted.old pid }
    requires there { OthersAreThere (S.contents store.now) noted.old pid }
    ensures blocked { AllBlocked (S.contents store.now) noted.new }
    ensures there { OthersAreThere (S.contents store.now) noted.new pid }
{
    if let Some(parent) = notified_parent(process) {
        look_at(store, noted, parent);
    }
}

// Looks at the process that the last change was about, if any, but where the next one is about the same.
#[inline(always)]
fn update<S: ProcStore>(store: &S, noted: &mut NumberSet, touched: u32, next: u32)
    requires nobody { at (S.contents store.now) 0 ≡ None }
    requires blocked { OthersBlocked (S.contents store.now) noted.old touched }
    requires there { OthersAreThere (S.contents store.now) noted.old touched }
    ensures blocked { AllBlocked (S.contents store.now) noted.new }
    ensures there { OthersAreThere (S.contents store.now) noted.new next }
{
    if touched != 0 {
        update_touched(store, noted, touched, next);
    }
}

// The same of a change that was about some process.
#[inline(never)]
fn update_touched<S: ProcStore>(store: &S, noted: &mut NumberSet, touched: u32, next: u32)
    requires nobody { at (S.contents store.now) 0 ≡ None }
    requires blocked { OthersBlocked (S.contents store.now) noted.old touched }
    requires there { OthersAreThere (S.contents store.now) noted.old touched }
    ensures blocked { AllBlocked (S.contents store.now) noted.new }
    ensures there { OthersAreThere (S.contents store.now) noted.new next }
{
    match store.get(touched) {
        Some(process) => {
            announce(store, noted, touched, process);
            if touched != next {
                look_at_process(store, noted, touched, process);
            }
        }
        None => forget(noted, touched),
    }
}

impl<S: ProcStore> Candidates<S> {
    /// Looks at the process that the last change was about, which need not be asked again where it is blocked. No process
    /// changes.
    pub fn update(&mut self)
        ensures { self.new ≡ self.old }
    {
        update(&self.store, &mut self.noted, self.touched, 0);
        self.touched = 0;
    }

    /// Whose turn is next, in round robin: the process with the least pid above `last` that can run, else with the least
    /// of all. Only who is noted is asked.
    pub fn next_runner(&self, last: u32) -> Option<Runner>
        requires { IsWorld self.now }
        ensures pid { option_map (λ runner. runner.pid) result ≡ next_of self.now last }
        ensures need { IfSome result (λ runner. runner.need ≡ need_of self.now runner.pid) }
    {
        if halted(&self.store).is_some() {
            return None;
        }
        match waiter(&self.store, self.touched) {
            None => next_in_turn(&self.store, &self.noted, None, last),
            waiter => next_beside_waiter(&self.store, &self.noted, waiter, last),
        }
    }
}

impl<S: ProcStore> ProcStore for Candidates<S> {
    ghost contents = { λ world. world };

    fn new(alloc: Global) -> Result<Self, AllocError> {
        let mut noted = NumberSet::empty();
        noted.insert(INIT);
        Ok(Candidates {
            store: S::new(alloc)?,
            noted,
            touched: INIT,
        })
    }

    fn get(&self, pid: u32) -> Option<&Proc> {
        self.store.get(pid)
    }

    fn body_mut(&mut self, pid: u32) -> Option<&mut Body> {
        update(&self.store, &mut self.noted, self.touched, pid);
        self.touched = pid;
        note(&mut self.noted, self.touched);
        match self.store.body_mut(pid) {
            Some(body) => Some(body),
            None => None,
        }
    }

    fn relink(&mut self, pid: u32, links: Links) -> bool {
        let former = parent_of(&self.store, pid);
        update(&self.store, &mut self.noted, self.touched, links.parent);
        note(&mut self.noted, links.parent);
        self.touched = links.parent;
        let is_there = self.store.relink(pid, links);
        look_at(&self.store, &mut self.noted, former);
        is_there
    }

    fn insert(&mut self, pid: u32, proc: Proc) {
        let parent = proc.links.parent;
        update(&self.store, &mut self.noted, self.touched, pid);
        note(&mut self.noted, pid);
        self.touched = pid;
        self.store.insert(pid, proc);
        look_at(&self.store, &mut self.noted, parent);
    }

    fn remove(&mut self, pid: u32) -> bool {
        let parent = parent_of(&self.store, pid);
        update(&self.store, &mut self.noted, self.touched, parent);
        note(&mut self.noted, parent);
        forget(&mut self.noted, pid);
        self.touched = parent;
        self.store.remove(pid)
    }

    fn next_child(&self, parent: u32, after: u32) -> Option<u32> {
        self.store.next_child(parent, after)
    }

    fn next_member(&self, group: u32, after: u32) -> Option<u32> {
        self.store.next_member(group, after)
    }

    fn next_pid(&self, after: u32) -> Option<u32> {
        self.store.next_pid(after)
    }

    fn used(&self, number: u32) -> bool {
        self.store.used(number)
    }

    fn count(&self) -> usize {
        self.store.count()
    }

    fn last(&self) -> u32 {
        self.store.last()
    }

    fn fresh(&self) -> u32 {
        self.store.fresh()
    }
}
