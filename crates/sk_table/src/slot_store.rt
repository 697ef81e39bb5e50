//! The store in slots, with the table that leads from a pid to its slot.
ghost use Rattle.std.specs.Prelude.{◌≡◌, ℕ, ◌+◌, ◌<◌, ◌≤◌, ◌==◌, if◌then◌else◌, None, Some, IfSome, IsTrue, vec_len, vec_capacity};
ghost use Rattle.std.specs.Option.{is_some};
ghost use Rattle.sk_world.specs.declared.process.TheConstants.{LAST_PID, PROCESSES};
ghost use Rattle.sk_world.specs.Processes.{count};
ghost use Rattle.sk_world.specs.Rules.{is_within};
ghost use Rattle.sk_world.specs.World.{at, stored};
ghost use Rattle.sk_table.specs.Slots.{slot, children_of, members_of};

use crate::first::first_process;
use crate::index::Index;
use crate::numbering::first_free;
use sk_world::{Body, INIT, Links, NUMBERS, NumberSet, PROCESSES, Proc, ProcStore};
use slab::Slab;
use std::alloc::{AllocError, Global};
use std::marker::Model;

/// Processes in slots that are used again. A process is found by its pid in one step, and what else is asked of
/// the processes is kept beside the slots. `new` alone takes memory.
#[derive(Drop)]
pub struct SlotStore {
    slots: Slab<Proc>,
    // The slot of each pid up to the highest that there was. There is room for all.
    table: Vec<Option<usize>>,
    // The pids that are there.
    present: NumberSet,
    // What leads from parents, groups and numbers in use back to the pids.
    index: Index,
    // The last pid that was given.
    last: u32,
}

/// The processes, with the last pid given, and the slot of each pid.
impl Model for SlotStore {
    ghost use Rattle.sk_table.specs.Slots.{Slotted, slotted_code};

    ghost Value = { Slotted };

    ghost coded = { slotted_code };

    ghost use Rattle.sk_table.specs.SlotView.{slotted_of, IsStore};

    ghost view = { slotted_of };

    ghost invariant = { IsStore };
}

fn slot_in(table: &[Option<usize>], pid: u32) -> Option<usize>
    ensures { result ≡ slot table.now pid }
{
    match table.get(pid as usize) {
        Some(slot) => *slot,
        None => None,
    }
}

// Gives a pid the slot of this index. The place of the pid is made where it is missing.
fn give_slot(table: &mut Vec<Option<usize>>, pid: u32, index: usize)
    requires pid { pid ≤ LAST_PID }
    requires room { LAST_PID < vec_capacity table.old }
    requires narrow { vec_len table.old ≤ LAST_PID + 1 }
    ensures slots { (q : ℕ) → slot table.new.items q ≡ (if q == pid then Some index else slot table.old.items q) }
    ensures room { vec_capacity table.new ≡ vec_capacity table.old }
    ensures narrow { vec_len table.new ≤ LAST_PID + 1 }
{
    let place = pid as usize;
    fill(table, place);
    table[place] = Some(index);
}

// Makes the places up to this one, which have no slot.
fn fill(table: &mut Vec<Option<usize>>, place: usize)
    requires place { place ≤ LAST_PID }
    requires room { LAST_PID < vec_capacity table.old }
    requires narrow { vec_len table.old ≤ LAST_PID + 1 }
    ensures slots { (q : ℕ) → slot table.new.items q ≡ slot table.old.items q }
    ensures there { place < vec_len table.new }
    ensures room { vec_capacity table.new ≡ vec_capacity table.old }
    ensures narrow { vec_len table.new ≤ LAST_PID + 1 }
{
    while table.len() <= place {
        table.push_reserved(None);
    }
}

impl SlotStore {
    /// The slot of the process of this pid.
    pub fn slot_of(&self, pid: u32) -> Option<usize>
        ensures slot { result ≡ slot self.now.table pid }
        ensures there { is_some result ≡ is_some (at self.now.world pid) }
        ensures own { IfSome result (λ i. (other : ℕ) → slot self.now.table other ≡ Some i → other ≡ pid) }
    {
        slot_in(&self.table, pid)
    }

    /// The parent beside each of its children, in rising order.
    pub fn children(&self, parent: u32) -> &[(u32, u32)]
        ensures { result.now ≡ children_of self.now.world parent }
    {
        self.index.children.slice_of(parent)
    }

    /// The group beside each of its members, in rising order.
    pub fn members(&self, group: u32) -> &[(u32, u32)]
        ensures { result.now ≡ members_of self.now.world group }
    {
        self.index.members.slice_of(group)
    }

    // Gives a process that is not there a slot.
    fn put(&mut self, pid: u32, proc: Proc)
        requires within { IsTrue (is_within proc.links) }
        requires room { count self.old.world.procs < PROCESSES }
        requires free { at self.old.world pid ≡ None }
        requires pid { pid ≤ LAST_PID }
        ensures { self.new.world ≡ stored self.old.world pid (Some proc) }
    {
        self.index.enter(pid, proc.links);
        self.present.insert(pid);
        let slot = self.slots.insert_reserved(proc);
        give_slot(&mut self.table, pid, slot);
    }
}

impl ProcStore for SlotStore {
    ghost contents = { λ store. store.world };

    fn new(alloc: Global) -> Result<Self, AllocError> {
        let slots = Slab::with_capacity(alloc, PROCESSES)?;
        let table = Vec::with_capacity(alloc, NUMBERS as usize)?;
        let index = Index::new(alloc)?;
        let mut store = SlotStore {
            slots,
            table,
            present: NumberSet::empty(),
            index,
            last: INIT,
        };
        store.put(INIT, first_process(alloc));
        Ok(store)
    }

    #[inline(always)]
    fn get(&self, pid: u32) -> Option<&Proc> {
        let Some(slot) = slot_in(&self.table, pid) else {
            return None;
        };
        Some(&self.slots[slot])
    }

    #[inline(always)]
    fn body_mut(&mut self, pid: u32) -> Option<&mut Body> {
        let Some(slot) = slot_in(&self.table, pid) else {
            return None;
        };
        Some(&mut self.slots[slot].body)
    }

    fn relink(&mut self, pid: u32, links: Links) -> bool {
        let Some(slot) = slot_in(&self.table, pid) else {
            return false;
        };
        let old = self.slots[slot].links;
        self.index.leave(pid, old);
        self.index.enter(pid, links);
        self.slots[slot].links = links;
        true
    }

    fn insert(&mut self, pid: u32, proc: Proc) {
        self.put(pid, proc);
        self.last = pid;
    }

    fn remove(&mut self, pid: u32) -> bool {
        let Some(slot) = slot_in(&self.table, pid) else {
            return false;
        };
        self.index.leave(pid, self.slots[slot].links);
        let _removed = self.slots.remove(slot);
        self.table[pid as usize] = None;
        self.present.remove(pid);
        true
    }

    fn next_child(&self, parent: u32, after: u32) -> Option<u32> {
        self.index.children.next(parent, after)
    }

    fn next_member(&self, group: u32, after: u32) -> Option<u32> {
        self.index.members.next(group, after)
    }

    fn next_pid(&self, after: u32) -> Option<u32> {
        self.present.next(after)
    }

    fn used(&self, number: u32) -> bool {
        self.index.uses.has(number)
    }

    fn count(&self) -> usize {
        self.slots.len()
    }

    fn last(&self) -> u32 {
        self.last
    }

    fn fresh(&self) -> u32 {
        first_free(&self.index.uses, self.last)
    }
}
