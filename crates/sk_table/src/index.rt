//! The index of a store: children beside parents, members beside groups, and the numbers in use.
ghost use Rattle.std.specs.Prelude.{◌≡◌, ◌<◌, ◌≤◌, None, Some, IfOk, IsTrue};
ghost use Rattle.sk_world.specs.declared.process.Proc.{Proc};
ghost use Rattle.sk_world.specs.declared.process.TheConstants.{LAST_PID, PROCESSES};
ghost use Rattle.sk_world.specs.Processes.{Processes, none, get, store, count};
ghost use Rattle.sk_world.specs.Rules.{is_within};
ghost use Rattle.sk_table.specs.Beside.{IsBeside};

use crate::uses::Uses;
use sk_world::{Links, PairRow};
use std::alloc::{AllocError, Global};

/// What leads from the links of processes back to their pids, and to the numbers that they use.
#[derive(Drop)]
pub(crate) struct Index {
    /// Each process's parent beside its pid.
    pub(crate) children: PairRow,
    /// Each process's group beside its pid.
    pub(crate) members: PairRow,
    /// How often each number is used.
    pub(crate) uses: Uses,
}

impl Index {
    /// Of no process.
    #[tactic(auto, using(crate::proofs::Indexing::nothing_beside))]
    pub(crate) fn new(alloc: Global) -> Result<Index, AllocError>
        ensures { IfOk result (λ index. IsBeside none index.children index.members index.uses) }
    {
        let children = PairRow::new(alloc)?;
        let members = PairRow::new(alloc)?;
        let uses = Uses::new(alloc)?;
        Ok(Index {
            children,
            members,
            uses,
        })
    }

    /// A process comes.
    pub(crate) fn enter(&mut self, pid: u32, links: Links)
        requires pid { pid ≤ LAST_PID }
        requires within { IsTrue (is_within links) }
        requires free { (procs : Processes) × IsBeside procs self.old.children self.old.members self.old.uses
            × (get procs pid ≡ None) × (count procs < PROCESSES) }
        ensures { (procs : Processes) (p : Proc) → p.links ≡ links → get procs pid ≡ None
            → IsBeside procs self.old.children self.old.members self.old.uses
            → IsBeside (store procs pid (Some p)) self.new.children self.new.members self.new.uses }
    {
        self.children.insert(links.parent, pid);
        self.members.insert(links.group, pid);
        self.uses.enter(pid, links);
    }

    /// A process goes.
    pub(crate) fn leave(&mut self, pid: u32, links: Links)
        requires { (procs : Processes) × (p : Proc) × IsBeside procs self.old.children self.old.members self.old.uses
            × (get procs pid ≡ Some p) × (p.links ≡ links) }
        ensures { (procs : Processes) (p : Proc) → p.links ≡ links → get procs pid ≡ Some p
            → IsBeside procs self.old.children self.old.members self.old.uses
            → IsBeside (store procs pid None) self.new.children self.new.members self.new.uses }
    {
        self.children.remove(links.parent, pid);
        self.members.remove(links.group, pid);
        self.uses.leave(pid, links);
    }
}
