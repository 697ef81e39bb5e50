//! What every store of processes does, with the contract of each of its functions.
ghost use Rattle.std.specs.Prelude.{◌≡◌, ℕ, ◌<◌, ◌≤◌, None, Some, IfSome, IfNone, OnSome, IfOk, IsTrue, IsFalse};
ghost use Rattle.std.specs.Option.{is_some};
ghost use Rattle.std.specs.Borrow.{LendsSo, sem};
ghost use Rattle.sk_world.specs.contracts.process.Body.{the_row};
ghost use Rattle.sk_world.specs.declared.process.TheConstants.{LAST_PID, PROCESSES};
ghost use Rattle.sk_world.specs.declared.process.Proc.{Proc};
ghost use Rattle.sk_world.specs.Processes.{count};
ghost use Rattle.sk_world.specs.World.{World, at, stored, with_body, with_links, inserted, opening, is_child_of, is_member_of, IsNext};
ghost use Rattle.sk_world.specs.Rules.{is_within};
ghost use Rattle.sk_world.specs.Numbers.{is_used, fresh_of};

use crate::process::{Body, Links, Proc};
use std::alloc::{AllocError, Global};

/// A store of the processes of a world: a finite map from pids to processes, with the last pid that
/// was given. `new` alone takes memory.
pub trait ProcStore: Drop {
    ghost contents: { Self → World };

    /// The world as the system starts, with room for `PROCESSES`.
    fn new(alloc: Global) -> Result<Self, AllocError>
        ensures opening { IfOk result (λ store. contents store ≡ opening) };

    /// The process of this pid.
    fn get(&self, pid: u32) -> Option<&Proc>
        ensures there { IfSome result (λ p. at (contents self.now) pid ≡ Some p.now) }
        ensures absent { IfNone result (at (contents self.now) pid ≡ None) };

    /// What belongs to the process alone, to be changed.
    fn body_mut(&mut self, pid: u32) -> Option<&mut Body>
        ensures* writes_back { sem 𝓛 (LendsSo Self.row the_row self.entry result
            (λ after body. OnSome result (contents after ≡ with_body (contents self.old) pid body))
            (λ after. contents after ≡ contents self.old)) }
        ensures there { IfSome result (λ b. (p : Proc) × (at (contents self.old) pid ≡ Some p) × (p.body ≡ b.now)) }
        ensures absent { IfNone result (at (contents self.old) pid ≡ None) };

    /// Gives the process other links. False where it is not there.
    fn relink(&mut self, pid: u32, links: Links) -> bool
        requires within { IsTrue (is_within links) }
        ensures found { result ≡ is_some (at (contents self.old) pid) }
        ensures links { contents self.new ≡ with_links (contents self.old) pid links };

    /// Puts a new process in. Its pid is the last one given from now on.
    fn insert(&mut self, pid: u32, proc: Proc)
        requires within { IsTrue (is_within proc.links) }
        requires room { count (contents self.old).procs < PROCESSES }
        requires free { at (contents self.old) pid ≡ None }
        requires pid { (2 ≤ pid) × (pid ≤ LAST_PID) }
        ensures inserted { contents self.new ≡ inserted (contents self.old) pid proc };

    /// Takes the process out. False where it is not there.
    fn remove(&mut self, pid: u32) -> bool
        ensures found { result ≡ is_some (at (contents self.old) pid) }
        ensures rest { contents self.new ≡ stored (contents self.old) pid None };

    /// The least pid above `after` of a child of `parent`.
    fn next_child(&self, parent: u32, after: u32) -> Option<u32>
        ensures next { IsNext (λ pid. is_child_of parent (at (contents self.now) pid)) after result };

    /// The least pid above `after` of a process of the group.
    fn next_member(&self, group: u32, after: u32) -> Option<u32>
        ensures next { IsNext (λ pid. is_member_of group (at (contents self.now) pid)) after result };

    /// The least pid above `after`.
    fn next_pid(&self, after: u32) -> Option<u32>
        ensures next { IsNext (λ pid. is_some (at (contents self.now) pid)) after result };

    /// Whether the number is the pid, the group or the session of a process.
    fn used(&self, number: u32) -> bool
        ensures used { result ≡ is_used (contents self.now) number };

    /// How many processes there are, zombies counted.
    fn count(&self) -> usize
        ensures count { result ≡ count (contents self.now).procs };

    /// The last pid that was given.
    fn last(&self) -> u32
        ensures last { result ≡ (contents self.now).last };

    /// The pid of the next child, in every case determined by the processes and the last pid given: the next
    /// number after that one, round in 2 to 32767, that nobody has as a pid, a group or a session. Where there
    /// is room for one process more, it is free.
    fn fresh(&self) -> u32
        ensures fresh { result ≡ fresh_of (contents self.now) }
        ensures free { count (contents self.now).procs < PROCESSES → IsFalse (is_used (contents self.now) result) }
        ensures absent { count (contents self.now).procs < PROCESSES → at (contents self.now) result ≡ None }
        ensures fits { (2 ≤ result) × (result ≤ LAST_PID) };
}
