//! Counts of the numbers in use, kept as processes come and go.
ghost use Rattle.std.specs.Prelude.{◌≡◌, ℕ, ◌+◌, ◌<◌, ◌≤◌, ◌==◌, nat_lt, slice_index, IfOk, IsTrue};
ghost use Rattle.sk_world.specs.declared.process.TheConstants.{LAST_PID};
ghost use Rattle.sk_world.specs.Rules.{is_within};
ghost use Rattle.sk_table.specs.Weights.{one, weight};

use crate::numbering::Numbers;
use sk_world::{Links, NUMBERS};
use std::alloc::{AllocError, Global};
use std::marker::Model;

/// How often each number is the pid, the group or the session of a process.
#[derive(Drop)]
pub struct Uses {
    // The count of each number, from 0 on.
    counts: Vec<u16>,
}

/// The counts of the numbers from 0 on.
impl Model for Uses {
    ghost use Rattle.std.specs.Prelude.{◌≡◌, ℕ, List, length};
    ghost use Rattle.std.specs.Coded.{coded_list, coded_ℕ};

    ghost Value = { List ℕ };

    ghost coded = { coded_list coded_ℕ };

    ghost view = { λ uses. uses.counts.items };

    ghost invariant = { λ uses. length uses.counts.items ≡ 32768 };
}

impl Uses {
    /// No number is used.
    pub fn new(alloc: Global) -> Result<Uses, AllocError>
        ensures { IfOk result (λ uses. (n : ℕ) → slice_index uses n ≡ 0) }
    {
        Ok(Uses {
            counts: vec![in alloc; 0; NUMBERS as usize]?,
        })
    }

    /// Whether the number is used.
    pub fn has(&self, number: u32) -> bool
        ensures { result ≡ nat_lt 0 (slice_index self.now number) }
    {
        number < NUMBERS && self.counts[number as usize] > 0
    }

    fn add(&mut self, number: u32)
        requires within { number ≤ LAST_PID }
        requires room { slice_index self.old number < 65535 }
        ensures { (n : ℕ) → slice_index self.new n ≡ one (number == n) + slice_index self.old n }
    {
        self.counts[number as usize] += 1;
    }

    fn take(&mut self, number: u32)
        requires some { 0 < slice_index self.old number }
        ensures { (n : ℕ) → one (number == n) + slice_index self.new n ≡ slice_index self.old n }
    {
        self.counts[number as usize] -= 1;
    }

    /// A process comes.
    pub fn enter(&mut self, pid: u32, links: Links)
        requires pid { pid ≤ LAST_PID }
        requires within { IsTrue (is_within links) }
        requires room { (n : ℕ) → slice_index self.old n < 65533 }
        ensures { (n : ℕ) → slice_index self.new n ≡ weight n pid links + slice_index self.old n }
    {
        self.add(pid);
        self.add(links.group);
        self.add(links.session);
    }

    /// A process goes.
    pub fn leave(&mut self, pid: u32, links: Links)
        requires { (n : ℕ) → weight n pid links ≤ slice_index self.old n }
        ensures { (n : ℕ) → weight n pid links + slice_index self.new n ≡ slice_index self.old n }
    {
        self.take(pid);
        self.take(links.group);
        self.take(links.session);
    }
}

/// The numbers with a count.
impl Numbers for Uses {
    ghost use Rattle.std.specs.Prelude.{nat_lt, slice_index};

    ghost used = { λ uses n. nat_lt 0 (slice_index uses n) };

    fn is_used(&self, number: u32) -> bool {
        self.has(number)
    }
}
