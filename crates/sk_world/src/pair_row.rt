//! Rows of pairs of numbers, looked up by the first number of each.
ghost use Rattle.std.specs.Prelude.{◌≡◌, ℕ, ◌+◌, ◌<◌, ◌≤◌, ◌==◌, ◌&&◌, ◌||◌, nat_lt, nat_le, true, false, not, slice_index_or, length, filter, vec_len, IfOk, IsTrue, IsFalse, []};
ghost use Rattle.sk_world.specs.NumberSets.{IsLeastAbove};
ghost use Rattle.sk_world.specs.Pairs.{has_pair, is_rising, below};

use std::alloc::{AllocError, Global};
use std::marker::Model;

/// The most pairs that there is room for.
pub const PAIRS: usize = 1024;

/// Pairs of numbers in rising order, each once. `new` alone takes memory.
#[derive(Drop)]
pub struct PairRow {
    pairs: Vec<(u32, u32)>,
}

impl Model for PairRow {
    ghost use Rattle.std.specs.Prelude.{ℕ, List};
    ghost use Rattle.std.specs.Coded.{coded×, coded_list, coded_ℕ};

    ghost Value = { List (ℕ × ℕ) };

    ghost coded = { coded_list (coded× coded_ℕ coded_ℕ) };

    ghost use Rattle.sk_world.specs.RowView.{pairs_of, IsKept};

    ghost view = { pairs_of };

    ghost invariant = { IsKept };
}

impl PairRow {
    /// No pair, with room for `PAIRS`.
    pub fn new(alloc: Global) -> Result<PairRow, AllocError>
        ensures { IfOk result (λ row. row ≡ []) }
    {
        Ok(PairRow {
            pairs: Vec::with_capacity(alloc, PAIRS)?,
        })
    }

    /// Puts the pair in.
    pub fn insert(&mut self, first: u32, second: u32)
        requires absent { IsFalse (has_pair self.old first second) }
        requires room { length self.old < PAIRS }
        ensures pairs { (a b : ℕ) → has_pair self.new a b ≡ (((first == a) && (second == b)) || has_pair self.old a b) }
        ensures len { length self.new ≡ length self.old + 1 }
        ensures rising { IsTrue (is_rising self.new) }
    {
        let place = place(&self.pairs, first, second);
        if self.pairs.insert(place, (first, second)).is_err() {
            unreachable!();
        }
    }

    /// Takes the pair out.
    pub fn remove(&mut self, first: u32, second: u32)
        requires there { IsTrue (has_pair self.old first second) }
        ensures pairs { (a b : ℕ) → has_pair self.new a b ≡ (not ((first == a) && (second == b)) && has_pair self.old a b) }
        ensures len { length self.new + 1 ≡ length self.old }
        ensures rising { IsTrue (is_rising self.new) }
    {
        let place = place(&self.pairs, first, second);
        let _removed = self.pairs.remove(place);
    }

    /// The pairs with this first number.
    pub fn slice_of(&self, first: u32) -> &[(u32, u32)]
        ensures pairs { result.now ≡ filter (λ pair. pair.0 == first) self.now }
        ensures rising { IsTrue (is_rising self.now) }
    {
        let pairs = self.pairs.as_slice();
        let start = pairs.partition_point(
            |pair: &(u32, u32)| -> bool
                ensures { result ≡ nat_lt pair.now.0 first }
            { pair.0 < first },
        );
        let end = pairs.partition_point(
            |pair: &(u32, u32)| -> bool
                ensures { result ≡ nat_le pair.now.0 first }
            { pair.0 <= first },
        );
        &pairs[start..end]
    }

    /// The least number above `after` that stands beside this first number.
    pub fn next(&self, first: u32, after: u32) -> Option<u32>
        ensures next { IsLeastAbove (has_pair self.now first) after result }
    {
        let pairs = self.pairs.as_slice();
        let place = pairs.partition_point(
            |pair: &(u32, u32)| -> bool
                ensures { result ≡ (nat_lt pair.now.0 first || ((pair.now.0 == first) && nat_le pair.now.1 after)) }
            { pair.0 < first || (pair.0 == first && pair.1 <= after) },
        );
        if place == pairs.len() {
            return None;
        }
        let (found, second) = pairs[place];
        if found == first { Some(second) } else { None }
    }
}

// How many pairs come before this one.
fn place(pairs: &[(u32, u32)], first: u32, second: u32) -> usize
    requires { IsTrue (is_rising pairs.now) }
    ensures within { result ≤ length pairs.now }
    ensures before { (k : ℕ) → k < result → below (slice_index_or pairs.now k (0, 0)) (first, second) ≡ true }
    ensures after { (k : ℕ) → result ≤ k → k < length pairs.now → below (slice_index_or pairs.now k (0, 0)) (first, second) ≡ false }
{
    pairs.partition_point(
        |pair: &(u32, u32)| -> bool
            ensures { result ≡ below pair.now (first, second) }
        { pair.0 < first || (pair.0 == first && pair.1 < second) },
    )
}
