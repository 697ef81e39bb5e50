//! Sets of numbers as bits, with two levels of bits above that tell where there are members.
ghost use Rattle.std.specs.Prelude.{◌≡◌, ℕ, List, [], length, ◌+◌, ◌/◌, ◌^◌, ◌<◌, ◌≤◌, ◌==◌, ◌||◌, ◌&&◌, not, IfSome, IfNone};
ghost use Rattle.std.specs.Int.{bit_at};
ghost use Rattle.sk_world.specs.NumberSets.{contains, has_bit, IsLeast, IsLeastAbove, IsLeastFrom};
ghost use Rattle.sk_world.specs.Summary.{IsMarked};

use std::marker::Model;

/// How many numbers can be members: those below this one.
pub const NUMBERS: u32 = 32768;

// How many words there are, each with the bits of 64 numbers.
const WORDS: usize = 512;

// How many words have the bits of all words.
const GROUPS: usize = 8;

/// A set of numbers below `NUMBERS`, in place: it takes no memory beside its own 4168 bytes. The next member is
/// found in a fixed number of steps, however far it is.
#[derive(Drop)]
pub struct NumberSet {
    // Bit `n % 64` of `words[n / 64]` says whether the number `n` is a member.
    words: [u64; WORDS],
    // Bit `i % 64` of `inhabited[i / 64]` says whether `words[i]` has a member.
    inhabited: [u64; GROUPS],
    // Bit `i` says whether `inhabited[i]` has a bit.
    groups: u64,
}

/// The members, in rising order.
impl Model for NumberSet {
    ghost use Rattle.std.specs.Prelude.{ℕ, List};
    ghost use Rattle.std.specs.Coded.{coded_list, coded_ℕ};
    ghost use Rattle.sk_world.specs.NumberSets.{members_of};
    ghost use Rattle.sk_world.specs.Summary.{IsSummed, IsMarked};

    ghost Value = { List ℕ };

    ghost coded = { coded_list coded_ℕ };

    ghost view = { λ s. members_of s.words };

    ghost invariant = { λ s. IsSummed s.words s.inhabited × IsMarked s.inhabited s.groups };
}

impl NumberSet {
    /// The set with no member.
    pub fn empty() -> NumberSet
        ensures { result ≡ [] }
    {
        NumberSet {
            words: [0; WORDS],
            inhabited: [0; GROUPS],
            groups: 0,
        }
    }

    /// Makes the number a member.
    pub fn insert(&mut self, number: u32)
        requires { number < NUMBERS }
        ensures { (n : ℕ) → contains self.new n ≡ ((n == number) || contains self.old n) }
    {
        let index = number / 64;
        self.words[index as usize] |= 1 << (number % 64);
        self.inhabited[(index / 64) as usize] |= 1 << (index % 64);
        self.groups |= 1 << (index / 64);
    }

    /// Takes the number out, if it is a member.
    pub fn remove(&mut self, number: u32)
        requires { number < NUMBERS }
        ensures { (n : ℕ) → contains self.new n ≡ (not (n == number) && contains self.old n) }
    {
        let index = number / 64;
        self.words[index as usize] &= !(1 << (number % 64));
        if self.words[index as usize] == 0 {
            self.inhabited[(index / 64) as usize] &= !(1 << (index % 64));
            if self.inhabited[(index / 64) as usize] == 0 {
                self.groups &= !(1 << (index / 64));
            }
        }
    }

    /// Whether the number is a member.
    pub fn contains(&self, number: u32) -> bool
        ensures { result ≡ contains self.now number }
    {
        number < NUMBERS && (self.words[(number / 64) as usize] >> (number % 64)) & 1 == 1
    }

    /// The least member.
    pub fn first(&self) -> Option<u32>
        ensures least { IsLeast (contains self.now) result }
        ensures within { IfSome result (λ n. n < NUMBERS) }
    {
        self.from(0)
    }

    /// The least member above `after`.
    pub fn next(&self, after: u32) -> Option<u32>
        ensures next { IsLeastAbove (contains self.now) after result }
        ensures within { IfSome result (λ n. n < NUMBERS) }
    {
        self.from(after.saturating_add(1))
    }

    // The least member that is not below `start`.
    fn from(&self, start: u32) -> Option<u32>
        ensures least { IsLeastFrom (contains self.now) start result }
        ensures within { IfSome result (λ n. n < NUMBERS) }
    {
        let index = start / 64;
        let word = *self.words.get(index as usize)?;
        if let Some(bit) = lowest_from(word, start % 64) {
            return Some(index * 64 + bit);
        }
        let index = least_from(&self.inhabited, self.groups, index + 1)?;
        let bit = lowest_from(self.words[index as usize], 0)?;
        Some(index * 64 + bit)
    }
}

// The least bit of these words that is set and not below `start`.
fn least_from(words: &[u64], marks: u64, start: u32) -> Option<u32>
    requires long { length words.now ≡ 8 }
    requires marked { IsMarked words.now marks }
    requires start { start ≤ 512 }
    ensures least { IsLeastFrom (has_bit words.now) start result }
    ensures within { IfSome result (λ n. n < 512) }
{
    let index = start / 64;
    let word = *words.get(index as usize)?;
    if let Some(bit) = lowest_from(word, start % 64) {
        return Some(index * 64 + bit);
    }
    let index = lowest_from(marks, index + 1)?;
    let bit = lowest_from(words[index as usize], 0)?;
    Some(index * 64 + bit)
}

// The lowest bit that is set, from `first` on.
fn lowest_from(word: u64, first: u32) -> Option<u32>
    requires { first < 64 }
    ensures found { IfSome result (λ bit. (first ≤ bit) × (bit < 64) × (bit_at word bit ≡ 1) × ((i : ℕ) → first ≤ i → i < bit → bit_at word i ≡ 0)) }
    ensures none { IfNone result ((i : ℕ) → first ≤ i → bit_at word i ≡ 0) }
    ensures rest { IfNone result (word / 2 ^ first ≡ 0) }
{
    let rest = word >> first;
    if rest == 0 {
        return None;
    }
    Some(first + rest.trailing_zeros())
}
