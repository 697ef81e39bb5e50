//! Which word of a call a number was made from, and calls with another word.
ghost use Rattle.std.specs.Prelude.{ℕ, ◌≡◌, ◌+◌, ◌*◌, ◌%◌, ◌^◌, ◌<◌, ◌≤◌, ◌⊎◌, not, Some};
ghost use Rattle.sk_insn.specs.Record.{word_of};
ghost use Rattle.sk_filter.specs.Meaning.{holds};
ghost use Rattle.sk_show.specs.Origins.{HasBits, HasWord, IsOtherWord, IsTurnedByOrder, with_half};

use sk_insn::{Comparison, Record};

/// Some bits of a word of the call's record.
#[derive(Clone, Copy)]
pub struct Origin {
    /// The place of the word in the record, a multiple of 4.
    pub place: u8,
    pub bits: u32,
}

impl Origin {
    /// The call with these bits of the word.
    pub fn with(self, call: &Record, bits: u32) -> Record
        ensures architecture { result.arch ≡ call.now.arch }
        ensures bits { HasBits call.now self bits result }
    {
        let word = word_at(call, self.place);
        with_word(call, self.place, word & !self.bits | bits & self.bits)
    }

    /// A call on which a comparison of these bits with a number may come out in the other way. The registers of the run
    /// say how it came out on this call.
    pub fn turned(self, call: &Record, comparison: Comparison, a: u32, b: u32, held: bool) -> Record
        ensures architecture { result.arch ≡ call.now.arch }
        ensures turned { (bits : ℕ) × HasBits call.now self bits result
            × (IsTurnedByOrder comparison b held → holds comparison bits b ≡ not held) }
    {
        self.with(call, self.turning(comparison, a, b, held))
    }

    // A number on which the comparison with b may come out in the other way.
    fn turning(self, comparison: Comparison, a: u32, b: u32, held: bool) -> u32
        ensures turned { IsTurnedByOrder comparison b held → holds comparison result b ≡ not held }
    {
        let lowest = self.bits & self.bits.wrapping_neg();
        match (comparison, held) {
            (Comparison::Equal | Comparison::GreaterOrEqual, false) | (Comparison::Greater, true) =>
                b,
            (Comparison::Equal, true) => a ^ lowest,
            (Comparison::Greater, false) => b.wrapping_add(1),
            (Comparison::GreaterOrEqual, true) => b.wrapping_sub(1),
            (Comparison::CommonBits, true) => a & !b,
            (Comparison::CommonBits, false) => a | b & b.wrapping_neg(),
        }
    }
}

fn word_at(call: &Record, place: u8) -> u32
    ensures word { place % 4 ≡ 0 → place < 64 → word_of call.now place ≡ Some result }
{
    if place < 64 && place % 4 == 0 {
        call.word(place)
    } else {
        0
    }
}

fn with_word(call: &Record, place: u8, word: u32) -> Record
    ensures architecture { result.arch ≡ call.now.arch }
    ensures word { IsOtherWord place → HasWord call.now place word result }
{
    match place {
        0 => Record { nr: word, ..*call },
        8 | 12 => with_pointer(call, place, word),
        16..=60 => with_argument(call, place, word),
        _ => *call,
    }
}

fn with_pointer(call: &Record, place: u8, word: u32) -> Record
    requires place { (place ≡ 8) ⊎ (place ≡ 12) }
    ensures architecture { result.arch ≡ call.now.arch }
    ensures word { HasWord call.now place word result }
{
    let ip = with_half(call.ip, place, word);
    Record { ip, ..*call }
}

fn with_argument(call: &Record, place: u8, word: u32) -> Record
    requires above { 16 ≤ place }
    requires below { place ≤ 60 }
    ensures architecture { result.arch ≡ call.now.arch }
    ensures word { place % 4 ≡ 0 → HasWord call.now place word result }
{
    let n = (place as usize - 16) / 8;
    let mut args = call.args;
    args[n] = with_half(args[n], place, word);
    Record { args, ..*call }
}

// The number with this lower half for an even word of the record, and with this higher one for an odd word.
fn with_half(number: u64, place: u8, word: u32) -> u64
    ensures half { result ≡ with_half number place word }
{
    if place % 8 == 0 {
        joined(word, (number >> 32) as u32)
    } else {
        joined((number % 0x1_0000_0000) as u32, word)
    }
}

fn joined(low: u32, high: u32) -> u64
    ensures halves { result ≡ low + high * 2 ^ 32 }
{
    u64::from(low) | u64::from(high) << 32
}
