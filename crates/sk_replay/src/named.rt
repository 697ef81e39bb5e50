//! Calls by their names and numbers.
ghost use Rattle.std.specs.Prelude.{◌≡◌, ◌≤◌, IfSome, IfNone};
ghost use Rattle.sk_text.specs.Numbers.{number_of, up_to};
ghost use Rattle.sk_replay.specs.WordCalls.{IsCall, NoCall, begins_with_zero, call_number, nr_of, plain_number};

use sk_names::{Architecture, number};
use sk_text::number_up_to;

/// The number of the call that a word is on an architecture: a name, or a number in decimal without a 0 before it, or `0x`
/// and hexadecimal digits. A number is taken as it is written: on x32 `read` has bit 30, and `0` has not.
pub fn call_named(architecture: Architecture, word: &[u8]) -> Option<u32>
    ensures exact { result ≡ nr_of architecture word.now }
    ensures call { IfSome result (IsCall architecture word.now) }
    ensures none { IfNone result (NoCall architecture word.now) }
{
    match number(architecture, word) {
        Some(nr) => Some(nr),
        None => call_number(word),
    }
}

fn call_number(word: &[u8]) -> Option<u32>
    ensures number { result ≡ call_number word.now }
{
    let number = plain_number(word, u64::from(u32::MAX))?;
    Some(number as u32)
}

/// The number that a word is, where it is one and at most `most`, and no 0 stands before it.
#[tactic(auto, unfolding(crate::specs::WordCalls::plain_number))]
pub fn plain_number(word: &[u8], most: u64) -> Option<u64>
    ensures number { result ≡ plain_number most word.now }
    ensures bound { IfSome result (λ number. number ≤ most) }
{
    if begins_with_zero(word) {
        return None;
    }
    number_up_to(word, most)
}

fn begins_with_zero(word: &[u8]) -> bool
    ensures zero { result ≡ begins_with_zero word.now }
{
    match word {
        [first, second, ..] => *first == b'0' && *second != b'x',
        _ => false,
    }
}
