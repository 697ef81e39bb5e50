//! Numbers in octal, as C and strace(1) write modes.
ghost use Rattle.std.specs.Prelude.{◌≡◌};
ghost use Rattle.sk_replay.specs.CallWords.{octal_number};

use crate::digits::digits_up_to;

/// The number that the digits behind a 0 write.
#[tactic(auto, unfolding(crate::specs::CallWords::octal_number))]
pub(crate) fn octal_number(word: &[u8]) -> Option<u64>
    ensures number { result ≡ octal_number word.now }
{
    if word.starts_with(b"0") {
        digits_up_to(&word[1..], 8, u64::MAX)
    } else {
        None
    }
}
