//! Where the reading of a sentence stops.
ghost use Rattle.std.specs.Prelude.{◌≡◌, length};
ghost use Rattle.sk_policy_text.specs.Sentences.{ended};
ghost use Rattle.sk_policy_text.specs.Views.{all_seen};

use crate::sentence::Expected;
use crate::word::Word;

/// Why words are no sentence: how many are left, of which the first is the one at which they fail, and what was expected there.
#[derive(Clone, Copy, Debug, PartialEq, Eq)]
pub struct Stop {
    pub left: usize,
    pub expected: Expected,
}

impl Stop {
    /// To stop at the first of these words.
    pub fn at(words: &[Word<'_>], expected: Expected) -> Stop
        ensures left { result.left ≡ length (all_seen words.now) }
        ensures expected { result.expected ≡ expected }
    {
        Stop {
            left: words.len(),
            expected,
        }
    }
}

/// That no word is left.
pub fn ended(words: &[Word<'_>]) -> Result<(), Stop>
    ensures exact { result ≡ ended (all_seen words.now) }
{
    if words.is_empty() {
        Ok(())
    } else {
        Err(Stop::at(words, Expected::End))
    }
}
