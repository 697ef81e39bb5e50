//! How many words are read.
ghost use Rattle.std.specs.Prelude.{◌≡◌, ◌+◌, ◌<◌, IfNone, IfSome};
ghost use Rattle.sk_policy_text.specs.PolicyRows.{sentences_of};
ghost use Rattle.sk_policy_text.specs.PolicySizes.{words_below};

use crate::sentence::Sentence;
use crate::stated::Stated;

/// What is left of so many words behind those of the conditions of the cases that a text begins with, if they are enough.
pub fn behind_words(most: usize, text: &[Stated<'_>]) -> Option<usize>
    ensures left { IfSome result (λ left. left + words_below (sentences_of text.now) ≡ most) }
    ensures none { IfNone result (most < words_below (sentences_of text.now)) }
{
    let mut room = most;
    let (_, mut left) = text.split_at(0);
    while let Some((first, rest)) = left.split_first() {
        let Sentence::Case(_, words) = &first.sentence else {
            return Some(room);
        };
        room = room.checked_sub(words.len())?;
        left = rest;
    }
    Some(room)
}
