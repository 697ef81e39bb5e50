//! The lines of a block, which the line `end` ends, or of a whole text.
ghost use Rattle.std.specs.Prelude.{◌≡◌, ◌∷◌, [], MatchOption};
ghost use Rattle.sk_asm.specs.Block.{are_end, is_end, lines_in};
ghost use Rattle.sk_text.specs.Lines.{words_of};

use crate::parse::LONGEST_LINE;
use sk_text::{Lines, Words, is_same};

// Cuts off the next line of a block, or of a whole text.
pub(crate) fn next_line<'a>(lines: &mut Lines<'a>, is_block: bool) -> Option<&'a [u8]>
    ensures next { MatchOption result
        (lines_in is_block lines.old.0.now ≡ [])
        (λ line. lines_in is_block lines.old.0.now ≡ line.now ∷ lines_in is_block lines.new.0.now) }
{
    let line = lines.next()?;
    if is_block && is_end(line) {
        return None;
    }
    Some(line)
}

/// Whether a line ends a block.
#[tactic(auto, unfolding(crate::specs::Block::is_end))]
pub fn is_end(line: &[u8]) -> bool
    ensures end { result ≡ is_end line.now }
{
    line.len() <= LONGEST_LINE && are_end(Words(line))
}

fn are_end(mut words: Words<'_>) -> bool
    ensures end { result ≡ are_end (words_of words.entry.0.now) }
{
    match words.next() {
        Some(word) => is_same(word, b"end") && words.next().is_none(),
        None => false,
    }
}
