//! Texts, cut at a byte.
ghost use Rattle.std.specs.Prelude.{◌≡◌, ◌==◌, ◌∷◌, count_by};
ghost use Rattle.std.specs.Option.{option_map};
ghost use Rattle.sk_replay.specs.CallWords.{cut_all, cut_at, left_of};

use sk_text::cut;

/// What stands before the first such byte and what behind it, where there is one.
pub(crate) fn cut_at(text: &[u8], byte: u8) -> Option<(&[u8], &[u8])>
    ensures parts { option_map (λ parts. (parts.0.now, parts.1.now)) result ≡ cut_at byte text.now }
{
    let (before, behind) = cut(text, byte);
    if before.len() < text.len() {
        Some((before, behind))
    } else {
        None
    }
}

/// What stands before the first such byte, and behind it what is left of the text.
pub(crate) fn first_piece(text: &[u8], byte: u8) -> (&[u8], Option<&[u8]>)
    ensures piece { cut_all byte text.now ≡ result.0.now ∷ left_of byte (option_map (λ rest. rest.now) result.1) }
{
    match cut_at(text, byte) {
        Some((piece, rest)) => (piece, Some(rest)),
        None => (text, None),
    }
}

/// How many commas stand in a text.
pub(crate) fn commas(text: &[u8]) -> usize
    ensures count { result ≡ count_by (λ b. b == 44) text.now }
{
    text.iter().filter(|byte| **byte == b',').count()
}
