//! Lines and words, cut from a text one after the other.
ghost use Rattle.std.specs.Prelude.{◌≡◌, ◌==◌, ◌≤◌, length};
ghost use Rattle.std.specs.Iterator.{YieldsFirstRef, item_count};
ghost use Rattle.std.specs.List.{before_first, after_first, list_all, position_or_len};
ghost use Rattle.sk_text.specs.Lines.{lines_of, words_of, is_printable_byte, begins_comment};

/// The lines of a text. The last one may lack its end, and an empty rest is no line.
#[derive(Drop)]
pub struct Lines<'a>(pub &'a [u8]);

impl<'a> Iterator for Lines<'a> {
    type Item = &'a [u8];

    ghost next_gives = { YieldsFirstRef (λ s. lines_of s.0.now) };

    ghost remaining = { item_count (λ s. lines_of s.0.now) };

    #[inline(always)]
    #[tactic(auto, using(crate::proofs::Cuts::lines_first, crate::proofs::Cuts::lines_none))]
    fn next(&mut self) -> Option<&'a [u8]> {
        if self.0.is_empty() {
            return None;
        }
        let (line, rest) = cut(self.0, b'\n');
        self.0 = rest;
        Some(line)
    }
}

/// The words of a line: what stands between its spaces, and is not empty.
#[derive(Drop)]
pub struct Words<'a>(pub &'a [u8]);

impl<'a> Iterator for Words<'a> {
    type Item = &'a [u8];

    ghost next_gives = { YieldsFirstRef (λ s. words_of s.0.now) };

    ghost remaining = { item_count (λ s. words_of s.0.now) };

    #[tactic(auto, using(crate::proofs::Cuts::words_take, crate::proofs::Cuts::words_skip, crate::proofs::Cuts::words_none))]
    fn next(&mut self) -> Option<&'a [u8]> {
        while !self.0.is_empty() {
            let (word, rest) = cut(self.0, b' ');
            self.0 = rest;
            if !word.is_empty() {
                return Some(word);
            }
        }
        None
    }
}

/// What stands before the first such byte, and what stands after it; all and nothing where there is
/// none.
pub fn cut(text: &[u8], byte: u8) -> (&[u8], &[u8])
    ensures front { result.0.now ≡ before_first (λ b. b == byte) text.now }
    ensures back { result.1.now ≡ after_first (λ b. b == byte) text.now }
{
    let at = place_of(text, byte);
    if at < text.len() {
        (&text[..at], &text[at + 1..])
    } else {
        (text, &[])
    }
}

// The place of the first such byte, or the length where there is none.
fn place_of(text: &[u8], byte: u8) -> usize
    ensures within { result ≤ length text.now }
    ensures first { result ≡ position_or_len (λ b. b == byte) text.now }
{
    for (at, b) in text.iter().enumerate() {
        if *b == byte {
            return at;
        }
    }
    text.len()
}

/// Whether a line is made of visible ASCII characters and spaces alone.
#[tactic(auto, unfolding(crate::specs::Lines::is_printable_byte))]
pub fn is_printable(line: &[u8]) -> bool
    ensures every { result ≡ list_all is_printable_byte line.now }
{
    line.iter().all(|byte| matches!(*byte, 0x20..=0x7e))
}

/// Whether a line says nothing: it has no word, or its first word begins a comment.
pub fn is_passed_over(line: &[u8]) -> bool
    ensures comment { result ≡ begins_comment (words_of line.now) }
{
    match Words(line).next() {
        Some(word) => word.first() == Some(&b';'),
        None => true,
    }
}
