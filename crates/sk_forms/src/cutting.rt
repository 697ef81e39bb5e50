//! A text cut into words.
ghost use Rattle.std.specs.Prelude.{◌≡◌, ◌==◌, ◌<◌, ◌≤◌, ◌∷◌, [], length, take, drop, false};
ghost use Rattle.std.specs.Iterator.{YieldsFirstRef, item_count};
ghost use Rattle.sk_forms.specs.Words.{is_blank, is_word_byte, goes_on, begins_blank, words_behind};

/// The words of a text.
#[derive(Drop)]
pub struct TextWords<'a>(pub &'a [u8]);

impl<'a> Iterator for TextWords<'a> {
    type Item = &'a [u8];

    ghost next_gives = { YieldsFirstRef (λ s. words_behind [] s.0.now) };

    ghost remaining = { item_count (λ s. words_behind [] s.0.now) };

    fn next(&mut self) -> Option<&'a [u8]> {
        let words = without_blanks(self.0);
        if words.is_empty() {
            self.0 = words;
            return None;
        }
        let (word, rest) = words.split_at(end_of_word(words));
        self.0 = rest;
        Some(word)
    }
}

// What stands behind the blanks at the beginning of a text.
#[tactic(auto, using(crate::proofs::Cuts::blank_parts))]
fn without_blanks(text: &[u8]) -> &[u8]
    ensures same { words_behind [] result.now ≡ words_behind [] text.now }
    ensures first { begins_blank result.now ≡ false }
{
    let mut rest = text;
    while let Some((byte, behind)) = rest.split_first() {
        if !is_blank(*byte) {
            return rest;
        }
        rest = behind;
    }
    rest
}

// Where the first word of a text ends.
#[tactic(auto, using(crate::proofs::Cuts::word_begins))]
fn end_of_word(text: &[u8]) -> usize
    requires some { 0 < length text.now }
    requires first { begins_blank text.now ≡ false }
    ensures within { result ≤ length text.now }
    ensures word { words_behind [] text.now ≡ take result text.now ∷ words_behind [] (drop result text.now) }
{
    let mut end = 1;
    while end < text.len() && goes_on(&text[..end], text[end]) {
        end += 1;
    }
    end
}

// Whether a word goes on with a byte.
#[tactic(auto, unfolding(crate::specs::Words::goes_on))]
fn goes_on(word: &[u8], byte: u8) -> bool
    ensures goes_on { result ≡ goes_on word.now byte }
{
    match word.split_first() {
        Some((first, _)) => is_word_byte(*first) && is_word_byte(byte),
        None => false,
    }
}

/// Whether a byte parts words, and is none.
#[tactic(auto, unfolding(crate::specs::Words::is_blank))]
pub(crate) fn is_blank(byte: u8) -> bool
    ensures blank { result ≡ is_blank byte }
{
    matches!(byte, b' ' | b'\t' | b'\r')
}

/// Whether a byte stands in names and numbers.
#[tactic(auto, unfolding(crate::specs::Words::is_word_byte))]
pub(crate) fn is_word_byte(byte: u8) -> bool
    ensures kind { result ≡ is_word_byte byte }
{
    matches!(byte, b'a'..=b'z' | b'A'..=b'Z' | b'0'..=b'9' | b'_')
}
