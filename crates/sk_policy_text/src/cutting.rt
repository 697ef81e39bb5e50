//! A line of a policy's text, cut into its words.
ghost use Rattle.std.specs.Prelude.{◌≡◌, ◌==◌, ◌<◌, ◌≤◌, ◌∷◌, [], length, take, drop, false};
ghost use Rattle.std.specs.Iterator.{YieldsFirstRef, item_count};
ghost use Rattle.sk_policy_text.specs.Words.{is_blank, is_letter_or_digit, is_word_byte, is_pair, goes_on, begins_blank, words_behind};

/// The words of a line that has no remark.
#[derive(Drop)]
pub struct LineWords<'a>(pub &'a [u8]);

impl<'a> Iterator for LineWords<'a> {
    type Item = &'a [u8];

    ghost next_gives = { YieldsFirstRef (λ s. words_behind [] s.0.now) };

    ghost remaining = { item_count (λ s. words_behind [] s.0.now) };

    fn next(&mut self) -> Option<&'a [u8]> {
        let words = without_blanks(self.0);
        if words.is_empty() {
            self.0 = words;
            return None;
        }
        let (word, rest) = words.split_at(end_of_word(words));
        self.0 = rest;
        Some(word)
    }
}

// What stands behind the blanks at the beginning of a line.
#[tactic(auto, using(crate::proofs::Cuts::blank_parts))]
fn without_blanks(line: &[u8]) -> &[u8]
    ensures same { words_behind [] result.now ≡ words_behind [] line.now }
    ensures first { begins_blank result.now ≡ false }
{
    let mut rest = line;
    while let Some((byte, behind)) = rest.split_first() {
        if !is_blank(*byte) {
            return rest;
        }
        rest = behind;
    }
    rest
}

/// Whether a blank stands at the beginning.
pub fn begins_blank(line: &[u8]) -> bool
    ensures blank { result ≡ begins_blank line.now }
{
    match line.split_first() {
        Some((byte, _)) => is_blank(*byte),
        None => false,
    }
}

// Where the first word of a line ends.
#[tactic(auto, using(crate::proofs::Cuts::word_begins))]
fn end_of_word(line: &[u8]) -> usize
    requires some { 0 < length line.now }
    requires first { begins_blank line.now ≡ false }
    ensures within { result ≤ length line.now }
    ensures word { words_behind [] line.now ≡ take result line.now ∷ words_behind [] (drop result line.now) }
{
    let mut end = 1;
    while end < line.len() && goes_on(&line[..end], line[end]) {
        end += 1;
    }
    end
}

// Whether a word goes on with a byte.
#[tactic(auto, unfolding(crate::specs::Words::goes_on))]
fn goes_on(word: &[u8], byte: u8) -> bool
    ensures goes_on { result ≡ goes_on word.now byte }
{
    match word.split_first() {
        Some((first, rest)) => {
            (is_word_byte(*first) && is_word_byte(byte))
                || (rest.is_empty() && is_pair(*first, byte))
        }
        None => false,
    }
}

#[tactic(auto, unfolding(crate::specs::Words::is_blank))]
fn is_blank(byte: u8) -> bool
    ensures blank { result ≡ is_blank byte }
{
    matches!(byte, b' ' | b'\t' | b'\r')
}

#[tactic(auto, unfolding(crate::specs::Words::is_letter_or_digit))]
fn is_letter_or_digit(byte: u8) -> bool
    ensures kind { result ≡ is_letter_or_digit byte }
{
    matches!(byte, b'a'..=b'z' | b'A'..=b'Z' | b'0'..=b'9')
}

#[tactic(auto, unfolding(crate::specs::Words::is_word_byte))]
fn is_word_byte(byte: u8) -> bool
    ensures kind { result ≡ is_word_byte byte }
{
    is_letter_or_digit(byte) || matches!(byte, b'_' | b'/' | b'[' | b']' | b'-' | b'.')
}

#[tactic(auto, unfolding(crate::specs::Words::is_pair))]
fn is_pair(first: u8, second: u8) -> bool
    ensures pair { result ≡ is_pair first second }
{
    (first == second && matches!(first, b'&' | b'|' | b'='))
        || (second == b'=' && matches!(first, b'!' | b'<' | b'>'))
}
