//! What a word may be, and how many words there are.
ghost use Rattle.std.specs.Prelude.{◌≡◌};
ghost use Rattle.std.specs.Option.{option_map};
ghost use Rattle.std.specs.List.{list_all};
ghost use Rattle.std.specs.Str.{bytes_eq};
ghost use Rattle.sk_text.specs.Lines.{words_of};
ghost use Rattle.sk_text.specs.Words.{is_name, is_name_byte, is_letter, none_of, one_of, two_of, three_of, four_of};

use crate::lines::Words;

/// Whether the bytes are the others.
pub fn is_same(bytes: &[u8], others: &[u8]) -> bool
    ensures same { result ≡ bytes_eq bytes.now others.now }
{
    bytes == others
}

/// Whether a word is a name.
#[tactic(auto, unfolding(crate::specs::Words::is_name))]
pub fn is_name(word: &[u8]) -> bool
    ensures name { result ≡ is_name word.now }
{
    match word.split_first() {
        Some((first, rest)) => is_letter(*first) && rest.len() < 32 && are_name_bytes(rest),
        None => false,
    }
}

fn are_name_bytes(bytes: &[u8]) -> bool
    ensures every { result ≡ list_all is_name_byte bytes.now }
{
    bytes.iter().all(|byte| is_name_byte(*byte))
}

#[tactic(auto, unfolding(crate::specs::Words::is_name_byte))]
fn is_name_byte(byte: u8) -> bool
    ensures kind { result ≡ is_name_byte byte }
{
    is_letter(byte) || matches!(byte, b'0'..=b'9' | b'_' | b'-')
}

#[tactic(auto, unfolding(crate::specs::Words::is_letter))]
fn is_letter(byte: u8) -> bool
    ensures kind { result ≡ is_letter byte }
{
    matches!(byte, b'a'..=b'z')
}

/// That there is no word.
pub fn no_word(mut words: Words<'_>) -> Option<()>
    ensures none { result ≡ none_of (words_of words.entry.0.now) }
{
    words.next().is_none().then_some(())
}

/// The only word.
pub fn one_word<'a>(mut words: Words<'a>) -> Option<&'a [u8]>
    ensures one { option_map (λ w. w.now) result ≡ one_of (words_of words.entry.0.now) }
{
    let first = words.next()?;
    no_word(words)?;
    Some(first)
}

/// The only two words.
pub fn two_words<'a>(mut words: Words<'a>) -> Option<(&'a [u8], &'a [u8])>
    ensures two { option_map (λ w. (w.0.now, w.1.now)) result ≡ two_of (words_of words.entry.0.now) }
{
    let first = words.next()?;
    let second = one_word(words)?;
    Some((first, second))
}

/// The only three words.
pub fn three_words<'a>(mut words: Words<'a>) -> Option<(&'a [u8], &'a [u8], &'a [u8])>
    ensures three { option_map (λ w. (w.0.now, w.1.now, w.2.now)) result ≡
        three_of (words_of words.entry.0.now) }
{
    let first = words.next()?;
    let (second, third) = two_words(words)?;
    Some((first, second, third))
}

/// The only four words.
pub fn four_words<'a>(mut words: Words<'a>) -> Option<(&'a [u8], &'a [u8], &'a [u8], &'a [u8])>
    ensures four { option_map (λ w. (w.0.now, w.1.now, w.2.now, w.3.now)) result ≡
        four_of (words_of words.entry.0.now) }
{
    let first = words.next()?;
    let (second, third, fourth) = three_words(words)?;
    Some((first, second, third, fourth))
}
