//! Words of a policy's text as they are shown.
ghost use Rattle.std.specs.Prelude.{◌≡◌, ◌<◌, ◌++◌, ◌∷◌, [], map, slice_get, OnOk, string_bytes};
ghost use Rattle.std.specs.Option.{option_map};
ghost use Rattle.sk_policy_text.specs.Words.{seen};
ghost use Rattle.sk_policy_text.specs.Views.{all_seen};
ghost use Rattle.sk_policy_text.specs.PolicyMade.{first_words};
ghost use Rattle.sk_policy_text.specs.PolicyTexts.{shown_byte, shown, line_text, from_line, behind_where, last_of};

use crate::sentences::sentence_at;
use crate::word::Word;
use sk_text::is_same;
use std::alloc::AllocError;
use std::fmt::Write;

// The words from the first one of a line on.
fn from_line<'a>(words: &'a [Word<'a>], line: usize) -> &'a [Word<'a>]
    ensures from { all_seen result.now ≡ from_line line (all_seen words.now) }
{
    let (_, mut left) = words.split_at(0);
    while let Some((first, rest)) = left.split_first() {
        if first.line == line {
            return left;
        }
        left = rest;
    }
    left
}

/// The words of the sentence that begins in a line.
pub fn sentence_from<'a>(words: &'a [Word<'a>], line: usize) -> &'a [Word<'a>]
    ensures words { all_seen result.now ≡ first_words (from_line line (all_seen words.now)) }
{
    sentence_at(from_line(words, line)).0
}

/// The words behind `where`.
pub fn behind_where<'a>(words: &'a [Word<'a>]) -> &'a [Word<'a>]
    ensures behind { all_seen result.now ≡ behind_where (all_seen words.now) }
{
    let (_, mut left) = words.split_at(0);
    while let Some((first, rest)) = left.split_first() {
        if is_same(first.text, b"where") {
            return rest;
        }
        left = rest;
    }
    left
}

/// The word at a place, from 0.
pub fn word_at<'a>(words: &[Word<'a>], at: usize) -> Option<Word<'a>>
    ensures word { option_map seen result ≡ slice_get (all_seen words.now) at }
{
    words.get(at).copied()
}

/// The last word.
pub fn last_word<'a>(words: &[Word<'a>]) -> Option<Word<'a>>
    ensures word { option_map seen result ≡ last_of (all_seen words.now) }
{
    word_at(words, words.len().saturating_sub(1))
}

/// The line that is meant, before what is said of it.
pub fn push_line(text: &mut String, line: usize) -> Result<(), AllocError>
    ensures text { OnOk result (string_bytes text.new ≡ string_bytes text.old ++ line_text line) }
{
    write!(text, "line {line}: ")
}

fn shown_byte(byte: u8) -> u8
    ensures shown { result ≡ shown_byte byte }
    ensures ascii { result < 128 }
{
    if b' ' <= byte && byte <= b'~' {
        byte
    } else {
        b'?'
    }
}

#[tactic(auto, using(std::proofs::lemmas::Str::encode_ascii))]
fn push_byte(text: &mut String, byte: u8) -> Result<(), AllocError>
    ensures text { OnOk result (string_bytes text.new ≡ string_bytes text.old ++ shown_byte byte ∷ []) }
{
    text.push(char::from(shown_byte(byte)))
}

fn push_bytes(text: &mut String, bytes: &[u8]) -> Result<(), AllocError>
    ensures text { OnOk result (string_bytes text.new ≡ string_bytes text.old ++ map shown_byte bytes.now) }
{
    for byte in bytes {
        push_byte(text, *byte)?;
    }
    Ok(())
}

/// A word as it is shown.
pub fn push_shown(text: &mut String, word: &[u8]) -> Result<(), AllocError>
    ensures text { OnOk result (string_bytes text.new ≡ string_bytes text.old ++ shown word.now) }
{
    if word.len() <= 40 {
        return push_bytes(text, word);
    }
    let (head, _) = word.split_at(40);
    push_bytes(text, head)
}
