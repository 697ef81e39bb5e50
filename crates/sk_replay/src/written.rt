//! What an argument that strace(1) writes tells of its register.
ghost use Rattle.std.specs.Prelude.{◌≡◌};
ghost use Rattle.std.specs.List.{ends_with};
ghost use Rattle.std.specs.Option.{option_map};
ghost use Rattle.sk_text.specs.Lines.{words_of};
ghost use Rattle.sk_replay.specs.Values.{bare, decoded, is_plain, is_plain_byte, only_raw, only_word, raw, raw_number, unnamed, value_of, word_before, written};

use crate::argument::argument;
use crate::value::Value;
use sk_names::Architecture;
use sk_text::{Words, cut, is_same, number_up_to, one_word};

/// How strace writes the arguments of a call.
#[derive(Clone, Copy, Debug, PartialEq, Eq)]
pub enum Written {
    /// One for each register, in their order.
    ByRegister,
    /// Joined or left out. Only one as `-e raw=all` writes it is sure to be a register.
    Otherwise,
}

impl Written {
    /// How it writes those of the call with this name.
    #[tactic(auto, unfolding(crate::specs::Values::written))]
    pub(crate) fn of(architecture: Architecture, name: &[u8]) -> Written
        ensures written { result ≡ written architecture name.now }
    {
        match architecture {
            Architecture::I386 | Architecture::Arm => Written::Otherwise,
            _ if is_same(name, b"preadv2") || is_same(name, b"pwritev2") => Written::Otherwise,
            _ => Written::ByRegister,
        }
    }

    /// What an argument tells that is written so.
    #[tactic(auto, unfolding(crate::specs::Values::value_of))]
    pub(crate) fn value(self, text: &[u8]) -> Value
        ensures value { result ≡ value_of self text.now }
    {
        match self {
            Written::ByRegister => decoded(text),
            Written::Otherwise => raw(text),
        }
    }
}

fn decoded(text: &[u8]) -> Value
    ensures value { result ≡ decoded (only_word text.now) }
{
    let Some(word) = only_word(text) else {
        return Value::Unknown;
    };
    if !is_plain(word) {
        return Value::Unknown;
    }
    match argument(unnamed(word)) {
        Ok(number) => Value::Told(number),
        Err(_part) => Value::Unknown,
    }
}

// Whether a number or a name may begin so.
fn is_plain(word: &[u8]) -> bool
    ensures plain { result ≡ is_plain word.now }
{
    match word {
        [first, ..] => is_plain_byte(*first),
        _ => false,
    }
}

#[tactic(auto, unfolding(crate::specs::Values::is_plain_byte))]
fn is_plain_byte(byte: u8) -> bool
    ensures plain { result ≡ is_plain_byte byte }
{
    matches!(byte, b'0'..=b'9' | b'A'..=b'Z' | b'a'..=b'z')
}

fn raw(text: &[u8]) -> Value
    ensures value { result ≡ raw (only_raw text.now) }
{
    match only_raw(text) {
        Some(number) => Value::Told(number),
        None => Value::Unknown,
    }
}

fn only_raw(text: &[u8]) -> Option<u64>
    ensures number { result ≡ only_raw text.now }
{
    raw_number(one_word(Words(text))?)
}

#[tactic(auto, unfolding(crate::specs::Values::raw_number))]
fn raw_number(word: &[u8]) -> Option<u64>
    ensures number { result ≡ raw_number word.now }
{
    if is_same(word, b"0") || word.starts_with(b"0x") {
        number_up_to(word, u64::MAX)
    } else {
        None
    }
}

// The only word, or the one before a comment.
fn only_word(text: &[u8]) -> Option<&[u8]>
    ensures word { option_map (λ word. word.now) result ≡ only_word text.now }
{
    word_before(text.ends_with(b"*/"), Words(bare(text)))
}

fn word_before<'a>(is_commented: bool, mut words: Words<'a>) -> Option<&'a [u8]>
    ensures word { option_map (λ word. word.now) result ≡ word_before is_commented (words_of words.entry.0.now) }
{
    let word = words.next()?;
    match words.next() {
        None => Some(word),
        Some(second) => (is_same(second, b"/*") && is_commented).then_some(word),
    }
}

// Without what `-y` tells behind a descriptor.
#[tactic(auto, unfolding(crate::specs::Values::bare))]
fn bare(text: &[u8]) -> &[u8]
    ensures bare { result.now ≡ bare text.now }
{
    if text.ends_with(b">") || text.ends_with(b">(deleted)") {
        let (descriptor, _path) = cut(text, b'<');
        descriptor
    } else {
        text
    }
}

// Without the name that stands before the stack and the flags of clone.
#[tactic(auto, unfolding(crate::specs::Values::unnamed))]
fn unnamed(word: &[u8]) -> &[u8]
    ensures unnamed { result.now ≡ unnamed word.now }
{
    if word.starts_with(b"child_stack=") {
        &word[12..]
    } else if word.starts_with(b"flags=") {
        &word[6..]
    } else {
        word
    }
}
