//! The calls of a row: names, numbers and ranges.
ghost use Rattle.std.specs.Prelude.{◌≡◌, ◌∷◌, ◌==◌, ◌||◌};
ghost use Rattle.std.specs.Option.{option_map};
ghost use Rattle.sk_text.specs.Words.{is_letter};
ghost use Rattle.sk_names.specs.Names.{name_on};
ghost use Rattle.sk_policy_text.specs.Words.{seen};
ghost use Rattle.sk_policy_text.specs.Sentences.{begins_name, behind_dash, behind_name, ends_item, ends_items, has_dash, is_name_of, is_the, item, item_ends, name_item, number_item, number_or_name, range_between, range_in, range_item, u32_of};
ghost use Rattle.sk_policy_text.specs.Views.{all_seen, left};

use crate::sentence::{Expected, Range};
use crate::stop::Stop;
use crate::verdict::begins_verdict;
use crate::word::Word;
use sk_names::{Architecture, name, number};
use sk_replay::plain_number;
use sk_text::{cut, is_same};

/// The numbers of the item with which words begin.
#[tactic(auto, unfolding(crate::specs::Sentences::item))]
pub fn item(by: Architecture, words: &[Word<'_>]) -> Result<Range, Stop>
    ensures exact { result ≡ item by (all_seen words.now) }
{
    let Some((word, rest)) = words.split_first() else {
        return Err(Stop::at(words, Expected::Call));
    };
    if has_dash(word.text) {
        return range_item(words, word, rest);
    }
    match u32_of(word.text) {
        Some(number) => number_item(by, number, rest),
        None => name_item(by, words, word, rest),
    }
}

// An item that is a range.
#[tactic(auto, unfolding(crate::specs::Sentences::range_item))]
fn range_item(words: &[Word<'_>], word: &Word<'_>, rest: &[Word<'_>]) -> Result<Range, Stop>
    requires first { all_seen words.now ≡ seen word.now ∷ all_seen rest.now }
    ensures exact { result ≡ range_item (seen word.now) (all_seen rest.now) }
{
    let range = range_in(word.text).ok_or(Stop::at(words, Expected::Call))?;
    item_ends(behind_dash(rest))?;
    Ok(range)
}

// One that is a number, with or without its name.
#[tactic(auto, unfolding(crate::specs::Sentences::number_item))]
fn number_item(by: Architecture, number: u32, rest: &[Word<'_>]) -> Result<Range, Stop>
    ensures exact { result ≡ number_item by number (all_seen rest.now) }
{
    let left = behind_name(by, number, rest)?;
    item_ends(left)?;
    Ok(Range {
        first: number,
        last: number,
    })
}

// One that is a name.
#[tactic(auto, unfolding(crate::specs::Sentences::name_item))]
fn name_item(
    by: Architecture,
    words: &[Word<'_>],
    word: &Word<'_>,
    rest: &[Word<'_>],
) -> Result<Range, Stop>
    requires first { all_seen words.now ≡ seen word.now ∷ all_seen rest.now }
    ensures exact { result ≡ name_item by (seen word.now) (all_seen rest.now) }
{
    let number = number(by, word.text).ok_or(Stop::at(words, Expected::Call))?;
    item_ends(rest)?;
    Ok(Range {
        first: number,
        last: number,
    })
}

// Nothing, a comma, or the end of the items stands behind one.
#[tactic(auto, unfolding(crate::specs::Sentences::item_ends))]
fn item_ends(words: &[Word<'_>]) -> Result<(), Stop>
    ensures exact { result ≡ item_ends (all_seen words.now) }
{
    match words.split_first() {
        Some((word, _)) if !ends_item(word) => Err(Stop::at(words, Expected::CommaOrVerdict)),
        _ => Ok(()),
    }
}

/// Whether an item ends before a word: a comma, or what ends the items.
#[tactic(auto, unfolding(crate::specs::Sentences::ends_item))]
pub fn ends_item(word: &Word<'_>) -> bool
    ensures ends { result ≡ ends_item (seen word.now) }
{
    is_same(word.text, b",") || ends_items(word)
}

/// Whether the items of a row end before a word: a colon, or a verdict.
#[tactic(auto, unfolding(crate::specs::Sentences::ends_items))]
pub fn ends_items(word: &Word<'_>) -> bool
    ensures ends { result ≡ ends_items (seen word.now) }
{
    is_same(word.text, b":") || begins_verdict(word)
}

// What is left behind a number's name, which may stand behind it.
#[tactic(auto, unfolding(crate::specs::Sentences::behind_name))]
fn behind_name<'a>(
    by: Architecture,
    number: u32,
    words: &'a [Word<'a>],
) -> Result<&'a [Word<'a>], Stop>
    ensures exact { left result ≡ behind_name by number (all_seen words.now) }
{
    let Some((word, rest)) = words.split_first() else {
        return Ok(words);
    };
    if !begins_name(word.text) || begins_verdict(word) {
        return Ok(behind_dash(words));
    }
    if is_name_of(word.text, name(by, number)) {
        Ok(rest)
    } else {
        Err(Stop::at(words, Expected::NameOfCall))
    }
}

// What is left behind a `-`, which may stand where a name would.
#[tactic(auto, unfolding(crate::specs::Sentences::behind_dash))]
fn behind_dash<'a>(words: &'a [Word<'a>]) -> &'a [Word<'a>]
    ensures left { all_seen result.now ≡ behind_dash (all_seen words.now) }
{
    let Some((word, rest)) = words.split_first() else {
        return words;
    };
    if !is_same(word.text, b"-") {
        return words;
    }
    rest
}

fn is_name_of(text: &[u8], name: Option<&'static str>) -> bool
    ensures same { result ≡ is_name_of text.now (option_map (λ name. name.now) name.entry) }
{
    match name {
        Some(name) => name.as_bytes() == text,
        None => false,
    }
}

fn begins_name(text: &[u8]) -> bool
    ensures first { result ≡ begins_name text.now }
{
    match text.split_first() {
        Some((byte, _)) => is_name_byte(*byte),
        None => false,
    }
}

#[tactic(auto, unfolding(sk_text::specs::Words::is_letter))]
fn is_name_byte(byte: u8) -> bool
    ensures kind { result ≡ (is_letter byte || byte == 95) }
{
    matches!(byte, b'a'..=b'z' | b'_')
}

fn has_dash(text: &[u8]) -> bool
    ensures dash { result ≡ has_dash text.now }
{
    text.contains(&b'-')
}

// `FIRST-LAST`.
#[tactic(auto, unfolding(crate::specs::Sentences::range_in))]
fn range_in(text: &[u8]) -> Option<Range>
    ensures range { result ≡ range_in text.now }
{
    let (first, last) = cut(text, b'-');
    range_between(u32_of(first), u32_of(last))
}

fn range_between(first: Option<u32>, last: Option<u32>) -> Option<Range>
    ensures range { result ≡ range_between first last }
{
    let first = first?;
    let last = last?;
    if first <= last {
        Some(Range { first, last })
    } else {
        None
    }
}

fn u32_of(text: &[u8]) -> Option<u32>
    ensures number { result ≡ u32_of text.now }
{
    let number = plain_number(text, u64::from(u32::MAX))?;
    Some(number as u32)
}
