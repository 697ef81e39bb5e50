//! Rows: items with commas between them, and a verdict or none.
ghost use Rattle.std.specs.Prelude.{◌≡◌, ◌≤◌, ◌<◌, [], ◌∷◌, length, position, IfOk, IfSome};
ghost use Rattle.std.specs.List.{position_or_len};
ghost use Rattle.sk_policy_text.specs.Words.{seen};
ghost use Rattle.sk_policy_text.specs.Sentences.{behind_colon, behind_commas, behind_items, ends_item, ends_items, ranges_of, row, verdict_or_none};
ghost use Rattle.sk_policy_text.specs.Views.{all_seen, pieces_left, ranges_read, said_or_stop};

use crate::calls::{ends_item, ends_items, item};
use crate::sentence::{Range, Sentence};
use crate::stop::Stop;
use crate::verdict::only_verdict;
use crate::word::Word;
use sk_names::Architecture;
use sk_text::is_same;
use std::alloc::{AllocError, Global};

/// The row that words are.
#[tactic(auto, unfolding(crate::specs::Sentences::row))]
pub fn row<'a>(
    alloc: Global,
    by: Architecture,
    words: &'a [Word<'a>],
) -> Result<Result<Sentence<'a>, Stop>, AllocError>
    ensures exact { IfOk result (λ read. said_or_stop read ≡ row by (all_seen words.now)) }
{
    let ranges = match ranges(alloc, by, words)? {
        Ok(ranges) => ranges,
        Err(stop) => return Ok(Err(stop)),
    };
    match verdict_or_none(behind_colon(behind_items(words))) {
        Ok(value) => Ok(Ok(Sentence::Row(ranges, value))),
        Err(stop) => Ok(Err(stop)),
    }
}

// The numbers of all items.
fn ranges(
    alloc: Global,
    by: Architecture,
    words: &[Word<'_>],
) -> Result<Result<Vec<Range>, Stop>, AllocError>
    ensures exact { IfOk result (λ read. ranges_read read ≡ ranges_of by (all_seen words.now ∷ behind_commas (all_seen words.now))) }
{
    let mut ranges = Vec::new(alloc);
    let mut left = Some(words);
    while let Some(words) = left {
        match item(by, words) {
            Ok(range) => ranges.push(range)?,
            Err(stop) => return Ok(Err(stop)),
        }
        left = behind_comma(words);
    }
    Ok(Ok(ranges))
}

// What stands behind the first comma between the items, where there is one.
#[tactic(auto, using(crate::proofs::Places::commas_at))]
fn behind_comma<'a>(words: &'a [Word<'a>]) -> Option<&'a [Word<'a>]>
    ensures behind { pieces_left result ≡ behind_commas (all_seen words.now) }
    ensures shorter { IfSome result (λ rest. length rest.now < length words.now) }
{
    let (_item, rest) = words.split_at(end_of_item(words));
    let (word, behind) = rest.split_first()?;
    if ends_items(word) {
        return None;
    }
    Some(behind)
}

// What stands behind the items.
#[tactic(auto, using(crate::proofs::Places::items_at))]
fn behind_items<'a>(words: &'a [Word<'a>]) -> &'a [Word<'a>]
    ensures behind { all_seen result.now ≡ behind_items (all_seen words.now) }
{
    let (_items, rest) = words.split_at(end_of_items(words));
    rest
}

// The place of the first word that is a comma or ends the items, or the number of the words where none does.
#[tactic(auto, using(crate::proofs::Places::first_some, crate::proofs::Places::first_none))]
fn end_of_item(words: &[Word<'_>]) -> usize
    ensures within { result ≤ length words.now }
    ensures first { result ≡ position_or_len (λ word. ends_item (seen word)) words.now }
{
    match place_of_comma(words) {
        Some(at) => at,
        None => words.len(),
    }
}

fn place_of_comma(words: &[Word<'_>]) -> Option<usize>
    ensures within { IfSome result (λ at. at < length words.now) }
    ensures first { result ≡ position (λ word. ends_item (seen word)) words.now }
{
    words.iter().position(|word| ends_item(word))
}

// The place of the first word that ends the items, or the number of the words where none does.
#[tactic(auto, using(crate::proofs::Places::first_some, crate::proofs::Places::first_none))]
fn end_of_items(words: &[Word<'_>]) -> usize
    ensures within { result ≤ length words.now }
    ensures first { result ≡ position_or_len (λ word. ends_items (seen word)) words.now }
{
    match place_of_end(words) {
        Some(at) => at,
        None => words.len(),
    }
}

fn place_of_end(words: &[Word<'_>]) -> Option<usize>
    ensures within { IfSome result (λ at. at < length words.now) }
    ensures first { result ≡ position (λ word. ends_items (seen word)) words.now }
{
    words.iter().position(|word| ends_items(word))
}

/// What is left behind a colon, which may stand there.
#[tactic(auto, unfolding(crate::specs::Sentences::behind_colon))]
pub fn behind_colon<'a>(words: &'a [Word<'a>]) -> &'a [Word<'a>]
    ensures left { all_seen result.now ≡ behind_colon (all_seen words.now) }
{
    let Some((word, rest)) = words.split_first() else {
        return words;
    };
    if !is_same(word.text, b":") {
        return words;
    }
    rest
}

#[tactic(auto, unfolding(crate::specs::Sentences::verdict_or_none))]
fn verdict_or_none(words: &[Word<'_>]) -> Result<Option<u32>, Stop>
    ensures exact { result ≡ verdict_or_none (all_seen words.now) }
{
    if words.is_empty() {
        return Ok(None);
    }
    let value = only_verdict(words)?;
    Ok(Some(value))
}
