//! Sentences of a policy's text: where they end, and what they say.
ghost use Rattle.std.specs.Prelude.{◌≡◌, ◌<◌, ◌≤◌, length, take, drop, position, IfOk, IfSome};
ghost use Rattle.std.specs.List.{position_or_len};
ghost use Rattle.sk_policy_text.specs.Words.{seen};
ghost use Rattle.sk_policy_text.specs.Sentences.{arch, begins, begins_case, but_x32, case, default_verdict, line, others_verdict, said_by, sentence_in, sentence_length, where_or_else};
ghost use Rattle.sk_policy_text.specs.Views.{Answers, all_seen, said, said_or_stop};

use crate::rows::{behind_colon, row};
use crate::sentence::{Expected, ReadFault, Sentence, SentenceFault};
use crate::stop::{Stop, ended};
use crate::verdict::{only_verdict, verdict};
use crate::word::{Place, Word};
use sk_names::Architecture;
use sk_text::is_same;
use std::alloc::{AllocError, Global};

/// The words of the first sentence, and those behind it.
pub fn sentence_at<'a>(words: &'a [Word<'a>]) -> (&'a [Word<'a>], &'a [Word<'a>])
    ensures sentence { all_seen result.0.now ≡ take (sentence_length (all_seen words.now)) (all_seen words.now) }
    ensures behind { all_seen result.1.now ≡ drop (sentence_length (all_seen words.now)) (all_seen words.now) }
{
    words.split_at(sentence_length(words))
}

fn sentence_length(words: &[Word<'_>]) -> usize
    ensures within { result ≤ length words.now }
    ensures length { result ≡ sentence_length (all_seen words.now) }
{
    match words.split_first() {
        Some((_, rest)) => 1 + place_of_next(rest),
        None => 0,
    }
}

// The place of the first word that begins a sentence, or the number of the words where none does.
#[tactic(auto, using(crate::proofs::Places::first_some, crate::proofs::Places::first_none))]
fn place_of_next(words: &[Word<'_>]) -> usize
    ensures within { result ≤ length words.now }
    ensures first { result ≡ position_or_len (λ word. begins word.place) words.now }
{
    match first_beginning(words) {
        Some(at) => at,
        None => words.len(),
    }
}

fn first_beginning(words: &[Word<'_>]) -> Option<usize>
    ensures within { IfSome result (λ at. at < length words.now) }
    ensures first { result ≡ position (λ word. begins word.place) words.now }
{
    words.iter().position(|word| begins(word.place))
}

fn begins(place: Place) -> bool
    ensures begins { result ≡ begins place }
{
    match place {
        Place::Row | Place::Case => true,
        Place::Behind => false,
    }
}

/// What the words of a sentence say of calls of an architecture. The fault is the first word at which they say nothing, and what was
/// expected there.
pub fn sentence_of<'a>(
    alloc: Global,
    architecture: Architecture,
    words: &'a [Word<'a>],
) -> Result<Sentence<'a>, ReadFault>
    ensures exact { Answers said result (sentence_in architecture (all_seen words.now)) }
{
    match sentence(alloc, architecture, words)? {
        Ok(sentence) => Ok(sentence),
        Err(stop) => Err(ReadFault::Sentence(SentenceFault {
            at: words.len().saturating_sub(stop.left),
            expected: stop.expected,
        })),
    }
}

#[tactic(auto, unfolding(crate::specs::Sentences::said_by))]
fn sentence<'a>(
    alloc: Global,
    by: Architecture,
    words: &'a [Word<'a>],
) -> Result<Result<Sentence<'a>, Stop>, AllocError>
    ensures exact { IfOk result (λ read. said_or_stop read ≡ said_by by (all_seen words.now)) }
{
    if begins_case(words) {
        Ok(case(words))
    } else {
        line(alloc, by, words)
    }
}

fn begins_case(words: &[Word<'_>]) -> bool
    ensures case { result ≡ begins_case (all_seen words.now) }
{
    match words.split_first() {
        Some((word, _)) => word.place == Place::Case,
        None => false,
    }
}

// A sentence that begins a line.
#[tactic(auto, unfolding(crate::specs::Sentences::line))]
fn line<'a>(
    alloc: Global,
    by: Architecture,
    words: &'a [Word<'a>],
) -> Result<Result<Sentence<'a>, Stop>, AllocError>
    ensures exact { IfOk result (λ read. said_or_stop read ≡ line by (all_seen words.now)) }
{
    let Some((word, rest)) = words.split_first() else {
        return row(alloc, by, words);
    };
    if is_same(word.text, b"arch") {
        Ok(arch(behind_colon(rest)))
    } else if is_same(word.text, b"default") {
        Ok(default(behind_colon(rest)))
    } else if is_same(word.text, b"others") {
        Ok(others(behind_colon(rest)))
    } else {
        row(alloc, by, words)
    }
}

fn default<'a>(words: &'a [Word<'a>]) -> Result<Sentence<'a>, Stop>
    ensures exact { said_or_stop result ≡ default_verdict (all_seen words.now) }
{
    let value = only_verdict(words)?;
    Ok(Sentence::Default(value))
}

fn others<'a>(words: &'a [Word<'a>]) -> Result<Sentence<'a>, Stop>
    ensures exact { said_or_stop result ≡ others_verdict (all_seen words.now) }
{
    let value = only_verdict(words)?;
    Ok(Sentence::Others(value))
}

// `NAME` behind `arch`.
#[tactic(auto, unfolding(crate::specs::Sentences::arch))]
fn arch<'a>(words: &'a [Word<'a>]) -> Result<Sentence<'a>, Stop>
    ensures exact { said_or_stop result ≡ arch (all_seen words.now) }
{
    let Some((word, rest)) = words.split_first() else {
        return Err(Stop::at(words, Expected::Architecture));
    };
    let by = but_x32(Architecture::named(word.text)).ok_or(Stop::at(
        words,
        Expected::Architecture,
    ))?;
    ended(rest)?;
    Ok(Sentence::Arch(by))
}

fn but_x32(architecture: Option<Architecture>) -> Option<Architecture>
    ensures other { result ≡ but_x32 architecture }
{
    match architecture {
        Some(Architecture::X32) => None,
        other => other,
    }
}

// A case of the row above.
#[tactic(auto, unfolding(crate::specs::Sentences::case))]
fn case<'a>(words: &'a [Word<'a>]) -> Result<Sentence<'a>, Stop>
    ensures exact { said_or_stop result ≡ case (all_seen words.now) }
{
    let (value, rest) = verdict(words)?;
    where_or_else(value, rest)
}

// What stands behind the verdict of a case: `else`, or `where` and a condition.
#[tactic(auto, unfolding(crate::specs::Sentences::where_or_else))]
fn where_or_else<'a>(value: u32, words: &'a [Word<'a>]) -> Result<Sentence<'a>, Stop>
    ensures exact { said_or_stop result ≡ where_or_else value (all_seen words.now) }
{
    let Some((word, rest)) = words.split_first() else {
        return Err(Stop::at(words, Expected::WhereOrElse));
    };
    if is_same(word.text, b"else") {
        ended(rest)?;
        return Ok(Sentence::Else(value));
    }
    if !is_same(word.text, b"where") {
        return Err(Stop::at(words, Expected::WhereOrElse));
    }
    if rest.is_empty() {
        return Err(Stop::at(rest, Expected::Condition));
    }
    Ok(Sentence::Case(value, rest))
}
