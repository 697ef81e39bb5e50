//! Which line of a policy's text decides on a call.
ghost use Rattle.std.specs.Prelude.{◌≡◌, IfErr, IfOk};
ghost use Rattle.std.specs.List.{list_any};
ghost use Rattle.sk_terms.specs.Lines.{meets_choices};
ghost use Rattle.sk_policy_text.specs.declared.deciding.Telling.TheVariants.{OfNumber};
ghost use Rattle.sk_policy_text.specs.PolicyRows.{is_of_x32};
ghost use Rattle.sk_policy_text.specs.PolicyRules.{IsUnreadBelow};
ghost use Rattle.sk_policy_text.specs.PolicyDeciding.{CasesDecide, Decides, IsDecided, IsDeciderIn, RowDecides, behind_first, from_first, is_in, line_of, line_of_else, tells, unnamed_decider};

use crate::making::sentences_in;
use crate::policy_fault::PolicyFault;
use crate::reading::words_in;
use crate::refusal::Refusal;
use crate::right::case_in;
use crate::sentence::{Range, Sentence};
use crate::stated::{Stated, architecture_of, default_in, others_in};
use sk_insn::Record;
use sk_names::Architecture;
use sk_policy::Case;
use sk_terms::{Line, meets};
use std::alloc::{AllocError, Global};

/// What of a policy's text decides on a call, by the line in which it begins.
#[derive(Clone, Copy, Debug, Drop, PartialEq, Eq)]
pub enum Decider {
    /// The verdict of the row that has its number, or of one of the cases below it.
    Row(Option<usize>),
    /// `default`.
    Default(Option<usize>),
    /// `others`, if there is one.
    Others(Option<usize>),
}

/// Of which calls a sentence tells.
#[derive(Clone, Copy, Debug, PartialEq, Eq)]
pub enum Telling {
    /// Of those with a number, by a row.
    OfNumber(u32),
    /// Of those whose numbers no row has.
    OfUnnamed,
    /// Of those of other architectures.
    OfOthers,
}

/// What of a policy's text decides on a call; nothing where the bytes are no sentences, or a condition that counts is none.
pub fn decider_in(alloc: Global, bytes: &[u8], call: &Record) -> Result<Option<Decider>, AllocError>
    ensures decides { IfOk result (IsDeciderIn bytes.now call.now) }
{
    let words = words_in(alloc, bytes)?;
    match sentences_in(alloc, &words) {
        Ok(text) => decided(alloc, &text, *call),
        Err(Refusal::Sentence(_, _, _)) => Ok(None),
        Err(Refusal::Memory) => Err(AllocError),
        Err(_) => unreachable!(),
    }
}

fn decided(alloc: Global, text: &[Stated<'_>], call: Record) -> Result<Option<Decider>, AllocError>
    ensures decided { IfOk result (IsDecided text.now call) }
{
    match decider_by(alloc, text, call) {
        Ok(decider) => Ok(Some(decider)),
        Err(PolicyFault::Wrong(_, _)) => Ok(None),
        Err(PolicyFault::Memory) => Err(AllocError),
        Err(_) => unreachable!(),
    }
}

fn decider_by(alloc: Global, text: &[Stated<'_>], call: Record) -> Result<Decider, PolicyFault>
    ensures decides { IfOk result (Decides text.now call) }
    ensures fault { IfErr result (IsUnreadBelow (behind_first (from_first (OfNumber call.nr) text.now))) }
{
    let by = architecture_of(text);
    if call.arch != by.audit() {
        return Ok(Decider::Others(line_of(from_first(Telling::OfOthers, text))));
    }
    match from_first(Telling::OfNumber(call.nr), text).split_first() {
        Some((row, behind)) => Ok(Decider::Row(row_line(alloc, row, behind, call)?)),
        None => Ok(unnamed_decider(by, call.nr, text)),
    }
}

fn unnamed_decider(by: Architecture, nr: u32, text: &[Stated<'_>]) -> Decider
    ensures decides { result ≡ unnamed_decider by nr text.now }
{
    if is_of_x32(by, nr) {
        Decider::Others(line_of(from_first(Telling::OfOthers, text)))
    } else {
        Decider::Default(line_of(from_first(Telling::OfUnnamed, text)))
    }
}

fn is_of_x32(by: Architecture, nr: u32) -> bool
    ensures of { result ≡ is_of_x32 by nr }
{
    match by {
        Architecture::X86_64 => 0x4000_0000 <= nr && nr <= 0xffff_fffe,
        _ => false,
    }
}

// The line of the row's verdict, or of the case that decides.
fn row_line(
    alloc: Global,
    row: &Stated<'_>,
    behind: &[Stated<'_>],
    call: Record,
) -> Result<Option<usize>, PolicyFault>
    ensures decides { IfOk result (RowDecides row.now.sentence row.now.line behind.now call) }
    ensures fault { IfErr result (IsUnreadBelow behind.now) }
{
    match &row.sentence {
        Sentence::Row(_, None) => case_line(alloc, behind, call),
        _ => Ok(Some(row.line)),
    }
}

// The line of the first case whose condition the call meets, or else of `else`.
fn case_line(alloc: Global, text: &[Stated<'_>], call: Record) -> Result<Option<usize>, PolicyFault>
    ensures decides { IfOk result (CasesDecide text.now call) }
    ensures fault { IfErr result (IsUnreadBelow text.now) }
{
    let (_, mut left) = text.split_at(0);
    while let Some((first, rest)) = left.split_first() {
        let Some(case) = case_in(alloc, first)? else {
            return Ok(else_line(first));
        };
        if is_met(case, &call) {
            return Ok(Some(first.line));
        }
        left = rest;
    }
    Ok(None)
}

fn is_met(case: Case, call: &Record) -> bool
    ensures met { result ≡ meets_choices case.choices.items call.now }
{
    let line = Line {
        choices: case.choices,
        value: None,
    };
    meets(&line, call)
}

// The line of `else`.
fn else_line(stated: &Stated<'_>) -> Option<usize>
    ensures line { result ≡ line_of_else stated.now.sentence stated.now.line }
{
    match &stated.sentence {
        Sentence::Else(_) => Some(stated.line),
        _ => None,
    }
}

// The sentences from the first on that tells so.
fn from_first<'a, 'b>(what: Telling, text: &'a [Stated<'b>]) -> &'a [Stated<'b>]
    ensures first { result.now ≡ from_first what text.now }
{
    let (_, mut left) = text.split_at(0);
    while let Some((first, rest)) = left.split_first() {
        if tells(what, &first.sentence) {
            return left;
        }
        left = rest;
    }
    left
}

fn line_of(text: &[Stated<'_>]) -> Option<usize>
    ensures line { result ≡ line_of text.now }
{
    let (first, _) = text.split_first()?;
    Some(first.line)
}

fn tells(what: Telling, sentence: &Sentence<'_>) -> bool
    ensures tells { result ≡ tells what sentence.now }
{
    match what {
        Telling::OfNumber(nr) => has_number(nr, sentence),
        Telling::OfUnnamed => default_in(sentence).is_some(),
        Telling::OfOthers => others_in(sentence).is_some(),
    }
}

fn has_number(nr: u32, sentence: &Sentence<'_>) -> bool
    ensures tells { result ≡ tells (OfNumber nr) sentence.now }
{
    match sentence {
        Sentence::Row(ranges, _) => is_in_any(nr, ranges),
        _ => false,
    }
}

fn is_in_any(nr: u32, ranges: &[Range]) -> bool
    ensures is { result ≡ list_any (is_in nr) ranges.now }
{
    ranges.iter().any(|range| is_in(nr, range))
}

fn is_in(nr: u32, range: &Range) -> bool
    ensures is { result ≡ is_in nr range.now }
{
    range.first <= nr && nr <= range.last
}
