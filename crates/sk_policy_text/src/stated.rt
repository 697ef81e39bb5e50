//! Sentences of a policy's text with their lines, and what is said of a whole text.
ghost use Rattle.std.specs.Prelude.{◌≡◌, []};
ghost use Rattle.sk_policy_text.specs.PolicyRows.{sentences_of, is_case, arch_in, default_in, others_in, else_in, architecture_of, default_of, stated_others, others_of, else_below, cases_below};
ghost use Rattle.sk_policy_text.specs.PolicyFaults.{above_of, above_with, inside_with, misplaced_case, misplaced_at};
ghost use Rattle.sk_policy_text.specs.PolicyMade.{verdict_in, is_expectation, if_expectation, expectation_in, first_expectation};

use crate::policy_fault::Misplaced;
use crate::sentence::Sentence;
use sk_conditions::Expectation;
use sk_names::Architecture;

/// A sentence, and its line.
#[derive(Drop)]
pub struct Stated<'a> {
    pub line: usize,
    pub sentence: Sentence<'a>,
}

/// Whether cases may follow.
#[derive(Clone, Copy, Debug, PartialEq, Eq)]
pub enum Inside {
    /// There is no row without a verdict above.
    NoRow,
    /// There is one.
    Cases,
    /// There is one, and `else` behind it.
    BehindElse,
}

/// What stands above a sentence: any other one, a default, a verdict for others; and whether cases may follow.
#[derive(Clone, Copy, Debug, PartialEq, Eq)]
pub struct Above {
    pub some: bool,
    pub default: bool,
    pub others: bool,
    pub inside: Inside,
}

fn is_case(sentence: &Sentence<'_>) -> bool
    ensures case { result ≡ is_case sentence.now }
{
    matches!(sentence, Sentence::Case(_, _))
}

fn arch_in(sentence: &Sentence<'_>) -> Option<Architecture>
    ensures arch { result ≡ arch_in sentence.now }
{
    match sentence {
        Sentence::Arch(architecture) => Some(*architecture),
        _ => None,
    }
}

/// The verdict of numbers that no row has, where a sentence says one.
pub(crate) fn default_in(sentence: &Sentence<'_>) -> Option<u32>
    ensures verdict { result ≡ default_in sentence.now }
{
    match sentence {
        Sentence::Default(verdict) => Some(*verdict),
        _ => None,
    }
}

/// The verdict of calls of other architectures, where a sentence says one.
pub(crate) fn others_in(sentence: &Sentence<'_>) -> Option<u32>
    ensures verdict { result ≡ others_in sentence.now }
{
    match sentence {
        Sentence::Others(verdict) => Some(*verdict),
        _ => None,
    }
}

fn else_in(sentence: &Sentence<'_>) -> Option<u32>
    ensures verdict { result ≡ else_in sentence.now }
{
    match sentence {
        Sentence::Else(verdict) => Some(*verdict),
        _ => None,
    }
}

/// Of whose calls a text tells.
pub fn architecture_of(text: &[Stated<'_>]) -> Architecture
    ensures of { result ≡ architecture_of (sentences_of text.now) }
{
    match text.split_first() {
        Some((first, _)) => arch_in(&first.sentence).unwrap_or(Architecture::X86_64),
        None => Architecture::X86_64,
    }
}

/// The verdict of numbers that no row has.
pub fn default_of(text: &[Stated<'_>]) -> Option<u32>
    ensures of { result ≡ default_of (sentences_of text.now) }
{
    let (_, mut left) = text.split_at(0);
    while let Some((first, rest)) = left.split_first() {
        if let Some(verdict) = default_in(&first.sentence) {
            return Some(verdict);
        }
        left = rest;
    }
    None
}

/// The verdict of calls of other architectures, if a sentence says one.
pub fn stated_others(text: &[Stated<'_>]) -> Option<u32>
    ensures of { result ≡ stated_others (sentences_of text.now) }
{
    let (_, mut left) = text.split_at(0);
    while let Some((first, rest)) = left.split_first() {
        if let Some(verdict) = others_in(&first.sentence) {
            return Some(verdict);
        }
        left = rest;
    }
    None
}

/// The verdict of calls of other architectures.
pub fn others_of(text: &[Stated<'_>]) -> u32
    ensures of { result ≡ others_of (sentences_of text.now) }
{
    stated_others(text).unwrap_or(0x8000_0000)
}

/// The verdict of `else` behind the cases that a text begins with.
pub fn else_below(text: &[Stated<'_>]) -> Option<u32>
    ensures below { result ≡ else_below (sentences_of text.now) }
{
    let (_, mut left) = text.split_at(0);
    while let Some((first, rest)) = left.split_first() {
        if !is_case(&first.sentence) {
            return else_in(&first.sentence);
        }
        left = rest;
    }
    None
}

/// How many cases a text begins with.
pub fn cases_below(text: &[Stated<'_>]) -> usize
    ensures below { result ≡ cases_below (sentences_of text.now) }
{
    let mut count = 0;
    let (_, mut left) = text.split_at(0);
    while let Some((first, rest)) = left.split_first() {
        if !is_case(&first.sentence) {
            return count;
        }
        count += 1;
        left = rest;
    }
    count
}

fn verdict_in(sentence: &Sentence<'_>) -> Option<u32>
    ensures verdict { result ≡ verdict_in sentence.now }
{
    match sentence {
        Sentence::Arch(_) => None,
        Sentence::Default(verdict) => Some(*verdict),
        Sentence::Others(verdict) => Some(*verdict),
        Sentence::Row(_, verdict) => *verdict,
        Sentence::Case(verdict, _) => Some(*verdict),
        Sentence::Else(verdict) => Some(*verdict),
    }
}

fn is_expectation(value: u32) -> bool
    ensures expectation { result ≡ is_expectation value }
{
    value == Expectation::Refused.value() || value == Expectation::Performed.value()
}

fn expectation_in(sentence: &Sentence<'_>) -> Option<u32>
    ensures value { result ≡ expectation_in sentence.now }
{
    let value = verdict_in(sentence)?;
    if is_expectation(value) {
        Some(value)
    } else {
        None
    }
}

/// The line of the first sentence that says an expectation in place of a verdict, and the value that stands for it.
pub fn first_expectation(text: &[Stated<'_>]) -> Option<(usize, u32)>
    ensures first { result ≡ first_expectation text.now }
{
    let (_, mut left) = text.split_at(0);
    while let Some((first, rest)) = left.split_first() {
        if let Some(value) = expectation_in(&first.sentence) {
            return Some((first.line, value));
        }
        left = rest;
    }
    None
}

fn inside_with(inside: Inside, sentence: &Sentence<'_>) -> Inside
    ensures with { result ≡ inside_with inside sentence.now }
{
    match sentence {
        Sentence::Row(_, None) => Inside::Cases,
        Sentence::Case(_, _) => inside,
        Sentence::Else(_) => Inside::BehindElse,
        _ => Inside::NoRow,
    }
}

/// Above the first sentence.
pub fn nothing() -> Above
    ensures none { result ≡ above_of [] }
{
    Above {
        some: false,
        default: false,
        others: false,
        inside: Inside::NoRow,
    }
}

/// The same below one sentence more.
pub fn above_with(above: Above, sentence: &Sentence<'_>) -> Above
    ensures with { result ≡ above_with above sentence.now }
{
    Above {
        some: true,
        default: default_in(sentence).is_some() || above.default,
        others: others_in(sentence).is_some() || above.others,
        inside: inside_with(above.inside, sentence),
    }
}

fn misplaced_case(inside: Inside) -> Option<Misplaced>
    ensures why { result ≡ misplaced_case inside }
{
    match inside {
        Inside::NoRow => Some(Misplaced::NoRow),
        Inside::Cases => None,
        Inside::BehindElse => Some(Misplaced::BehindElse),
    }
}

/// Why a sentence may not stand between what is above and what is behind, if it may not.
pub fn misplaced_at(
    above: Above,
    sentence: &Sentence<'_>,
    behind: &[Stated<'_>],
) -> Option<Misplaced>
    ensures why { result ≡ misplaced_at above sentence.now (sentences_of behind.now) }
{
    match sentence {
        Sentence::Arch(_) => above.some.then_some(Misplaced::ArchNotFirst),
        Sentence::Default(_) => above.default.then_some(Misplaced::DefaultTwice),
        Sentence::Others(_) => above.others.then_some(Misplaced::OthersTwice),
        Sentence::Row(_, Some(_)) => None,
        Sentence::Row(_, None) => else_below(behind).is_none().then_some(Misplaced::NoElse),
        Sentence::Case(_, _) => misplaced_case(above.inside),
        Sentence::Else(_) => misplaced_case(above.inside),
    }
}
