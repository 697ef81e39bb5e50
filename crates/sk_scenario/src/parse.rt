//! Lines as what they say.
ghost use Rattle.std.specs.Prelude.{◌≡◌, ◌==◌, drop, Some, None, slice_index};
ghost use Rattle.std.specs.Option.{option_map};
ghost use Rattle.sk_text.specs.Lines.{words_of};
ghost use Rattle.sk_text.specs.Numbers.{up_to};
ghost use Rattle.sk_scenario.specs.Grammar.{only_if_name, only_name, setuid_with, setuid_of, owned, program_by, program_of, turns_of, headed, heading_of, decimal_of, argument_of, next_argument, asked_with, forked, numbered, asked, asked_of};
ghost use Rattle.sk_scenario.specs.views.ScenarioCode.{heading, argument_seen, call_seen, line_seen};

use crate::call_names::call_named;
use crate::line::{Argument, Arguments, CallLine, ProgramLine, TopLine};
use sk_names::Syscall;
use sk_text::{Words, is_name, is_number, is_same, no_word, number_up_to, one_word};

// Whether a comment begins with the word.
fn is_comment(word: &[u8]) -> bool
    ensures exact { result ≡ (slice_index word.now 0 == 59) }
{
    word.first() == Some(&b';')
}

fn name(word: &[u8]) -> Option<&[u8]>
    ensures exact { option_map (λ w. w.now) result ≡ only_if_name word.now }
{
    if is_name(word) { Some(word) } else { None }
}

fn only_name<'a>(words: Words<'a>) -> Option<&'a [u8]>
    ensures exact { option_map (λ w. w.now) result ≡ only_name (words_of words.entry.0.now) }
{
    let word = one_word(words)?;
    name(word)
}

// ---- the top level

fn setuid_with(word: &[u8], words: Words<'_>) -> Option<bool>
    ensures exact { result ≡ setuid_with word.now (words_of words.entry.0.now) }
{
    if !is_same(word, b"setuid") {
        return None;
    }
    no_word(words)?;
    Some(true)
}

fn setuid(mut words: Words<'_>) -> Option<bool>
    ensures exact { result ≡ setuid_of (words_of words.entry.0.now) }
{
    match words.next() {
        None => Some(false),
        Some(word) => setuid_with(word, words),
    }
}

fn owned<'a>(name: &'a [u8], mut words: Words<'a>) -> Option<TopLine<'a>>
    ensures exact { option_map heading result ≡ owned name.now (words_of words.entry.0.now) }
{
    let word = words.next()?;
    let owner = number_up_to(word, 0xffff_fffe)?;
    let setuid = setuid(words)?;
    Some(TopLine::Program(name, owner as u32, setuid))
}

fn program_by<'a>(name: &'a [u8], mut words: Words<'a>) -> Option<TopLine<'a>>
    ensures exact { option_map heading result ≡ program_by name.now (words_of words.entry.0.now) }
{
    let Some(word) = words.next() else {
        return Some(TopLine::Program(name, 0, false));
    };
    if is_same(word, b"owner") {
        return owned(name, words);
    }
    let setuid = setuid_with(word, words)?;
    Some(TopLine::Program(name, 0, setuid))
}

fn program<'a>(mut words: Words<'a>) -> Option<TopLine<'a>>
    ensures exact { option_map heading result ≡ program_of (words_of words.entry.0.now) }
{
    let word = words.next()?;
    let name = name(word)?;
    program_by(name, words)
}

fn turns<'a>(words: Words<'a>) -> Option<TopLine<'a>>
    ensures exact { option_map heading result ≡ turns_of (words_of words.entry.0.now) }
{
    let word = one_word(words)?;
    if is_number(word) {
        Some(TopLine::Turns(word))
    } else {
        None
    }
}

#[tactic(auto, unfolding(crate::specs::Grammar::headed))]
fn headed<'a>(first: &'a [u8], words: Words<'a>) -> Option<TopLine<'a>>
    ensures exact { option_map heading result ≡ headed first.now (words_of words.entry.0.now) }
{
    if is_same(first, b"turns") {
        return turns(words);
    }
    if is_same(first, b"subreapers") {
        no_word(words)?;
        return Some(TopLine::Subreapers);
    }
    if is_same(first, b"filter") {
        let name = only_name(words)?;
        return Some(TopLine::Filter(name));
    }
    if is_same(first, b"program") {
        program(words)
    } else {
        None
    }
}

// What a line at the top level says.
#[tactic(auto, unfolding(crate::specs::Grammar::heading_of))]
pub(crate) fn top_line(line: &[u8]) -> Option<TopLine<'_>>
    ensures exact { option_map heading result ≡ heading_of line.now }
{
    let mut words = Words(line);
    let Some(first) = words.next() else {
        return Some(TopLine::Silent);
    };
    if is_comment(first) {
        return Some(TopLine::Silent);
    }
    headed(first, words)
}

// ---- a program's block

#[tactic(auto, unfolding(crate::specs::Grammar::decimal_of))]
fn decimal_up_to(word: &[u8], most: u64) -> Option<u64>
    ensures exact { result ≡ up_to most (decimal_of word.now) }
{
    if word.starts_with(b"0x") {
        return None;
    }
    number_up_to(word, most)
}

#[inline(always)]
#[tactic(auto, unfolding(crate::specs::Grammar::argument_of))]
fn argument(word: &[u8]) -> Option<Argument<'_>>
    ensures exact { option_map argument_seen result ≡ argument_of word.now }
{
    if word.starts_with(b"@") {
        let name = name(&word[1..])?;
        return Some(Argument::NumberOf(name));
    }
    if word.starts_with(b"&") {
        let name = name(&word[1..])?;
        return Some(Argument::HandlerOf(name));
    }
    if word.starts_with(b"-") {
        let n = decimal_up_to(&word[1..], 0x8000_0000_0000_0000)?;
        return Some(Argument::Plain(0u64.wrapping_sub(n)));
    }
    let n = number_up_to(word, 0xffff_ffff_ffff_ffff)?;
    Some(Argument::Plain(n))
}

#[tactic(auto, unfolding(crate::specs::Grammar::asked))]
fn call_line<'a>(first: &'a [u8], words: Words<'a>) -> Option<CallLine<'a>>
    ensures exact { option_map call_seen result ≡ asked first.now (words_of words.entry.0.now) }
{
    if is_same(first, b"call") {
        return numbered(words);
    }
    if is_same(first, Syscall::Fork.name().as_bytes()) {
        return forked(words);
    }
    let call = call_named(first)?;
    called_with(call.number(), words)
}

fn numbered<'a>(mut words: Words<'a>) -> Option<CallLine<'a>>
    ensures exact { option_map call_seen result ≡ numbered (words_of words.entry.0.now) }
{
    let word = words.next()?;
    let nr = number_up_to(word, 0xffff_ffff)?;
    called_with(nr as u32, words)
}

const ZEROS: Arguments<'static> = Arguments {
    a: Argument::Plain(0),
    b: Argument::Plain(0),
    c: Argument::Plain(0),
    d: Argument::Plain(0),
    e: Argument::Plain(0),
    f: Argument::Plain(0),
};

fn forked<'a>(mut words: Words<'a>) -> Option<CallLine<'a>>
    ensures exact { option_map call_seen result ≡ forked (words_of words.entry.0.now) }
{
    let child = match words.next() {
        None => None,
        Some(word) => {
            no_word(words)?;
            Some(name(word)?)
        }
    };
    Some(CallLine {
        nr: Syscall::Fork.number(),
        arguments: ZEROS,
        child,
    })
}

#[inline(always)]
fn next_argument<'a>(words: &mut Words<'a>) -> Option<Argument<'a>>
    ensures first { option_map argument_seen result ≡ next_argument (words_of words.old.0.now) }
    ensures rest { words_of words.new.0.now ≡ drop 1 (words_of words.old.0.now) }
{
    match words.next() {
        None => Some(Argument::Plain(0)),
        Some(word) => argument(word),
    }
}

#[inline(always)]
fn called_with<'a>(nr: u32, mut words: Words<'a>) -> Option<CallLine<'a>>
    ensures exact { option_map call_seen result ≡ asked_with nr (words_of words.entry.0.now) }
{
    let a = next_argument(&mut words)?;
    let b = next_argument(&mut words)?;
    let c = next_argument(&mut words)?;
    let d = next_argument(&mut words)?;
    let e = next_argument(&mut words)?;
    let f = next_argument(&mut words)?;
    no_word(words)?;
    Some(CallLine {
        nr,
        arguments: Arguments { a, b, c, d, e, f },
        child: None,
    })
}

// What a line in a program's block says.
#[tactic(auto, unfolding(crate::specs::Grammar::asked_of))]
pub(crate) fn program_line(line: &[u8]) -> Option<ProgramLine<'_>>
    ensures exact { option_map line_seen result ≡ asked_of line.now }
{
    let mut words = Words(line);
    let Some(first) = words.next() else {
        return Some(ProgramLine::Silent);
    };
    if is_comment(first) {
        return Some(ProgramLine::Silent);
    }
    let call = call_line(first, words)?;
    Some(ProgramLine::Call(call))
}
