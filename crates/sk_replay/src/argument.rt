//! The arguments of a call.
ghost use Rattle.std.specs.Prelude.{◌≡◌, ◌≤◌, length};
ghost use Rattle.sk_replay.specs.Answers.{number_or_part};
ghost use Rattle.sk_replay.specs.CallWords.{argument_of, arguments_of, below_zero, cut_all, given_in, negative_number, negative_of, number_in_c, number_or_constant, part_of, six_or_fault, with_bits};
ghost use Rattle.sk_replay.specs.Faults.{said};

use crate::cuts::{commas, first_piece};
use crate::fault::CallFault;
use crate::named::plain_number;
use crate::octal::octal_number;
use sk_arguments::number_of_constant;
use sk_text::{Words, is_same, one_word};

/// The most arguments that a call has.
const MOST_ARGUMENTS: usize = 6;

/// The six arguments that are written between parentheses; those that are not are 0.
#[tactic(auto, unfolding(crate::specs::CallWords::given_in, crate::specs::CallWords::arguments_of))]
pub(crate) fn arguments(inside: &[u8]) -> Result<[u64; 6], CallFault<'_>>
    ensures exact { said result ≡ arguments_of (given_in inside.now) }
{
    match Words(inside).next() {
        Some(_word) => separated(inside),
        None => Ok([0; MOST_ARGUMENTS]),
    }
}

#[tactic(auto, using(crate::proofs::Given::length_cut), unfolding(crate::specs::CallWords::arguments_of))]
fn separated(inside: &[u8]) -> Result<[u64; 6], CallFault<'_>>
    ensures exact { said result ≡ arguments_of (cut_all 44 inside.now) }
{
    if commas(inside) >= MOST_ARGUMENTS {
        return Err(CallFault::TooMany);
    }
    numbers(inside)
}

fn numbers(inside: &[u8]) -> Result<[u64; 6], CallFault<'_>>
    requires few { length (cut_all 44 inside.now) ≤ 6 }
    ensures exact { said result ≡ six_or_fault (cut_all 44 inside.now) }
{
    let mut args = [0; MOST_ARGUMENTS];
    let mut count = 0;
    let mut rest = Some(inside);
    while let Some(text) = rest {
        let (given, left) = first_piece(text, b',');
        args[count] = match argument(given) {
            Ok(number) => number,
            Err(part) => return Err(CallFault::Argument(count + 1, part)),
        };
        count += 1;
        rest = left;
    }
    Ok(args)
}

/// The number of an argument, or the part of it that is none.
#[tactic(auto, unfolding(crate::specs::CallWords::argument_of))]
pub(crate) fn argument(text: &[u8]) -> Result<u64, &[u8]>
    ensures number { number_or_part result ≡ argument_of text.now }
{
    match negative(text) {
        Some(number) => Ok(number),
        None => bits(text),
    }
}

#[tactic(auto, unfolding(crate::specs::CallWords::negative_of))]
fn negative(text: &[u8]) -> Option<u64>
    ensures number { result ≡ negative_of text.now }
{
    negative_number(one_word(Words(text))?)
}

#[tactic(auto, unfolding(crate::specs::CallWords::negative_number))]
fn negative_number(word: &[u8]) -> Option<u64>
    ensures number { result ≡ negative_number word.now }
{
    if !word.starts_with(b"-") {
        return None;
    }
    let number = plain_number(&word[1..], 1 << 63)?;
    Some(below_zero(number))
}

fn below_zero(number: u64) -> u64
    ensures bits { result ≡ below_zero number }
{
    number.wrapping_neg()
}

// The bits of all parts, or the first part that has none.
fn bits(text: &[u8]) -> Result<u64, &[u8]>
    ensures bits { number_or_part result ≡ with_bits 0 (cut_all 124 text.now) }
{
    let mut bits = 0;
    let mut rest = Some(text);
    while let Some(text) = rest {
        let (part, left) = first_piece(text, b'|');
        bits |= part_number(part)?;
        rest = left;
    }
    Ok(bits)
}

#[tactic(auto, unfolding(crate::specs::CallWords::part_of))]
fn part_number(text: &[u8]) -> Result<u64, &[u8]>
    ensures number { number_or_part result ≡ part_of text.now }
{
    match one_word(Words(text)) {
        Some(word) => number_in_c(word).ok_or(word),
        None => Err(text),
    }
}

// The number that a word is in C, where a 0 before it makes it octal, and `NULL` is 0; or that of a constant.
#[tactic(auto, unfolding(crate::specs::CallWords::number_in_c))]
fn number_in_c(word: &[u8]) -> Option<u64>
    ensures number { result ≡ number_in_c word.now }
{
    if is_same(word, b"NULL") {
        return Some(0);
    }
    match number_or_constant(word) {
        Some(number) => Some(number),
        None => octal_number(word),
    }
}

/// The number of 64 bits that a word is, or that a constant of Linux's headers with this name has.
#[tactic(auto, unfolding(crate::specs::CallWords::number_or_constant))]
pub fn number_or_constant(word: &[u8]) -> Option<u64>
    ensures number { result ≡ number_or_constant word.now }
{
    match plain_number(word, u64::MAX) {
        Some(number) => Some(number),
        None => number_of_constant(word),
    }
}
