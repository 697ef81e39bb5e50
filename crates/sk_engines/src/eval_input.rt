//! The lines of the input of `eval`.
ghost use Rattle.std.specs.Prelude.{◌≡◌, IfOk};
ghost use Rattle.sk_text.specs.Lines.{lines_of, words_of};
ghost use Rattle.sk_text.specs.Hexadecimal.{hex_bytes};
ghost use Rattle.sk_insn.specs.Record.{record_of};
ghost use Rattle.sk_engines.specs.EvalInput.{with_line, with_record, with_filter, said, gathered, nothing_yet};
ghost use Rattle.sk_engines.specs.Gathering.{gathered_of, Takes, Gathers};

use crate::filters::{MOST_FILTERS, bytes_in};
use sk_insn::{RECORD_LEN, Record};
use sk_text::{Lines, Words, is_passed_over, is_printable};
use std::alloc::{AllocError, Global};

/// What is asked: what these filters answer on this call.
#[derive(Drop)]
pub struct Asked {
    pub call: Record,
    /// The images of the filters, the oldest first.
    pub images: Vec<Vec<u8>>,
}

/// What the lines so far have given: the call, if one of them has told it, and the images of filters, the oldest first.
#[derive(Drop)]
pub struct Given {
    pub call: Option<Record>,
    pub images: Vec<Vec<u8>>,
}

/// What the lines of an input ask, or the number of the line that is not understood.
#[tactic(auto, using(sk_text::proofs::Cuts::length_lines_of))]
pub fn gather(alloc: Global, input: &[u8]) -> Result<Result<Asked, usize>, AllocError>
    ensures exact { IfOk result (λ asked. Gathers asked (gathered 1 nothing_yet (lines_of input.now))) }
{
    let mut given = Given {
        call: None,
        images: Vec::new(alloc),
    };
    let mut number = 1;
    for line in Lines(input) {
        let Some(next) = with_line(alloc, given, line)? else {
            return Ok(Err(number));
        };
        given = next;
        number += 1;
    }
    let Given { call, images } = given;
    Ok(call.map(|call| Asked { call, images }).ok_or(number))
}

#[tactic(auto, unfolding(crate::specs::EvalInput::with_line))]
fn with_line(alloc: Global, given: Given, line: &[u8]) -> Result<Option<Given>, AllocError>
    ensures exact { IfOk result (λ next. Takes next (with_line (gathered_of given) line.now)) }
{
    if !is_printable(line) {
        return Ok(None);
    }
    if is_passed_over(line) {
        return Ok(Some(given));
    }
    said(alloc, given, Words(line))
}

fn said(alloc: Global, given: Given, mut words: Words<'_>) -> Result<Option<Given>, AllocError>
    ensures exact { IfOk result (λ next. Takes next (said (gathered_of given) (words_of words.entry.0.now))) }
{
    match words.next() {
        None => Ok(Some(given)),
        Some(b"record") => with_record(alloc, given, words),
        Some(b"filter") => with_filter(alloc, given, words),
        Some(_) => Ok(None),
    }
}

fn with_record(alloc: Global, given: Given, digits: Words<'_>) -> Result<Option<Given>, AllocError>
    ensures exact { IfOk result (λ next. Takes next (with_record (gathered_of given) (hex_bytes (words_of digits.entry.0.now)))) }
{
    let Some(bytes) = bytes_in(alloc, digits)? else {
        return Ok(None);
    };
    if given.call.is_some() {
        return Ok(None);
    }
    Ok(record_of(&bytes).map(|call| Given {
        call: Some(call),
        ..given
    }))
}

fn with_filter(alloc: Global, given: Given, digits: Words<'_>) -> Result<Option<Given>, AllocError>
    ensures exact { IfOk result (λ next. Takes next (with_filter (gathered_of given) (hex_bytes (words_of digits.entry.0.now)))) }
{
    let Some(image) = bytes_in(alloc, digits)? else {
        return Ok(None);
    };
    if given.call.is_none() || given.images.len() >= MOST_FILTERS {
        return Ok(None);
    }
    let mut given = given;
    given.images.push(image)?;
    Ok(Some(given))
}

#[tactic(auto, unfolding(sk_insn::specs::Record::record_of))]
fn record_of(bytes: &[u8]) -> Option<Record>
    ensures exact { result ≡ record_of bytes.now }
{
    Record::of(bytes.as_array::<RECORD_LEN>()?)
}
