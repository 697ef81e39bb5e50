//! The lines `filter HEX` of a file.
ghost use Rattle.std.specs.Prelude.{◌≡◌, IfOk};
ghost use Rattle.sk_text.specs.Lines.{lines_of, words_of};
ghost use Rattle.sk_text.specs.Hexadecimal.{hex_bytes};
ghost use Rattle.sk_ask.specs.Lines.{says, filter_says};
ghost use Rattle.sk_ask.specs.Filters.{with_line, with_lines};
ghost use Rattle.sk_ask.specs.Finding.{filters_of};
ghost use Rattle.sk_ask.specs.Answers.{Finds, Says};

use crate::fault::{FileFault, LineFault, Refused};
use crate::found::{Found, Place, with_filter};
use sk_engines::bytes_in;
use sk_text::{Lines, Words, is_same};
use std::alloc::{AllocError, Global};

/// The filters that the lines of a file add to those that were found before.
#[tactic(auto, using(sk_text::proofs::Cuts::length_lines_of))]
pub fn with_lines(
    alloc: Global,
    file: usize,
    before: Found,
    text: &[u8],
) -> Result<Result<Found, Refused>, AllocError>
    ensures exact { IfOk result (λ found. Finds found (with_lines file 1 (filters_of before) (lines_of text.now))) }
{
    let mut found = before;
    let mut number = 1;
    for line in Lines(text) {
        found = match with_line(alloc, file, number, found, line)? {
            Ok(more) => more,
            Err(refused) => return Ok(Err(refused)),
        };
        number += 1;
    }
    Ok(Ok(found))
}

fn with_line(
    alloc: Global,
    file: usize,
    number: usize,
    found: Found,
    line: &[u8],
) -> Result<Result<Found, Refused>, AllocError>
    ensures exact { IfOk result (λ more. Finds more (with_line file number (filters_of found) (words_of line.now))) }
{
    match said(alloc, Words(line))? {
        Ok(Some(image)) => {
            let place = Place {
                file,
                line: Some(number),
            };
            with_filter(found, place, image)
        }
        Ok(None) => Ok(Ok(found)),
        Err(fault) => Ok(Err(Refused {
            file,
            why: FileFault::Line(number, fault),
        })),
    }
}

fn said(
    alloc: Global,
    mut words: Words<'_>,
) -> Result<Result<Option<Vec<u8>>, LineFault>, AllocError>
    ensures exact { IfOk result (λ said. Says said (says (words_of words.entry.0.now))) }
{
    let Some(word) = words.next() else {
        return Ok(Ok(None));
    };
    if matches!(word.first(), Some(b';' | b'#')) {
        Ok(Ok(None))
    } else if is_same(word, b"filter") {
        filter_said(alloc, words)
    } else {
        Ok(Err(LineFault::UnknownWord))
    }
}

fn filter_said(
    alloc: Global,
    digits: Words<'_>,
) -> Result<Result<Option<Vec<u8>>, LineFault>, AllocError>
    ensures exact { IfOk result (λ said. Says said (filter_says (hex_bytes (words_of digits.entry.0.now)))) }
{
    match bytes_in(alloc, digits)? {
        Some(image) => Ok(Ok(Some(image))),
        None => Ok(Err(LineFault::NotHexadecimal)),
    }
}
