//! Which form a file has, and the filters in it.
ghost use Rattle.std.specs.Prelude.{◌≡◌, ◌==◌, IfOk, filter, length, not};
ghost use Rattle.std.specs.List.{list_all, list_any};
ghost use Rattle.sk_text.specs.Lines.{lines_of, words_of};
ghost use Rattle.sk_text.specs.Hexadecimal.{hex_text_bytes};
ghost use Rattle.sk_ask.specs.Forms.{begins_filter, form_of, is_digit_or_blank, is_lines, is_policy, says_something, unmarked, without_returns};
ghost use Rattle.sk_ask.specs.Filters.{with_file, with_digits, some_more};
ghost use Rattle.sk_ask.specs.Finding.{filters_of};
ghost use Rattle.sk_ask.specs.Answers.{found_in, Finds};

use crate::fault::{FileFault, Refused};
use crate::found::{Found, Place, with_filter};
use crate::lines::with_lines;
use crate::other_names::behind;
use sk_profile_json::is_profile;
use sk_text::{HexFault, Lines, Words, bytes_of_text};
use std::alloc::{AllocError, Global};

/// The form that the filters of a file are written in.
#[derive(Clone, Copy, Debug, PartialEq, Eq)]
pub enum Form {
    /// The bytes of one filter as they are.
    Raw,
    /// One filter in hexadecimal digits.
    Digits,
    /// Lines `filter HEX`.
    Lines,
}

/// The text of a file with these bytes, where it is one with a byte order mark, and else the bytes.
#[tactic(auto, unfolding(crate::specs::Forms::unmarked))]
pub(crate) fn unmarked(bytes: &[u8]) -> &[u8]
    ensures text { result.now ≡ unmarked bytes.now }
{
    match behind(&[0xef, 0xbb, 0xbf], bytes) {
        Some(text) if !text.contains(&0) => text,
        _ => bytes,
    }
}

/// The form of a file with these bytes.
#[tactic(auto, unfolding(crate::specs::Forms::form_of))]
pub fn form_of(bytes: &[u8]) -> Form
    ensures exact { result ≡ form_of bytes.now }
{
    if bytes.contains(&0) {
        Form::Raw
    } else if are_digits(bytes) {
        Form::Digits
    } else {
        Form::Lines
    }
}

#[tactic(auto, unfolding(crate::specs::Forms::is_digit_or_blank))]
fn are_digits(bytes: &[u8]) -> bool
    ensures every { result ≡ list_all is_digit_or_blank bytes.now }
{
    bytes.iter().all(
        |byte| matches!(*byte, b'0'..=b'9' | b'a'..=b'f' | b'A'..=b'F' | b' ' | b'\n' | b'\r'),
    )
}

/// Whether a file with these bytes is a policy's text.
#[tactic(auto, unfolding(crate::specs::Forms::is_policy))]
pub fn is_policy(bytes: &[u8]) -> bool
    ensures exact { result ≡ is_policy bytes.now }
{
    is_lines(form_of(bytes)) && !is_profile(bytes) && says(bytes) && !has_filter(bytes)
}

fn is_lines(form: Form) -> bool
    ensures lines { result ≡ is_lines form }
{
    match form {
        Form::Raw => false,
        Form::Digits => false,
        Form::Lines => true,
    }
}

fn says(bytes: &[u8]) -> bool
    ensures says { result ≡ list_any (λ line. says_something (words_of line)) (lines_of bytes.now) }
{
    for line in Lines(bytes) {
        if says_something(line) {
            return true;
        }
    }
    false
}

fn has_filter(bytes: &[u8]) -> bool
    ensures filter { result ≡ list_any (λ line. begins_filter (words_of line)) (lines_of bytes.now) }
{
    for line in Lines(bytes) {
        if begins_filter(line) {
            return true;
        }
    }
    false
}

fn says_something(line: &[u8]) -> bool
    ensures says { result ≡ says_something (words_of line.now) }
{
    match Words(line).next() {
        Some(word) => !matches!(word.first(), Some(b';' | b'#' | b'\r')),
        None => false,
    }
}

fn begins_filter(line: &[u8]) -> bool
    ensures begins { result ≡ begins_filter (words_of line.now) }
{
    match Words(line).next() {
        Some(word) => word.starts_with(b"filter"),
        None => false,
    }
}

/// The filters that a file with these bytes adds to those that were found before.
pub fn with_file(
    alloc: Global,
    file: usize,
    found: Found,
    bytes: &[u8],
) -> Result<Result<Found, Refused>, AllocError>
    ensures exact { IfOk result (λ more. Finds more (with_file file (filters_of found) bytes.now)) }
{
    match form_of(bytes) {
        Form::Raw => with_filter(found, Place { file, line: None }, bytes.to_vec(alloc)?),
        Form::Digits => with_digits(alloc, file, found, &without_returns(alloc, bytes)?),
        Form::Lines => {
            let before = found.images.len();
            let found = with_lines(alloc, file, found, &without_returns(alloc, bytes)?)?;
            Ok(some_more(file, before, found))
        }
    }
}

fn without_returns(alloc: Global, bytes: &[u8]) -> Result<Vec<u8>, AllocError>
    ensures rest { IfOk result (λ text. text.items ≡ without_returns bytes.now) }
{
    bytes
        .iter()
        .copied()
        .filter(|byte| *byte != b'\r')
        .collect(alloc)
}

fn with_digits(
    alloc: Global,
    file: usize,
    found: Found,
    text: &[u8],
) -> Result<Result<Found, Refused>, AllocError>
    ensures exact { IfOk result (λ more. Finds more (with_digits file (filters_of found) (hex_text_bytes text.now))) }
{
    match bytes_of_text(alloc, text) {
        Ok(image) if image.is_empty() => Ok(Err(Refused {
            file,
            why: FileFault::NoFilter,
        })),
        Ok(image) => with_filter(found, Place { file, line: None }, image),
        Err(HexFault::NotHexadecimal) => Ok(Err(Refused {
            file,
            why: FileFault::OddDigits,
        })),
        Err(HexFault::Memory) => Err(AllocError),
    }
}

fn some_more(file: usize, before: usize, found: Result<Found, Refused>) -> Result<Found, Refused>
    ensures exact { Finds result (some_more file before (found_in found)) }
{
    match found {
        Ok(found) if found.images.len() == before => Err(Refused {
            file,
            why: FileFault::NoFilter,
        }),
        found => found,
    }
}
