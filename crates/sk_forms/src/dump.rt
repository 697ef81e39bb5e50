//! Dumps of bytes, line by line.
ghost use Rattle.std.specs.Prelude.{◌≡◌, ◌==◌, [], take, IfOk};
ghost use Rattle.std.specs.List.{before_first, list_all};
ghost use Rattle.std.specs.Option.{option_map};
ghost use Rattle.std.specs.Str.{bytes_eq};
ghost use Rattle.sk_text.specs.Hexadecimal.{hex_word};
ghost use Rattle.sk_text.specs.Lines.{lines_of};
ghost use Rattle.sk_forms.specs.Dumps.{behind_offset, bytes_behind, columns, dump, is_plain, line_bytes, whole_image};

use sk_text::{HexFault, Lines, Words, bytes_of, cut, hex_word, is_same};
use std::alloc::{AllocError, Global};

/// The bytes, where they are whole instructions, and there is one.
#[tactic(auto, unfolding(crate::specs::Dumps::whole_image))]
pub(crate) fn whole_image(bytes: Vec<u8>) -> Option<Vec<u8>>
    ensures whole { option_map (λ image. image.items) result ≡ whole_image bytes.items }
{
    if !bytes.is_empty() && bytes.len() % 8 == 0 {
        Some(bytes)
    } else {
        None
    }
}

fn is_place(place: u32, digits: &[u8]) -> bool
    ensures place { result ≡ bytes_eq digits.now (hex_word place) }
{
    is_same(digits, hex_word(place).as_str().as_bytes())
}

// What stands behind the place of a line.
#[tactic(auto, unfolding(crate::specs::Dumps::behind_offset))]
fn behind_offset(place: usize, line: &[u8]) -> Option<&[u8]>
    ensures behind { option_map (λ rest. rest.now) result ≡ behind_offset place line.now }
{
    if place > 0xffff_ffff || line.len() < 8 {
        return None;
    }
    let (digits, rest) = line.split_at(8);
    if is_place(place as u32, digits) {
        Some(rest)
    } else {
        None
    }
}

// The first bytes of a text, so many at most.
fn first_bytes(most: usize, text: &[u8]) -> &[u8]
    ensures first { result.now ≡ take most text.now }
{
    if text.len() < most {
        text
    } else {
        &text[..most]
    }
}

// What stands before a bar, and before a carriage return.
fn before_bar(text: &[u8]) -> &[u8]
    ensures front { result.now ≡ before_first (λ byte. byte == 13) (before_first (λ byte. byte == 124) text.now) }
{
    let (front, _) = cut(text, b'|');
    let (front, _) = cut(front, b'\r');
    front
}

// The columns of a line that its bytes stand in.
#[tactic(auto, unfolding(crate::specs::Dumps::columns))]
fn columns(behind: &[u8]) -> &[u8]
    ensures columns { result.now ≡ columns behind.now }
{
    match behind.split_first() {
        Some((first, rest)) => {
            if *first == b':' {
                first_bytes(40, rest)
            } else {
                before_bar(behind)
            }
        }
        None => &[],
    }
}

// The bytes of the line that begins at a place.
#[tactic(auto, unfolding(crate::specs::Dumps::line_bytes))]
fn line_bytes(alloc: Global, place: usize, line: &[u8]) -> Result<Option<Vec<u8>>, AllocError>
    ensures exact { IfOk result (λ it. option_map (λ bytes. bytes.items) it ≡ line_bytes place line.now) }
{
    let Some(behind) = behind_offset(place, line) else {
        return Ok(None);
    };
    match bytes_of(alloc, Words(columns(behind))) {
        Ok(bytes) => Ok(Some(bytes)),
        Err(HexFault::NotHexadecimal) => Ok(None),
        Err(HexFault::Memory) => Err(AllocError),
    }
}

// The bytes of all lines of a text.
fn bytes_in(alloc: Global, text: &[u8]) -> Result<Option<Vec<u8>>, AllocError>
    ensures exact { IfOk result (λ it. option_map (λ bytes. bytes.items) it ≡ bytes_behind [] (lines_of text.now)) }
{
    let mut bytes = Vec::new(alloc);
    for line in Lines(text) {
        let Some(more) = line_bytes(alloc, bytes.len(), line)? else {
            return Ok(None);
        };
        bytes.extend_from_slice(&more)?;
    }
    Ok(Some(bytes))
}

/// The image that the lines of a dump show.
#[tactic(auto, unfolding(crate::specs::Dumps::dump))]
pub(crate) fn dump(alloc: Global, text: &[u8]) -> Result<Option<Vec<u8>>, AllocError>
    ensures exact { IfOk result (λ it. option_map (λ image. image.items) it ≡ dump text.now) }
{
    if is_plain(text) {
        return Ok(None);
    }
    match bytes_in(alloc, text)? {
        Some(bytes) => Ok(whole_image(bytes)),
        None => Ok(None),
    }
}

// Whether a text has digits, spaces and ends of lines alone.
fn is_plain(text: &[u8]) -> bool
    ensures plain { result ≡ list_all is_plain text.now }
{
    text.iter().all(|byte| char::from(*byte).is_digit(16)
        || *byte == b' '
        || *byte == b'\n'
        || *byte == b'\r')
}
