//! The line in which an entry of a profile begins.
ghost use Rattle.std.specs.Prelude.{◌≡◌, slice_get, IfOk};
ghost use Rattle.std.specs.Option.{option_map};
ghost use Rattle.json.specs.Tree.{HasNumbers};
ghost use Rattle.json.specs.Value.{value_view};
ghost use Rattle.sk_profile_json.specs.Fields.{is_written};
ghost use Rattle.sk_profile_json.specs.Forms.{is_byte};
ghost use Rattle.sk_profile_json.specs.Lines.{IsEntryLine, entry_in, line_as, line_in, line_within, written};
ghost use Rattle.sk_profile_json.specs.Wholes.{IsDocument};

use crate::document::profile_of_document;
use crate::fault::Field;
use crate::fields::{items_or_none, list};
use crate::inspected::text_inside;
use crate::slip::line_of;
use crate::{ReadFault, value_of};
use json::{Error, MAX_DEPTH, Reader, Scratch, Value, to_vec};
use std::alloc::{AllocError, Global};

// The most objects of a text that are compared with an entry.
const MOST_OBJECTS: usize = 1000;

/// The line of a file, from 1 on, in which the entry of its profile begins that has this number, from 0 on. It is looked for
/// among the first 1000 objects of the text.
pub fn entry_line(alloc: Global, bytes: &[u8], number: usize) -> Result<Option<usize>, AllocError>
    ensures line { IfOk result (IsEntryLine bytes.now number) }
{
    match str::from_utf8(bytes) {
        Ok(text) => line_in_text(alloc, text, number),
        Err(_) => Ok(None),
    }
}

fn line_in_text(alloc: Global, text: &str, number: usize) -> Result<Option<usize>, AllocError>
    ensures line { IfOk result (IsEntryLine text.now number) }
{
    let mut scratch = Scratch::new(alloc);
    match value_of(alloc, text, &mut scratch) {
        Ok(document) => line_within(alloc, text, &document, number),
        Err(ReadFault::Memory) => Err(AllocError),
        Err(_) => Ok(None),
    }
}

fn line_within(
    alloc: Global,
    text: &str,
    document: &Value<'_>,
    number: usize,
) -> Result<Option<usize>, AllocError>
    requires document { IsDocument text.now (value_view document.now) }
    ensures line { IfOk result (λ line. line ≡ line_within text.now number (value_view document.now)) }
{
    match entry_in(document, number) {
        Some(entry) => line_in(alloc, text, entry),
        None => Ok(None),
    }
}

fn entry_in<'v, 'a>(document: &'v Value<'a>, number: usize) -> Option<&'v Value<'a>>
    ensures entry { option_map (λ v. value_view v.now) result ≡ entry_in number (value_view document.now) }
{
    match text_inside(document) {
        None => items_or_none(list(profile_of_document(document), Field::Syscalls)).get(number),
        Some(_) => None,
    }
}

fn line_in(alloc: Global, text: &str, entry: &Value<'_>) -> Result<Option<usize>, AllocError>
    requires numbers { HasNumbers (value_view entry.now) }
    ensures line { IfOk result (λ line. line ≡ line_in text.now (value_view entry.now)) }
{
    let wanted = to_vec(alloc, entry)?;
    line_as(alloc, &wanted, text)
}

fn line_as(alloc: Global, wanted: &[u8], text: &str) -> Result<Option<usize>, AllocError>
    ensures line { IfOk result (λ line. line ≡ line_as wanted.now text.now) }
{
    let mut scratch = Scratch::new(alloc);
    let mut left = MOST_OBJECTS;
    for place in 0..text.len() {
        if opens(text, place) {
            if left == 0 {
                return Ok(None);
            }
            left -= 1;
            if is_written(alloc, wanted, &text[place..], &mut scratch)? {
                return Ok(Some(line_of(&text.as_bytes()[..place])));
            }
        }
    }
    Ok(None)
}

// Whether an object may begin there.
fn opens(text: &str, place: usize) -> bool
    ensures opens { result ≡ is_byte 123 (slice_get text.now place) }
{
    text.as_bytes().get(place) == Some(&b'{')
}

// Whether the value with which a text begins is written so without blanks.
fn is_written(
    alloc: Global,
    wanted: &[u8],
    text: &str,
    scratch: &mut Scratch,
) -> Result<bool, AllocError>
    ensures written { IfOk result (λ is. is ≡ is_written wanted.now (written text.now)) }
{
    let mut reader = Reader::new(text, scratch)?;
    match Value::read(alloc, &mut reader, MAX_DEPTH) {
        Ok(value) => Ok(to_vec(alloc, &value)?.as_slice() == wanted),
        Err(Error::OutOfMemory) => Err(AllocError),
        Err(_) => Ok(false),
    }
}
