//! `ask check`: whether Linux takes filters.
ghost use Rattle.std.specs.Prelude.{◌≡◌, ◌++◌, ℕ, IfOk, OnOk, map, string_bytes};
ghost use Rattle.sk_ask.specs.Checks.{Checks, checked, ending_for, invalid_line, name_at, valid_line, valid_lines};
ghost use Rattle.sk_ask.specs.Counts.{CountsReads};
ghost use Rattle.sk_ask.specs.Endings.{ComesTo, ending_of};
ghost use Rattle.sk_ask.specs.Reading.{judged};

use crate::answer::Answer;
use crate::complaint::shown_name;
use crate::expansion::{Expansion, expanded};
use crate::fault::{FileFault, Refused};
use crate::files_of_filters::judged;
use crate::found::{Found, Place};
use crate::shelf::contents;
use crate::smaller::counted;
use crate::text::{fault_text, push_line};
use crate::{Reader, Shelf, Trouble, about};
use sk_text::MOST_BYTES;
use std::alloc::{AllocError, Global};

/// Whether Linux takes the filters in the files with these names.
pub fn check_answer<S: Shelf>(
    alloc: Global,
    names: &[String],
    reader: &Reader<'_, S>,
    reads: &mut u64,
) -> Result<Answer, Trouble>
    ensures told { Checks reader.now.manner (S.held reader.now.shelf.now) reader.now.context.now (map string_bytes names.now) (ending_of result) }
    ensures counted { CountsReads result reads.old reads.new }
{
    let files = contents(alloc, reader.shelf, reads, names, MOST_BYTES)?;
    let Expansion { images, notes } = expanded(
        alloc,
        reader.manner,
        reader.context,
        names,
        &files,
    )?;
    answered(alloc, names, &images, notes)
}

// The answer to files that stand for these images.
fn answered(
    alloc: Global,
    names: &[String],
    images: &[Vec<u8>],
    notes: Vec<u8>,
) -> Result<Answer, Trouble>
    ensures told { ComesTo (checked (map string_bytes names.now) (judged (map (λ image. image.items) images.now)) notes.items) (ending_of result) }
    ensures unread { (reads : ℕ) → CountsReads result reads reads }
{
    match judged(alloc, images)? {
        Ok(filters) => Ok(Answer {
            text: valid_lines(alloc, names, &filters.found)?,
            notes,
            denies: false,
        }),
        Err(refused) => invalid(alloc, names, refused, notes),
    }
}

fn valid_lines(alloc: Global, names: &[String], found: &Found) -> Result<Vec<u8>, AllocError>
    ensures text { IfOk result (λ text. text.items ≡ valid_lines (map string_bytes names.now) found.now.places.items
        (map (λ image. image.items) found.now.images.items)) }
{
    let mut text = String::new(alloc);
    let mut places = found.places.as_slice();
    let mut images = found.images.as_slice();
    while let Some((place, other_places)) = places.split_first() {
        let Some((image, other_images)) = images.split_first() else {
            break;
        };
        push_valid(alloc, &mut text, names, *place, image)?;
        places = other_places;
        images = other_images;
    }
    Ok(text.into_bytes())
}

fn push_valid(
    alloc: Global,
    text: &mut String,
    names: &[String],
    place: Place,
    image: &[u8],
) -> Result<(), AllocError>
    ensures text { OnOk result (string_bytes text.new ≡ string_bytes text.old ++ valid_line (map string_bytes names.now) place image.now) }
{
    text.push_str(&shown_name(alloc, name_at(names, place.file))?)?;
    text.push_str(": ")?;
    push_line(text, place.line)?;
    text.push_str("valid: ")?;
    text.push_str(&counted(alloc, image.len() / 8)?)?;
    text.push_str("\n")
}

// The name of the file with this number.
fn name_at(names: &[String], file: usize) -> &str
    ensures name { result.now ≡ name_at (map string_bytes names.now) file }
{
    match names.get(file) {
        Some(name) => name.as_str(),
        None => "",
    }
}

fn invalid(
    alloc: Global,
    names: &[String],
    refused: Refused,
    notes: Vec<u8>,
) -> Result<Answer, Trouble>
    ensures told { ComesTo (ending_for (map string_bytes names.now) refused refused.why notes.items) (ending_of result) }
    ensures unread { (reads : ℕ) → CountsReads result reads reads }
{
    match refused.why {
        FileFault::Filter(_, _) => Ok(Answer {
            text: invalid_line(alloc, names, refused)?,
            notes,
            denies: true,
        }),
        _ => {
            let what = fault_text(alloc, refused.why)?;
            Err(Trouble::Refused(about(alloc, name_at(names, refused.file), &what)?))
        }
    }
}

fn invalid_line(alloc: Global, names: &[String], refused: Refused) -> Result<Vec<u8>, AllocError>
    ensures line { IfOk result (λ line. line.items ≡ invalid_line (map string_bytes names.now) refused) }
{
    let mut text = shown_name(alloc, name_at(names, refused.file))?;
    text.push_str(": ")?;
    text.push_str(&fault_text(alloc, refused.why)?)?;
    text.push_str("\n")?;
    Ok(text.into_bytes())
}
