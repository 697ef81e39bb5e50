//! Strings with the bytes of an image.
ghost use Rattle.std.specs.Prelude.{◌≡◌, ◌*◌, ◌≤◌, IfOk, IfSome, length};
ghost use Rattle.std.specs.Option.{option_map};
ghost use Rattle.sk_forms.specs.Strings.{escape, escaped, escapes, parts_strings, strings, without_quotes};

use crate::cutting::is_blank;
use crate::dump::whole_image;
use sk_text::number_up_to;
use std::alloc::{AllocError, Global};

#[tactic(auto, unfolding(crate::specs::Strings::parts_strings))]
fn parts_strings(byte: u8) -> bool
    ensures parts { result ≡ parts_strings byte }
{
    matches!(byte, b'"' | b'\n') || is_blank(byte)
}

fn without_quotes(alloc: Global, text: &[u8]) -> Result<Vec<u8>, AllocError>
    ensures rest { IfOk result (λ rest. rest.items ≡ without_quotes text.now) }
{
    text.iter()
        .copied()
        .filter(|byte| !parts_strings(*byte))
        .collect(alloc)
}

// The byte that four characters write.
#[tactic(auto, unfolding(crate::specs::Strings::escape))]
fn escape(four: &[u8]) -> Option<u8>
    requires four { length four.now ≡ 4 }
    ensures byte { result ≡ escape four.now }
{
    if four[0] != b'\\' || four[1] != b'x' {
        return None;
    }
    let digits = [b'0', b'x', four[2], four[3]];
    let byte = number_up_to(&digits, 0xff)?;
    Some(byte as u8)
}

// So many bytes.
fn escapes(alloc: Global, count: usize, text: &[u8]) -> Result<Option<Vec<u8>>, AllocError>
    requires long { 4 * count ≤ length text.now }
    ensures exact { IfOk result (λ it. option_map (λ bytes. bytes.items) it ≡ escapes count text.now) }
{
    let mut bytes = Vec::new(alloc);
    let mut rest = text;
    for _place in 0..count {
        let (four, after) = rest.split_at(4);
        let Some(byte) = escape(four) else {
            return Ok(None);
        };
        bytes.push(byte)?;
        rest = after;
    }
    Ok(Some(bytes))
}

#[tactic(auto, unfolding(crate::specs::Strings::escaped))]
fn escaped(alloc: Global, text: &[u8]) -> Result<Option<Vec<u8>>, AllocError>
    ensures exact { IfOk result (λ it. option_map (λ bytes. bytes.items) it ≡ escaped text.now) }
{
    if text.len() % 4 == 0 {
        escapes(alloc, text.len() / 4, text)
    } else {
        Ok(None)
    }
}

/// The image whose bytes strings write.
#[tactic(auto, unfolding(crate::specs::Strings::strings))]
pub(crate) fn strings(alloc: Global, text: &[u8]) -> Result<Option<Vec<u8>>, AllocError>
    ensures exact { IfOk result (λ it. option_map (λ image. image.items) it ≡ strings text.now) }
{
    let escapes = without_quotes(alloc, text)?;
    match escaped(alloc, &escapes)? {
        Some(bytes) => Ok(whole_image(bytes)),
        None => Ok(None),
    }
}
