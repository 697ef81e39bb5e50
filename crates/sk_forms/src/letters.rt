//! Images in base64.
ghost use Rattle.std.specs.Prelude.{◌≡◌, IfOk};
ghost use Rattle.std.specs.List.{list_all};
ghost use Rattle.std.specs.Option.{option_map};
ghost use Rattle.std.specs.Result.{result_ok};
ghost use Rattle.base64.specs.Engines.{standard};
ghost use Rattle.base64.specs.GeneralPurpose.{decode_of};
ghost use Rattle.sk_text.specs.Numbers.{is_digit_in};
ghost use Rattle.sk_forms.specs.Base64.{base64, ends_line, letters, without_ends};

use crate::dump::whole_image;
use base64::DecodeAllocError;
use base64::engine::general_purpose::STANDARD;
use std::alloc::{AllocError, Global};

fn ends_line(byte: u8) -> bool
    ensures ends { result ≡ ends_line byte }
{
    matches!(byte, b'\n' | b'\r')
}

fn without_ends(alloc: Global, text: &[u8]) -> Result<Vec<u8>, AllocError>
    ensures rest { IfOk result (λ rest. rest.items ≡ without_ends text.now) }
{
    text.iter()
        .copied()
        .filter(|byte| !ends_line(*byte))
        .collect(alloc)
}

fn all_hexadecimal(text: &[u8]) -> bool
    ensures every { result ≡ list_all (is_digit_in 16) text.now }
{
    text.iter().all(|byte| char::from(*byte).is_digit(16))
}

// The bytes that letters stand for.
fn decoded(alloc: Global, letters: &[u8]) -> Result<Option<Vec<u8>>, AllocError>
    ensures exact { IfOk result (λ it. option_map (λ bytes. bytes.items) it ≡ result_ok (decode_of standard letters.now)) }
{
    match STANDARD.decode(alloc, letters) {
        Ok(bytes) => Ok(Some(bytes)),
        Err(DecodeAllocError::DecodeError(_)) => Ok(None),
        Err(DecodeAllocError::OutOfMemory) => Err(AllocError),
    }
}

#[tactic(auto, unfolding(crate::specs::Base64::letters))]
fn letters(alloc: Global, text: &[u8]) -> Result<Option<Vec<u8>>, AllocError>
    ensures exact { IfOk result (λ it. option_map (λ image. image.items) it ≡ letters text.now) }
{
    if all_hexadecimal(text) {
        return Ok(None);
    }
    match decoded(alloc, text)? {
        Some(bytes) => Ok(whole_image(bytes)),
        None => Ok(None),
    }
}

/// The image that a text in base64 stands for, wherever its lines end.
#[tactic(auto, unfolding(crate::specs::Base64::base64))]
pub(crate) fn base64_image(alloc: Global, text: &[u8]) -> Result<Option<Vec<u8>>, AllocError>
    ensures exact { IfOk result (λ it. option_map (λ image. image.items) it ≡ base64 text.now) }
{
    let text = without_ends(alloc, text)?;
    letters(alloc, &text)
}
