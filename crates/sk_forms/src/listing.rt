//! The image of the filter that a text writes.
ghost use Rattle.std.specs.Prelude.{◌≡◌, IfOk};
ghost use Rattle.std.specs.Option.{option_map};
ghost use Rattle.sk_forms.specs.Tokens.{tokens_in};
ghost use Rattle.sk_forms.specs.Arrays.{in_one_line};
ghost use Rattle.sk_forms.specs.Listings.{bytes_written, instructions_written, listing_of};

use crate::array::{array, in_one_line};
use crate::byte_array::byte_array;
use crate::decimals::decimals;
use crate::dump::{dump, whole_image};
use crate::letters::base64_image;
use crate::strings::strings;
use crate::table::table;
use crate::token::{Token, tokens_in};
use sk_insn::{Insn, write_insns};
use std::alloc::{AllocError, Global};

// The instructions that a text writes, of which these are the tokens, and these without line ends.
#[tactic(auto, unfolding(crate::specs::Listings::instructions_written))]
fn instructions_written(
    alloc: Global,
    text: &[u8],
    tokens: &[Token],
    line: &[Token],
) -> Result<Option<Vec<Insn>>, AllocError>
    requires tokens { tokens.now ≡ tokens_in text.now }
    requires line { line.now ≡ in_one_line tokens.now }
    ensures exact { IfOk result (λ it. option_map (λ insns. insns.items) it ≡ instructions_written text.now) }
{
    if let Some(insns) = decimals(alloc, tokens)? {
        return Ok(Some(insns));
    }
    if let Some(insns) = array(alloc, line)? {
        return Ok(Some(insns));
    }
    table(alloc, text)
}

// The image whose bytes a text writes, of which these are the tokens without line ends.
#[tactic(auto, unfolding(crate::specs::Listings::bytes_written))]
fn bytes_written(alloc: Global, text: &[u8], line: &[Token]) -> Result<Option<Vec<u8>>, AllocError>
    requires line { line.now ≡ in_one_line (tokens_in text.now) }
    ensures exact { IfOk result (λ it. option_map (λ image. image.items) it ≡ bytes_written text.now) }
{
    if let Some(bytes) = byte_array(alloc, line)? {
        return Ok(whole_image(bytes));
    }
    if let Some(image) = dump(alloc, text)? {
        return Ok(Some(image));
    }
    if let Some(image) = strings(alloc, text)? {
        return Ok(Some(image));
    }
    base64_image(alloc, text)
}

/// The image of the filter that a text in one of the published forms writes. Whether it is valid is not asked.
#[tactic(auto, unfolding(crate::specs::Listings::listing_of))]
pub fn listed(alloc: Global, bytes: &[u8]) -> Result<Option<Vec<u8>>, AllocError>
    ensures exact { IfOk result (λ it. option_map (λ image. image.items) it ≡ listing_of bytes.now) }
{
    let tokens = tokens_in(alloc, bytes)?;
    let line = in_one_line(alloc, &tokens)?;
    match instructions_written(alloc, bytes, &tokens, &line)? {
        Some(insns) => Ok(Some(write_insns(alloc, &insns)?)),
        None => bytes_written(alloc, bytes, &line),
    }
}
