//! Arrays of bytes in C.
ghost use Rattle.std.specs.Prelude.{◌≡◌, IfOk};
ghost use Rattle.std.specs.Option.{option_map};
ghost use Rattle.sk_forms.specs.ByteArrays.{bare_bytes, byte_array, bytes_at, bytes_in_braces, declared_bytes, ends_bytes, tells_length};

use crate::array::all_declare;
use crate::first::{behind, cut_at, decimal_at, number_at, past};
use crate::token::Token;
use std::alloc::{AllocError, Global};

// The bytes that tokens begin with, and what stands behind them.
#[tactic(auto, unfolding(crate::specs::ByteArrays::bytes_at))]
fn bytes_at(alloc: Global, tokens: &[Token]) -> Result<(Vec<u8>, &[Token]), AllocError>
    ensures exact { IfOk result (λ given. (given.0.items, given.1.now) ≡ bytes_at tokens.now) }
{
    let mut bytes = Vec::new(alloc);
    let mut rest = tokens;
    for _turn in 0..tokens.len() {
        let Some((byte, after)) = number_at(0xff, rest) else {
            return Ok((bytes, rest));
        };
        bytes.push(byte as u8)?;
        let Some(next) = behind(b',', after) else {
            return Ok((bytes, after));
        };
        rest = next;
    }
    Ok((bytes, rest))
}

#[tactic(auto, unfolding(crate::specs::ByteArrays::bare_bytes))]
fn bare_bytes(alloc: Global, tokens: &[Token]) -> Result<Option<Vec<u8>>, AllocError>
    ensures exact { IfOk result (λ it. option_map (λ bytes. bytes.items) it ≡ bare_bytes tokens.now) }
{
    let (bytes, rest) = bytes_at(alloc, tokens)?;
    if rest.is_empty() {
        Ok(Some(bytes))
    } else {
        Ok(None)
    }
}

// Whether the declaration of a number says how many bytes there are.
#[tactic(auto, unfolding(crate::specs::ByteArrays::tells_length))]
fn tells_length(count: usize, tokens: &[Token]) -> bool
    ensures tells { result ≡ tells_length count tokens.now }
{
    let (head, body) = cut_at(b'=', tokens);
    match decimal_at(0xffff_ffff, body) {
        Some((number, rest)) => {
            all_declare(head) && number as usize == count && past(b';', rest).is_empty()
        }
        None => false,
    }
}

#[tactic(auto, unfolding(crate::specs::ByteArrays::ends_bytes))]
fn ends_bytes(count: usize, tokens: &[Token]) -> bool
    ensures ends { result ≡ ends_bytes count tokens.now }
{
    match behind(b'}', tokens) {
        Some(rest) => {
            let rest = past(b';', rest);
            rest.is_empty() || tells_length(count, rest)
        }
        None => false,
    }
}

#[tactic(auto, unfolding(crate::specs::ByteArrays::bytes_in_braces))]
fn bytes_in_braces(alloc: Global, tokens: &[Token]) -> Result<Option<Vec<u8>>, AllocError>
    ensures exact { IfOk result (λ it. option_map (λ bytes. bytes.items) it ≡ bytes_in_braces tokens.now) }
{
    let Some(inside) = behind(b'{', tokens) else {
        return Ok(None);
    };
    let (bytes, rest) = bytes_at(alloc, inside)?;
    if ends_bytes(bytes.len(), rest) {
        Ok(Some(bytes))
    } else {
        Ok(None)
    }
}

#[tactic(auto, unfolding(crate::specs::ByteArrays::declared_bytes))]
fn declared_bytes(alloc: Global, tokens: &[Token]) -> Result<Option<Vec<u8>>, AllocError>
    ensures exact { IfOk result (λ it. option_map (λ bytes. bytes.items) it ≡ declared_bytes tokens.now) }
{
    let (head, body) = cut_at(b'=', tokens);
    if all_declare(head) {
        bytes_in_braces(alloc, body)
    } else {
        Ok(None)
    }
}

/// The bytes of an array, with or without what stands around them.
#[tactic(auto, unfolding(crate::specs::ByteArrays::byte_array))]
pub(crate) fn byte_array(alloc: Global, tokens: &[Token]) -> Result<Option<Vec<u8>>, AllocError>
    ensures exact { IfOk result (λ it. option_map (λ bytes. bytes.items) it ≡ byte_array tokens.now) }
{
    if let Some(bytes) = bare_bytes(alloc, tokens)? {
        return Ok(Some(bytes));
    }
    if let Some(bytes) = bytes_in_braces(alloc, tokens)? {
        return Ok(Some(bytes));
    }
    declared_bytes(alloc, tokens)
}
