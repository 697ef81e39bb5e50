//! Masks by the constants that they have, or that they lack.
ghost use Rattle.std.specs.Prelude.{◌≡◌, ◌++◌, ◌&&◌, not, true, false, IfNone, IfOk, IfSome};
ghost use Rattle.sk_terms.specs.Constants.{can_be_left_out, has_bits_of, is_unsigned, mask_of, parts_of};
ghost use Rattle.sk_terms.specs.Text.{group_text, mask_text};

use crate::constants::{LOWER_HALF, Part, are_constants, only, parts_of};
use sk_arguments::{Form, Set, form_of};
use std::alloc::{AllocError, Global};

/// A mask as C has it: an operator, and parts that stand together behind it.
#[derive(Drop)]
pub struct Written {
    pub before: &'static str,
    pub parts: Vec<Part>,
}

/// How a mask is written.
pub fn mask_of(alloc: Global, form: Form, mask: u64) -> Result<Written, AllocError>
    ensures text { IfOk result (λ it. it.before.now ++ group_text it.parts.items ≡ mask_text (mask_of form mask)) }
{
    if mask == LOWER_HALF || mask == u64::MAX - LOWER_HALF {
        let parts = only(alloc, Part::Number(mask))?;
        return Ok(Written { before: "", parts });
    }
    let parts = parts_of(alloc, form, mask, mask)?;
    if are_constants(&parts) {
        return Ok(Written { before: "", parts });
    }
    if let Some(parts) = left_out_as_int(alloc, form, u64::MAX - mask)? {
        return Ok(Written { before: "~", parts });
    }
    if mask > LOWER_HALF {
        return Ok(Written { before: "", parts });
    }
    if let Some(parts) = left_out(alloc, form, LOWER_HALF - mask)? {
        let before = "0xffffffff & ~";
        return Ok(Written { before, parts });
    }
    Ok(Written { before: "", parts })
}

// The constants that all bits of a number are, where `~` before them has 64 bits.
fn left_out_as_int(alloc: Global, form: Form, bits: u64) -> Result<Option<Vec<Part>>, AllocError>
    ensures none { IfOk result (λ found. IfNone found ((not (is_unsigned form) && can_be_left_out form bits) ≡ false)) }
    ensures some { IfOk result (λ found. IfSome found (λ parts. (not (is_unsigned form) && can_be_left_out form bits) ≡ true)) }
    ensures parts { IfOk result (λ found. IfSome found (λ parts. parts.items ≡ parts_of form bits bits)) }
{
    if is_unsigned(form) {
        return Ok(None);
    }
    left_out(alloc, form, bits)
}

// Whether C has the constants of some bits for unsigned numbers.
fn is_unsigned(form: Form) -> bool
    ensures unsigned { result ≡ is_unsigned form }
{
    let nothing = [None; 6];
    match form {
        Form::Bits(set, _) => {
            has_bits_of(set, form_of(319, 1, &nothing))
                || has_bits_of(set, form_of(332, 3, &nothing))
        }
        _ => false,
    }
}

fn has_bits_of(set: Set, form: Form) -> bool
    ensures has { result ≡ has_bits_of set form }
{
    match form {
        Form::Bits(other, _) => set.first == other.first && set.end == other.end,
        _ => false,
    }
}

// The constants that all bits of a number are, where none is bit 31.
fn left_out(alloc: Global, form: Form, bits: u64) -> Result<Option<Vec<Part>>, AllocError>
    ensures none { IfOk result (λ found. IfNone found (can_be_left_out form bits ≡ false)) }
    ensures some { IfOk result (λ found. IfSome found (λ parts. can_be_left_out form bits ≡ true)) }
    ensures parts { IfOk result (λ found. IfSome found (λ parts. parts.items ≡ parts_of form bits bits)) }
{
    if bits > LOWER_HALF / 2 {
        return Ok(None);
    }
    let parts = parts_of(alloc, form, bits, bits)?;
    Ok(if are_constants(&parts) {
        Some(parts)
    } else {
        None
    })
}
