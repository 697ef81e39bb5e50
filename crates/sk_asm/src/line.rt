//! The line of one instruction.
ghost use Rattle.std.specs.Prelude.{◌≡◌, ◌++◌, OnOk, ◌∷◌, string_bytes};
ghost use Rattle.std.specs.List.{join_with_byte};
ghost use Rattle.sk_insn.specs.Operations.{name_of};
ghost use Rattle.sk_asm.specs.Grammar.{shape_of};
ghost use Rattle.sk_asm.specs.RoundTrip.{IsInRange};
ghost use Rattle.sk_asm.specs.Listing.{unused_are_zero, operands_of, field_words, words_for, line_for};

use crate::Shape;
use sk_insn::{Insn, Operation, decode};
use sk_text::{hex_half, hex_word};
use std::alloc::AllocError;
use std::fmt::Write;

// Writes an instruction's line.
pub(crate) fn push_line(text: &mut String, insn: Insn) -> Result<(), AllocError>
    ensures line { OnOk result (string_bytes text.new ≡ string_bytes text.old ++ line_for insn) }
    // what the type says of its fields
    ensures range { IsInRange insn }
{
    push_words(text, insn)?;
    text.push_str("\n")
}

/// Appends an instruction's words, without the end of the line.
#[tactic(auto, unfolding(crate::specs::Listing::words_for))]
pub fn push_words(text: &mut String, insn: Insn) -> Result<(), AllocError>
    ensures words { OnOk result (string_bytes text.new ≡ string_bytes text.old ++ join_with_byte 32 (words_for insn)) }
{
    match decode(insn.code) {
        Some(operation) if unused_are_zero(Shape::of(operation), insn) => {
            push_form(text, operation, insn)
        }
        _ => push_fields(text, insn),
    }
}

// Whether the fields that a shape has no words for are 0.
fn unused_are_zero(shape: Shape, insn: Insn) -> bool
    ensures unused { result ≡ unused_are_zero shape insn }
{
    match shape {
        Shape::Bare => insn.jt == 0 && insn.jf == 0 && insn.k == 0,
        Shape::Number | Shape::Action | Shape::Target => insn.jt == 0 && insn.jf == 0,
        Shape::Compare => true,
        Shape::CompareIndex => insn.k == 0,
    }
}

// Writes an instruction in the form of its operation.
fn push_form(text: &mut String, operation: Operation, insn: Insn) -> Result<(), AllocError>
    ensures form { OnOk result (string_bytes text.new ≡ string_bytes text.old ++
        join_with_byte 32 (name_of operation ∷ operands_of (shape_of operation) insn)) }
{
    let name = operation.name();
    let Insn { jt, jf, k, .. } = insn;
    match Shape::of(operation) {
        Shape::Bare => text.push_str(name),
        Shape::Number => write!(text, "{name} {k}"),
        Shape::Action => {
            let digits = hex_word(k);
            write!(text, "{name} 0x{digits}")
        }
        Shape::Target => write!(text, "{name} +{k}"),
        Shape::Compare => write!(text, "{name} {k} +{jt} +{jf}"),
        Shape::CompareIndex => write!(text, "{name} +{jt} +{jf}"),
    }
}

fn push_fields(text: &mut String, insn: Insn) -> Result<(), AllocError>
    ensures fields { OnOk result (string_bytes text.new ≡ string_bytes text.old ++ join_with_byte 32 (field_words insn)) }
{
    let code = hex_half(insn.code);
    let k = hex_word(insn.k);
    let Insn { jt, jf, .. } = insn;
    write!(text, ".insn 0x{code} {jt} {jf} 0x{k}")
}
