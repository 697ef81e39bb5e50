//! What a conditional jump compared, with the name of a call where A held the call's number.
ghost use Rattle.std.specs.Prelude.{◌≡◌, ◌++◌, OnOk, string_bytes};
ghost use Rattle.std.specs.Option.{option_map};
ghost use Rattle.sk_show.specs.PathText.{bits_text, call_text, compared_call, compared_text, sign};

use crate::held::Held;
use sk_filter::holds;
use sk_insn::Comparison;
use sk_names::{Architecture, name};
use std::alloc::AllocError;
use std::fmt::Write;

/// Appends what A was compared with, as it came out.
#[tactic(auto, unfolding(crate::specs::PathText::compared_text))]
pub fn push_compared(
    text: &mut String,
    architecture: Architecture,
    held: Held,
    comparison: Comparison,
    a: u32,
    b: u32,
) -> Result<(), AllocError>
    ensures text { OnOk result (string_bytes text.new ≡ string_bytes text.old ++ compared_text architecture held comparison a b) }
{
    let met = holds(comparison, a, b);
    let between = sign(comparison, met);
    write!(text, "{a}{between}{b}")?;
    push_call(text, architecture, held, comparison, b)?;
    text.push_str(bits(comparison, met))
}

fn sign(comparison: Comparison, met: bool) -> &'static str
    ensures sign { result.now ≡ sign comparison met }
{
    match (comparison, met) {
        (Comparison::Equal, true) => " == ",
        (Comparison::Equal, false) => " != ",
        (Comparison::Greater, true) => " > ",
        (Comparison::Greater, false) => " <= ",
        (Comparison::GreaterOrEqual, true) => " >= ",
        (Comparison::GreaterOrEqual, false) => " < ",
        (Comparison::CommonBits, _) => " & ",
    }
}

fn bits(comparison: Comparison, met: bool) -> &'static str
    ensures bits { result.now ≡ bits_text comparison met }
{
    match (comparison, met) {
        (Comparison::CommonBits, true) => " != 0",
        (Comparison::CommonBits, false) => " == 0",
        _ => "",
    }
}

fn push_call(
    text: &mut String,
    architecture: Architecture,
    held: Held,
    comparison: Comparison,
    b: u32,
) -> Result<(), AllocError>
    ensures call { OnOk result (string_bytes text.new ≡ string_bytes text.old ++ compared_call architecture held comparison b) }
{
    match (held, comparison) {
        (Held::Number, Comparison::CommonBits) => Ok(()),
        (Held::Number, _) => push_name(text, name(architecture, b)),
        _ => Ok(()),
    }
}

fn push_name(text: &mut String, name: Option<&str>) -> Result<(), AllocError>
    ensures name { OnOk result (string_bytes text.new ≡ string_bytes text.old ++ call_text (option_map (λ name. name.now) name.entry)) }
{
    match name {
        Some(name) => write!(text, " {name}"),
        None => Ok(()),
    }
}
