//! What is said of an instruction beside its place.
ghost use Rattle.std.specs.Prelude.{◌≡◌, ◌++◌, ◌≤◌, ◌<◌, OnOk, string_bytes};
ghost use Rattle.std.specs.Option.{option_map};
ghost use Rattle.sk_insn.specs.Operations.{operation_of};
ghost use Rattle.sk_show.specs.Notes.{argument_text, architecture_of, architecture_text, call_name, compared_text, field_text, half_text, is_turned, named_text, note_text};

use crate::held::Held;
use sk_filter::push_verdict;
use sk_insn::{Comparison, Insn, Operand, Operation, decode};
use sk_names::{Architecture, name};
use std::alloc::AllocError;
use std::fmt::Write;

// Appends what is said of an instruction before which A holds this.
#[tactic(auto, unfolding(crate::specs::Notes::note_text))]
pub(crate) fn push_note(
    text: &mut String,
    architecture: Option<Architecture>,
    held: Held,
    insn: Insn,
) -> Result<(), AllocError>
    ensures note { OnOk result (string_bytes text.new ≡ string_bytes text.old ++ note_text architecture held (operation_of insn.code) insn) }
{
    match decode(insn.code) {
        Some(Operation::LoadRecord) => push_field(text, is_turned(architecture), insn.k),
        Some(Operation::Branch(comparison, Operand::Constant)) => {
            push_compared(text, architecture, held, comparison, insn.k)
        }
        Some(Operation::ReturnConstant) => {
            text.push_str(" ")?;
            push_verdict(text, insn.k)
        }
        _ => Ok(()),
    }
}

fn is_turned(architecture: Option<Architecture>) -> bool
    ensures turned { result ≡ is_turned architecture }
{
    match architecture {
        Some(architecture) => architecture.is_big_endian(),
        None => false,
    }
}

#[tactic(auto, unfolding(crate::specs::Notes::field_text))]
fn push_field(text: &mut String, turned: bool, place: u32) -> Result<(), AllocError>
    ensures field { OnOk result (string_bytes text.new ≡ string_bytes text.old ++ field_text turned place) }
{
    match place {
        0 => text.push_str(" nr"),
        4 => text.push_str(" arch"),
        8 | 12 => {
            let half = half(turned, place);
            write!(text, " ip{half}")
        }
        16..=63 if place % 4 == 0 => push_argument(text, turned, place),
        _ => Ok(()),
    }
}

#[tactic(auto, unfolding(crate::specs::Notes::argument_text))]
fn push_argument(text: &mut String, turned: bool, place: u32) -> Result<(), AllocError>
    requires argument { 16 ≤ place }
    ensures argument { OnOk result (string_bytes text.new ≡ string_bytes text.old ++ argument_text turned place) }
{
    let number = (place - 16) / 8;
    let half = half(turned, place);
    write!(text, " args[{number}]{half}")
}

fn half(turned: bool, place: u32) -> &'static str
    ensures half { result.now ≡ half_text turned place }
{
    let low = if turned { 4 } else { 0 };
    if place % 8 == low { " low" } else { " high" }
}

fn push_compared(
    text: &mut String,
    architecture: Option<Architecture>,
    held: Held,
    comparison: Comparison,
    number: u32,
) -> Result<(), AllocError>
    ensures compared { OnOk result (string_bytes text.new ≡ string_bytes text.old ++ compared_text architecture held comparison number) }
{
    match (held, comparison) {
        (_, Comparison::CommonBits) => Ok(()),
        (Held::Number, _) => push_named(text, call_name(architecture, number)),
        (Held::Architecture, _) => push_architecture(text, number),
        (Held::Other, _) => Ok(()),
    }
}

fn call_name(architecture: Option<Architecture>, number: u32) -> Option<&'static str>
    ensures name { option_map (λ name. name.now) result ≡ call_name architecture number }
{
    name(architecture?, number)
}

fn push_named(text: &mut String, name: Option<&str>) -> Result<(), AllocError>
    ensures name { OnOk result (string_bytes text.new ≡ string_bytes text.old ++ named_text (option_map (λ name. name.now) name.entry)) }
{
    match name {
        Some(name) => write!(text, " {name}"),
        None => Ok(()),
    }
}

fn push_architecture(text: &mut String, number: u32) -> Result<(), AllocError>
    ensures architecture { OnOk result (string_bytes text.new ≡ string_bytes text.old ++ architecture_text number) }
{
    push_named(text, architecture_of(number).map(Architecture::text))
}

// The first architecture that a filter is shown by this number.
fn architecture_of(number: u32) -> Option<Architecture>
    ensures first { result ≡ architecture_of number }
{
    Architecture::ALL
        .iter()
        .copied()
        .find(|architecture| architecture.audit() == number)
}
