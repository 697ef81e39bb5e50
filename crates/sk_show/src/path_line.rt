//! The line of one instruction of a path.
ghost use Rattle.std.specs.Prelude.{◌≡◌, ◌++◌, ◌-◌, OnOk, string_bytes};
ghost use Rattle.std.specs.List.{join_with_byte};
ghost use Rattle.sk_insn.specs.Operations.{operation_of};
ghost use Rattle.sk_asm.specs.Listing.{words_for};
ghost use Rattle.sk_show.specs.PathText.{indent, jump_text, padded, registers_text, right_of, spaces, step_text, to_text};

use crate::compared::push_compared;
use crate::held::Held;
use crate::tracing::{Registers, Step};
use sk_asm::push_words;
use sk_insn::{Insn, Operand, Operation, decode};
use sk_names::Architecture;
use std::alloc::AllocError;
use std::fmt::Write;

/// The columns of an instruction.
const COLUMNS: usize = 24;

/// Appends the line of an instruction, where it is known what A held before it.
#[tactic(auto, unfolding(crate::specs::PathText::step_text))]
pub fn push_step(
    text: &mut String,
    architecture: Architecture,
    held: Held,
    step: Step,
) -> Result<(), AllocError>
    ensures line { OnOk result (string_bytes text.new ≡ string_bytes text.old ++ step_text architecture held step) }
{
    let place = step.place;
    push_spaces(text, indent(place))?;
    write!(text, "{place} ")?;
    push_insn(text, step.insn)?;
    push_registers(text, step.behind)?;
    push_jump(text, architecture, held, step)?;
    text.push_str("\n")
}

fn indent(place: usize) -> usize
    ensures indent { result ≡ indent place }
{
    match place {
        0..=9 => 3,
        10..=99 => 2,
        100..=999 => 1,
        _ => 0,
    }
}

fn push_spaces(text: &mut String, count: usize) -> Result<(), AllocError>
    ensures spaces { OnOk result (string_bytes text.new ≡ string_bytes text.old ++ spaces count) }
{
    let mut left = count;
    while left > 0 {
        text.push_str(" ")?;
        left -= 1;
    }
    Ok(())
}

fn push_insn(text: &mut String, insn: Insn) -> Result<(), AllocError>
    ensures insn { OnOk result (string_bytes text.new ≡ string_bytes text.old ++ padded (join_with_byte 32 (words_for insn))) }
{
    let start = text.len();
    push_words(text, insn)?;
    let written = text.len() - start;
    push_spaces(text, COLUMNS.saturating_sub(written))
}

fn push_registers(text: &mut String, registers: Registers) -> Result<(), AllocError>
    ensures registers { OnOk result (string_bytes text.new ≡ string_bytes text.old ++ registers_text registers) }
{
    let Registers { a, x } = registers;
    write!(text, " A={a} X={x}")
}

fn push_jump(
    text: &mut String,
    architecture: Architecture,
    held: Held,
    step: Step,
) -> Result<(), AllocError>
    ensures jump { OnOk result (string_bytes text.new ≡ string_bytes text.old ++ jump_text architecture held (operation_of step.insn.code) step) }
{
    match decode(step.insn.code) {
        Some(Operation::Jump) => {
            text.push_str("  ")?;
            push_to(text, step.next)
        }
        Some(Operation::Branch(comparison, right)) => {
            text.push_str("  ")?;
            push_compared(
                text,
                architecture,
                held,
                comparison,
                step.before.a,
                right_of(right, step),
            )?;
            text.push_str(": ")?;
            push_to(text, step.next)
        }
        _ => Ok(()),
    }
}

fn right_of(right: Operand, step: Step) -> u32
    ensures number { result ≡ right_of right step }
{
    match right {
        Operand::Constant => step.insn.k,
        Operand::IndexRegister => step.before.x,
    }
}

fn push_to(text: &mut String, next: Option<usize>) -> Result<(), AllocError>
    ensures place { OnOk result (string_bytes text.new ≡ string_bytes text.old ++ to_text next) }
{
    match next {
        Some(place) => write!(text, "to {place}"),
        None => Ok(()),
    }
}
