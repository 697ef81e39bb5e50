//! The lines of one instruction.
ghost use Rattle.std.specs.Prelude.{◌≡◌, ◌++◌, ◌<◌, ◌^◌, ◌∷◌, [], OnOk, codes, string_bytes};
ghost use Rattle.std.specs.List.{join_with_byte};
ghost use Rattle.sk_insn.specs.Operations.{name_of, operation_of};
ghost use Rattle.sk_asm.specs.RoundTrip.{IsInRange};
ghost use Rattle.sk_show.specs.Showing.{comment_line, insn_line, label_lines, label_name, lines_of_insn, shown_as, shown_words, side_word, text_of};

use crate::held::Held;
use crate::note::push_note;
use sk_asm::push_words;
use sk_insn::{Comparison, Insn, Operand, Operation, decode};
use sk_names::Architecture;
use std::alloc::AllocError;
use std::fmt::Write;

// Appends the lines of the instruction at a place among so many.
pub(crate) fn push_lines(
    text: &mut String,
    architecture: Option<Architecture>,
    count: usize,
    at: usize,
    jump: Option<Held>,
    held: Held,
    insn: Insn,
) -> Result<(), AllocError>
    requires near { at < 2 ^ 32 }
    ensures lines { OnOk result (string_bytes text.new ≡ string_bytes text.old ++ text_of (lines_of_insn architecture count at (record { jump = jump; held = held }) insn)) }
    // what the type says of its fields
    ensures range { IsInRange insn }
{
    push_label(text, at, jump)?;
    push_comment(text, architecture, at, held, insn)?;
    push_insn(text, count, at, insn)
}

fn push_label(text: &mut String, at: usize, jump: Option<Held>) -> Result<(), AllocError>
    ensures label { OnOk result (string_bytes text.new ≡ string_bytes text.old ++ text_of (label_lines at jump)) }
{
    match jump {
        Some(_held) => write!(text, "at{at}:\n"),
        None => Ok(()),
    }
}

#[tactic(auto, unfolding(crate::specs::Showing::comment_line))]
fn push_comment(
    text: &mut String,
    architecture: Option<Architecture>,
    at: usize,
    held: Held,
    insn: Insn,
) -> Result<(), AllocError>
    ensures comment { OnOk result (string_bytes text.new ≡ string_bytes text.old ++ text_of (comment_line architecture at held insn ∷ [])) }
{
    write!(text, "; {at}")?;
    push_note(text, architecture, held, insn)?;
    text.push_str("\n")
}

#[tactic(auto, unfolding(crate::specs::Showing::insn_line))]
fn push_insn(text: &mut String, count: usize, at: usize, insn: Insn) -> Result<(), AllocError>
    requires near { at < 2 ^ 32 }
    ensures line { OnOk result (string_bytes text.new ≡ string_bytes text.old ++ text_of (insn_line count at insn ∷ [])) }
{
    text.push_str("    ")?;
    push_shown(text, count, at, insn)?;
    text.push_str("\n")
}

#[tactic(auto, unfolding(crate::specs::Showing::shown_words))]
fn push_shown(text: &mut String, count: usize, at: usize, insn: Insn) -> Result<(), AllocError>
    requires near { at < 2 ^ 32 }
    ensures words { OnOk result (string_bytes text.new ≡ string_bytes text.old ++ join_with_byte 32 (shown_words count at insn)) }
{
    match decode(insn.code) {
        Some(Operation::Jump) if insn.jt == 0 && insn.jf == 0 => {
            text.push_str("ja ")?;
            push_side(text, count, at, insn.k)
        }
        Some(Operation::Branch(comparison, Operand::Constant)) => {
            push_name(text, comparison, Operand::Constant)?;
            let k = insn.k;
            write!(text, "{k} ")?;
            push_sides(text, count, at, insn)
        }
        Some(Operation::Branch(comparison, Operand::IndexRegister)) if insn.k == 0 => {
            push_name(text, comparison, Operand::IndexRegister)?;
            push_sides(text, count, at, insn)
        }
        _ => push_words(text, insn),
    }
}

fn push_name(text: &mut String, comparison: Comparison, right: Operand) -> Result<(), AllocError>
    ensures name { OnOk result (string_bytes text.new ≡ string_bytes text.old ++ (name_of (Operation.Branch comparison right) ++ codes " ")) }
{
    let name = Operation::Branch(comparison, right).name();
    write!(text, "{name} ")
}

fn push_sides(text: &mut String, count: usize, at: usize, insn: Insn) -> Result<(), AllocError>
    requires near { at < 2 ^ 32 }
    ensures sides { OnOk result (string_bytes text.new ≡ string_bytes text.old ++ (side_word count at insn.jt ++ (codes " " ++ side_word count at insn.jf))) }
{
    push_side(text, count, at, u32::from(insn.jt))?;
    text.push_str(" ")?;
    push_side(text, count, at, u32::from(insn.jf))
}

#[tactic(auto, unfolding(crate::specs::Showing::side_word))]
fn push_side(text: &mut String, count: usize, at: usize, distance: u32) -> Result<(), AllocError>
    requires near { at < 2 ^ 32 }
    ensures side { OnOk result (string_bytes text.new ≡ string_bytes text.old ++ side_word count at distance) }
{
    let place = at + 1 + distance as usize;
    if distance > 0 && place < count {
        write!(text, "at{place}")
    } else {
        write!(text, "+{distance}")
    }
}
