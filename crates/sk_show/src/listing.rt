//! The text of a whole filter.
ghost use Rattle.std.specs.Prelude.{◌≡◌, ◌≤◌, IfOk, length, string_bytes};
ghost use Rattle.sk_asm.specs.Assembly.{AssemblesText};
ghost use Rattle.sk_show.specs.Showing.{show_text};

use crate::coming::{named_at, reaches};
use crate::held::{Held, held_before, held_behind};
use crate::line::push_lines;
use crate::ways::{go_on, jump_to, no_jumps};
use sk_filter::Checked;
use sk_insn::Insn;
use sk_names::Architecture;
use std::alloc::{AllocError, Global};

/// The text of a filter for people: the instructions with their places, with labels where jumps go, and with notes. A call's
/// number has its name of the only architecture whose calls come there, by the tests of the architecture on the way, and of
/// this one where all come.
pub fn show(
    alloc: Global,
    architecture: Architecture,
    program: &Checked,
) -> Result<String, AllocError>
    ensures text { IfOk result (λ text. string_bytes text ≡ show_text architecture program.now) }
    ensures assembles { IfOk result (λ text. AssemblesText (string_bytes text) program.now) }
{
    shown(alloc, architecture, program.insns())
}

fn shown(alloc: Global, architecture: Architecture, insns: &[Insn]) -> Result<String, AllocError>
    requires few { length insns.now ≤ 4096 }
    ensures text { IfOk result (λ text. string_bytes text ≡ show_text architecture insns.now) }
    ensures assembles { IfOk result (λ text. AssemblesText (string_bytes text) insns.now) }
{
    let reaches = reaches(alloc, insns)?;
    let mut text = String::new(alloc);
    let mut jumps = no_jumps(alloc, insns.len())?;
    let mut next = Some(Held::Other);
    let mut at = 0;
    let mut rest = insns;
    while let Some((insn, left)) = rest.split_first() {
        let jump = jump_to(&jumps, at);
        let held = held_before(jump, next);
        let named = named_at(architecture, &reaches, at);
        push_lines(&mut text, named, insns.len(), at, jump, held, *insn)?;
        next = go_on(&mut jumps, at, *insn, held_behind(*insn, held));
        at += 1;
        rest = left;
    }
    Ok(text)
}
