//! `skern asm`: the image of a text, in hexadecimal digits.
ghost use Rattle.std.specs.Prelude.{◌≡◌, ◌++◌, IfOk, OnOk, flat_map, string_bytes};
ghost use Rattle.sk_asm.specs.Passes.{assembled};
ghost use Rattle.sk_engines.specs.AsmCommand.{assembled_answer, digits_line};

use crate::engine::Command;
use crate::reply::Reply;
use sk_asm::{AsmFault, assemble};
use sk_insn::Insn;
use sk_text::HexDigits;
use std::alloc::{AllocError, Global};
use std::fmt::Write;

// `skern asm`.
pub(crate) struct Assemble;

impl Command for Assemble {
    ghost answers = { λ text. assembled_answer (assembled text) };

    fn reply(alloc: Global, text: &[u8]) -> Result<Reply, AllocError> {
        match assemble(alloc, text) {
            Ok(insns) => Ok(Reply::Done(digits_of(alloc, &insns)?)),
            Err(AsmFault::Memory) => Err(AllocError),
            Err(AsmFault::Line { n }) => Ok(Reply::at_line(n, "not understood")),
            Err(AsmFault::Label { n }) => Ok(Reply::at_line(n, "no such name")),
            Err(AsmFault::Twice { n }) => Ok(Reply::at_line(n, "name given twice")),
            Err(AsmFault::Far { n }) => Ok(Reply::at_line(n, "jump too far")),
            Err(AsmFault::Back { n }) => Ok(Reply::at_line(n, "jump backwards")),
            Err(AsmFault::TooLong { n }) => Ok(Reply::at_line(n, "over the limit")),
        }
    }
}

fn digits_of(alloc: Global, insns: &[Insn]) -> Result<String, AllocError>
    ensures text { IfOk result (λ text. string_bytes text ≡ flat_map digits_line insns.now) }
{
    let mut text = String::with_capacity(alloc, insns.len().saturating_mul(17))?;
    for insn in insns {
        push_digits(&mut text, *insn)?;
    }
    Ok(text)
}

fn push_digits(text: &mut String, insn: Insn) -> Result<(), AllocError>
    ensures text { OnOk result (string_bytes text.new ≡ string_bytes text.old ++ digits_line insn) }
{
    let digits: HexDigits<16> = HexDigits::of(&insn.bytes());
    writeln!(text, "{digits}")
}
