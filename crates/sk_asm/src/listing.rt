//! The lines of all instructions.
ghost use Rattle.std.specs.Prelude.{◌≡◌, ◌≤◌, IfOk, length, string_bytes};
ghost use Rattle.sk_asm.specs.Assembly.{AssemblesText};
ghost use Rattle.sk_asm.specs.Listing.{listing_of};

use crate::line::push_line;
use sk_insn::Insn;
use std::alloc::{AllocError, Global};

/// The text that lists instructions, whether their codes are permitted or not.
pub fn list(alloc: Global, insns: &[Insn]) -> Result<String, AllocError>
    ensures text { IfOk result (λ text. string_bytes text ≡ listing_of insns.now) }
    ensures assembles { IfOk result (λ text.
        length insns.now ≤ 4096 → AssemblesText (string_bytes text) insns.now) }
{
    let mut text = String::new(alloc);
    for insn in insns {
        push_line(&mut text, *insn)?;
    }
    Ok(text)
}
