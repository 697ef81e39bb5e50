//! What is told of one filter.
ghost use Rattle.std.specs.Prelude.{◌≡◌, IfOk, IsErr, IsOk};
ghost use Rattle.sk_insn.specs.Instructions.{image_instructions};
ghost use Rattle.sk_filter.specs.FirstFault.{first_fault};
ghost use Rattle.sk_filter.specs.Valid.{IsValid};
ghost use Rattle.libskern.specs.Faults.{fine, told_of_image, told_of_program};

use crate::{Fault, reason};
use sk_engines::Refusal;
use sk_filter::check;
use sk_insn::{Insn, read_image};
use std::alloc::{AllocError, Global};

/// Whether an image is a valid filter, or its first fault.
pub(crate) fn told_of_image(alloc: Global, image: &[u8]) -> Result<Fault, AllocError>
    ensures told { IfOk result (λ fault. fault ≡ told_of_image (image_instructions image.now)) }
    ensures valid { IfOk result (λ fault. fault.reason ≡ fine → IfOk (image_instructions image.now) IsValid) }
    ensures memory { IsErr result → IsOk (image_instructions image.now) }
{
    match read_image(alloc, image)? {
        Ok(insns) => Ok(told_of_program(insns)),
        Err(why) => Ok(Fault::refused(0, 0, Refusal::Image(why))),
    }
}

fn told_of_program(insns: Vec<Insn>) -> Fault
    ensures told { result ≡ told_of_program (first_fault insns.items) }
    ensures valid { result.reason ≡ fine → IsValid insns.items }
{
    match check(insns) {
        Ok(_) => Fault::plain(reason::FINE),
        Err((_, fault)) => Fault::refused(0, 0, Refusal::Program(fault)),
    }
}
