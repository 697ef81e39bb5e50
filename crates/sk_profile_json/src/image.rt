//! The image of instructions.
ghost use Rattle.std.specs.Prelude.{◌≡◌, ◌++◌, IfOk, OnOk, Ok};
ghost use Rattle.sk_filter.specs.Valid.{IsValid};
ghost use Rattle.sk_insn.specs.Instructions.{image_instructions, instruction_bytes};
ghost use Rattle.sk_profile_json.specs.Ranges.{IsInRange};

use sk_insn::Insn;
use std::alloc::{AllocError, Global};

/// The bytes that are read as the instructions of a valid program.
pub(crate) fn image_of(alloc: Global, insns: &[Insn]) -> Result<Vec<u8>, AllocError>
    requires valid { IsValid insns.now }
    ensures read { IfOk result (λ image. image_instructions image.items ≡ Ok insns.now) }
{
    let mut image = Vec::new(alloc);
    for insn in insns {
        push_insn(&mut image, *insn)?;
    }
    Ok(image)
}

fn push_insn(image: &mut Vec<u8>, insn: Insn) -> Result<(), AllocError>
    ensures bytes { OnOk result (image.new.items ≡ image.old.items ++ instruction_bytes insn) }
    ensures range { IsInRange insn }
{
    image.extend_from_slice(&insn.bytes())
}
