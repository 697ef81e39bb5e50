//! The input of `check` and `list`: the image of a program in hexadecimal digits.
ghost use Rattle.std.specs.Prelude.{◌≡◌, List, IfOk};
ghost use Rattle.sk_insn.specs.declared.insn.Insn.{Insn};
ghost use Rattle.sk_engines.specs.Output.{Output};
ghost use Rattle.sk_engines.specs.OnImage.{on_image};
ghost use Rattle.sk_engines.specs.Reading.{ReadsImage};

use crate::refusal::image_refused;
use crate::reply::Reply;
use sk_insn::{Insn, read_image};
use sk_text::{HexFault, bytes_of_text};
use std::alloc::{AllocError, Global};

/// The instructions of an image, or the answer that refuses it.
pub fn instructions_in(alloc: Global, digits: &[u8]) -> Result<Result<Vec<Insn>, Reply>, AllocError>
    ensures read { IfOk result (λ read. (answer : List Insn → Output) → ReadsImage answer read (on_image answer digits.now)) }
{
    let image = match bytes_of_text(alloc, digits) {
        Ok(image) => image,
        Err(HexFault::NotHexadecimal) => return Ok(Err(Reply::refused("skern: not hexadecimal"))),
        Err(HexFault::Memory) => return Err(AllocError),
    };
    Ok(read_image(alloc, &image)?.map_err(image_refused))
}
