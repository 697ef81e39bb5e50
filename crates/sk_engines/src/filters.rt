//! The filters that a command is given: their bytes, and how they are attached.
ghost use Rattle.std.specs.Prelude.{◌≡◌, IfOk, [], map};
ghost use Rattle.std.specs.Option.{option_map};
ghost use Rattle.sk_insn.specs.Instructions.{image_instructions};
ghost use Rattle.sk_filter.specs.FirstFault.{first_fault};
ghost use Rattle.sk_text.specs.Lines.{words_of};
ghost use Rattle.sk_text.specs.Hexadecimal.{hex_bytes};
ghost use Rattle.sk_engines.specs.Filters.{chained, image_attached, program_attached};

use sk_filter::{ChainFault, CheckFault, Checked, Filters, check};
use sk_insn::{Insn, NoImage, read_image};
use sk_text::{HexFault, Words, bytes_of};
use std::alloc::{AllocError, Global};

/// The most filters of an input.
pub const MOST_FILTERS: usize = 32;

/// Why a filter is not attached.
#[derive(Clone, Copy, Debug, PartialEq, Eq)]
pub enum Refusal {
    /// Its bytes are no image.
    Image(NoImage),
    /// Its program is not valid.
    Program(CheckFault),
    /// The filters before it leave no room for it.
    PathLimit,
}

/// The bytes that the words of a line are, where they are hexadecimal digits.
pub fn bytes_in(alloc: Global, digits: Words<'_>) -> Result<Option<Vec<u8>>, AllocError>
    ensures exact { IfOk result (λ bytes. option_map (λ bytes. bytes.items) bytes ≡ hex_bytes (words_of digits.entry.0.now)) }
{
    match bytes_of(alloc, digits) {
        Ok(bytes) => Ok(Some(bytes)),
        Err(HexFault::NotHexadecimal) => Ok(None),
        Err(HexFault::Memory) => Err(AllocError),
    }
}

/// Attaches the filters with these images, the oldest first. The first one that is refused is told by its number,
/// from 0 on.
pub fn attach_images(
    alloc: Global,
    images: &[Vec<u8>],
) -> Result<Result<Filters, (usize, Refusal)>, AllocError>
    ensures chain { IfOk result (λ filters. filters ≡ chained 0 [] (map (λ image. image.items) images.now)) }
{
    let mut filters = Filters::empty(alloc);
    for (number, image) in images.iter().enumerate() {
        filters = match attach_image(alloc, filters, image.as_slice())? {
            Ok(filters) => filters,
            Err(refusal) => return Ok(Err((number, refusal))),
        };
    }
    Ok(Ok(filters))
}

fn attach_image(
    alloc: Global,
    filters: Filters,
    image: &[u8],
) -> Result<Result<Filters, Refusal>, AllocError>
    ensures chain { IfOk result (λ attached. attached ≡ image_attached filters (image_instructions image.now)) }
{
    match read_image(alloc, image)? {
        Ok(insns) => attach_program(filters, insns),
        Err(why) => Ok(Err(Refusal::Image(why))),
    }
}

fn attach_program(
    filters: Filters,
    insns: Vec<Insn>,
) -> Result<Result<Filters, Refusal>, AllocError>
    ensures chain { IfOk result (λ attached. attached ≡ program_attached filters insns.items (first_fault insns.items)) }
{
    match check(insns) {
        Ok(program) => attach(filters, program),
        Err((_, fault)) => Ok(Err(Refusal::Program(fault))),
    }
}

fn attach(filters: Filters, program: Checked) -> Result<Result<Filters, Refusal>, AllocError>
    ensures chain { IfOk result (λ attached. attached ≡ program_attached filters program None) }
{
    match filters.attach(program) {
        Ok(filters) => Ok(Ok(filters)),
        Err((_, _, ChainFault::PathLimit)) => Ok(Err(Refusal::PathLimit)),
        Err((_, _, ChainFault::Memory)) => Err(AllocError),
    }
}
