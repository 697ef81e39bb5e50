//! Images of filters: how they are read, why bytes are none, and how they are written.
ghost use Rattle.std.specs.Prelude.{◌≡◌, ◌*◌, ◌≤◌, length, IfOk, IfErr, IsErr, IsOk, MatchResult, Ok, Err, vec_len};
ghost use Rattle.sk_insn.specs.Instructions.{insn_of, instructions_in, image_instructions, instructions_of, image_of, Reads, IsReadingFault};

use crate::Insn;
use byteorder::{ByteOrder, LittleEndian};
use std::alloc::{AllocError, Global};

/// The most instructions that a filter may have.
pub const MOST_INSNS: usize = 4096;

/// Why bytes are no image of a filter, in the order in which it is looked for.
#[derive(Clone, Copy, Debug, PartialEq, Eq)]
pub enum NoImage {
    /// The length is no multiple of 8.
    Ragged,
    /// There is no instruction.
    Empty,
    /// There are more than 4096 instructions.
    TooLong,
}

/// Why an image is not read.
#[derive(Clone, Copy, Debug, PartialEq, Eq)]
pub enum ImageFault {
    /// The length is no multiple of 8.
    Ragged,
    /// There is no instruction.
    Empty,
    /// There are more than 4096 instructions.
    TooLong,
    /// No memory for the instructions.
    Memory,
}

impl From<NoImage> for ImageFault {
    ghost use Rattle.std.specs.Prelude.{◌≡◌};
    ghost use Rattle.sk_insn.specs.Instructions.{reading_fault};

    ghost from_gives = { λ why fault. fault ≡ reading_fault why };

    fn from(why: NoImage) -> ImageFault {
        match why {
            NoImage::Ragged => ImageFault::Ragged,
            NoImage::Empty => ImageFault::Empty,
            NoImage::TooLong => ImageFault::TooLong,
        }
    }
}

impl From<AllocError> for ImageFault {
    ghost use Rattle.std.specs.Prelude.{◌≡◌};
    ghost use Rattle.sk_insn.specs.declared.image.ImageFault.TheVariants.{Memory};

    ghost from_gives = { λ _ fault. fault ≡ Memory };

    fn from(_refused: AllocError) -> ImageFault {
        ImageFault::Memory
    }
}

/// The instructions of an image, as seccomp(2) takes them.
pub fn read_insns(alloc: Global, image: &[u8]) -> Result<Vec<Insn>, ImageFault>
    ensures exact { IfOk result (λ insns. instructions_of image.now ≡ Ok insns.items) }
    ensures fault { IfErr result (λ fault. IsReadingFault fault (instructions_of image.now)) }
    ensures size { IfOk result (λ insns. (1 ≤ vec_len insns) × (vec_len insns ≤ 4096)) }
    ensures spelled { IfOk result (λ insns. image_of insns.items ≡ image.now) }
{
    let insns = read_image(alloc, image)??;
    Ok(insns)
}

/// The instructions of an image, or why the bytes are none, which takes no memory to find.
pub fn read_image(alloc: Global, image: &[u8]) -> Result<Result<Vec<Insn>, NoImage>, AllocError>
    ensures exact { IfOk result (λ read. Reads (λ insns. insns.items) read (image_instructions image.now)) }
    ensures memory { IsErr result → IsOk (image_instructions image.now) }
    ensures size { IfOk result (λ read. IfOk read (λ insns. (1 ≤ vec_len insns) × (vec_len insns ≤ 4096))) }
    ensures spelled { IfOk result (λ read. IfOk read (λ insns. image_of insns.items ≡ image.now)) }
{
    match insn_count(image) {
        Ok(count) => Ok(Ok(insns_in(alloc, image, count)?)),
        Err(why) => Ok(Err(why)),
    }
}

fn insn_count(image: &[u8]) -> Result<usize, NoImage>
    ensures exact { Reads (λ count. instructions_in count image.now) result (image_instructions image.now) }
    ensures whole { IfOk result (λ count. 8 * count ≡ length image.now) }
    ensures size { IfOk result (λ count. (1 ≤ count) × (count ≤ 4096)) }
{
    let count = image.len() / 8;
    if image.len() % 8 != 0 {
        Err(NoImage::Ragged)
    } else if count == 0 {
        Err(NoImage::Empty)
    } else if count > MOST_INSNS {
        Err(NoImage::TooLong)
    } else {
        Ok(count)
    }
}

fn insns_in(alloc: Global, image: &[u8], count: usize) -> Result<Vec<Insn>, AllocError>
    requires { 8 * count ≡ length image.now }
    ensures insns { IfOk result (λ insns. insns.items ≡ instructions_in count image.now) }
    ensures count { IfOk result (λ insns. vec_len insns ≡ count) }
    ensures spelled { IfOk result (λ insns. image_of insns.items ≡ image.now) }
{
    let mut insns = Vec::with_capacity(alloc, count)?;
    let mut rest = image;
    for _place in 0..count {
        insns.push(insn_at(rest))?;
        let (_, after) = rest.split_at(8);
        rest = after;
    }
    Ok(insns)
}

fn insn_at(bytes: &[u8]) -> Insn
    requires { 8 ≤ length bytes.now }
    ensures { result ≡ insn_of bytes.now }
{
    Insn {
        code: LittleEndian::read_u16(bytes),
        jt: bytes[2],
        jf: bytes[3],
        k: LittleEndian::read_u32(&bytes[4..]),
    }
}

/// The image of these instructions.
pub fn write_insns(alloc: Global, insns: &[Insn]) -> Result<Vec<u8>, AllocError>
    ensures image { IfOk result (λ image. image.items ≡ image_of insns.now) }
{
    let mut image = vec![in alloc; 0; 8 * insns.len()]?;
    write_each(&mut image, insns);
    Ok(image)
}

// Eight bytes are copied at a time into room that is there already.
#[inline(always)]
fn write_each(image: &mut [u8], insns: &[Insn])
    requires { length image.old ≡ 8 * length insns.now }
    ensures image { image.new ≡ image_of insns.now }
{
    for (place, insn) in insns.iter().enumerate() {
        image[8 * place..8 * place + 8].copy_from_slice(&insn.bytes());
    }
}
