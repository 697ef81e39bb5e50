//! Images of architectures whose numbers have their highest byte first.
ghost use Rattle.std.specs.Prelude.{◌≡◌, ◌*◌, ◌≤◌, length, vec_len, IfOk};
ghost use Rattle.std.specs.Option.{option_map};
ghost use Rattle.sk_ask.specs.Orders.{big_insn_of, big_instructions_in, taken_turned, turned};

use byteorder::{BigEndian, ByteOrder};
use sk_filter::check;
use sk_insn::{Insn, write_insns};
use std::alloc::{AllocError, Global};

// The image with the lowest byte first for bytes of which it is asked whether they are one with the highest byte first.
pub(crate) fn taken_turned(
    alloc: Global,
    big_endian: bool,
    bytes: &[u8],
) -> Result<Option<Vec<u8>>, AllocError>
    ensures turned { IfOk result (λ it. option_map (λ image. image.items) it ≡ taken_turned big_endian bytes.now) }
{
    if big_endian {
        turned(alloc, bytes)
    } else {
        Ok(None)
    }
}

fn turned(alloc: Global, bytes: &[u8]) -> Result<Option<Vec<u8>>, AllocError>
    ensures turned { IfOk result (λ it. option_map (λ image. image.items) it ≡ turned bytes.now) }
{
    if bytes.len() % 8 != 0 {
        return Ok(None);
    }
    match check(insns_in(alloc, bytes, bytes.len() / 8)?) {
        Ok(program) => Ok(Some(write_insns(alloc, program.insns())?)),
        Err((_, _)) => Ok(None),
    }
}

fn insns_in(alloc: Global, bytes: &[u8], count: usize) -> Result<Vec<Insn>, AllocError>
    requires whole { 8 * count ≡ length bytes.now }
    ensures insns { IfOk result (λ insns. insns.items ≡ big_instructions_in count bytes.now) }
{
    let mut insns = Vec::with_capacity(alloc, count)?;
    let mut rest = bytes;
    for _place in 0..count {
        insns.push(insn_at(rest))?;
        let (_, after) = rest.split_at(8);
        rest = after;
    }
    Ok(insns)
}

fn insn_at(bytes: &[u8]) -> Insn
    requires whole { 8 ≤ length bytes.now }
    ensures insn { result ≡ big_insn_of bytes.now }
{
    Insn {
        code: BigEndian::read_u16(bytes),
        jt: bytes[2],
        jf: bytes[3],
        k: BigEndian::read_u32(&bytes[4..]),
    }
}
