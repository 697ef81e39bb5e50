//! What Linux takes a call of x86-64 for, by the halves of arguments that it reads.
ghost use Rattle.std.specs.Prelude.{◌≡◌, ◌+◌, ◌*◌, ◌^◌, ◌%◌, ◌≤◌, ◌<◌, IfOk};
ghost use Rattle.std.specs.List.{filter};
ghost use Rattle.sk_arguments.specs.Reading.{unread_places};
ghost use Rattle.sk_survey.specs.Taken.{loaded_places, taken_as, word_taken};
ghost use Rattle.sk_survey.specs.Without.{is_among};

use crate::looks::chain_loads;
use sk_arguments::{kind_of, reads_lower, reads_upper};
use sk_filter::Chain;
use sk_insn::Record;
use std::alloc::{AllocError, Global};

/// What Linux takes a call for: each half of an argument that it does not read is 0. A mode, of which it reads 16 bits, counts as
/// 32 bits.
pub fn taken_as(call: Record) -> Record
    ensures taken { result ≡ taken_as call }
{
    Record {
        args: [
            argument_taken(&call, 16),
            argument_taken(&call, 24),
            argument_taken(&call, 32),
            argument_taken(&call, 40),
            argument_taken(&call, 48),
            argument_taken(&call, 56),
        ],
        ..call
    }
}

// The argument whose lower half is at a place.
fn argument_taken(call: &Record, place: u8) -> u64
    requires there { (place % 8 ≡ 0) }
    requires range { 16 ≤ place }
    requires inside { place < 64 }
    ensures argument { result ≡ word_taken call.now place + 2 ^ 32 * word_taken call.now (place + 4) }
{
    u64::from(word_taken(call, place)) + (u64::from(word_taken(call, place + 4)) << 32)
}

fn word_taken(call: &Record, place: u8) -> u32
    requires aligned { place % 4 ≡ 0 }
    requires range { 16 ≤ place }
    requires inside { place < 64 }
    ensures word { result ≡ word_taken call.now place }
{
    if is_unread(call.nr, place) {
        0
    } else {
        call.word(place)
    }
}

// Whether Linux reads no bit of the word at a place.
fn is_unread(nr: u32, place: u8) -> bool
    requires aligned { place % 4 ≡ 0 }
    requires range { 16 ≤ place }
    requires inside { place < 64 }
    ensures unread { result ≡ is_among (unread_places nr) place }
{
    let kind = kind_of(nr, (place as usize - 16) / 8);
    if place % 8 == 0 {
        !reads_lower(kind)
    } else {
        !reads_upper(kind)
    }
}

/// Those of some places whose word a filter of the chain loads.
pub fn loaded_places(alloc: Global, chain: &Chain, places: &[u32]) -> Result<Vec<u32>, AllocError>
    ensures places { IfOk result (λ it. it.items ≡ loaded_places chain.now places.now) }
{
    let mut loaded = Vec::new(alloc);
    for place in places {
        if chain_loads(chain, *place) {
            loaded.push(*place)?;
        }
    }
    Ok(loaded)
}
