//! Readers that count their failures, and the loop that reads up to a limit.
ghost use Rattle.std.specs.Prelude.{◌≡◌, ◌≤◌, ℕ, List, Option, take, IfOk, IfSome, vec_len};
ghost use Rattle.std.specs.Io.{ReadsAtMost};
ghost use Rattle.std.specs.Io.KnownBytes.{Consumes, ReadConsumes};
ghost use Rattle.sk_text.specs.Failures.{count_after};
ghost use Rattle.sk_text.specs.Reading.{ConsumesUpTo, WhyNotRead};
ghost use Rattle.sk_text.specs.declared.source.ReadFault.TheVariants.{Memory};

use std::alloc::{AllocError, Global};
use std::cmp::min;
use std::io;

/// A reader that counts the failures it has answered.
pub trait Source {
    // The bytes that reads will give from here on, where they are known.
    ghost remaining: { Self → Option (List ℕ) };

    // How many failures it has answered.
    ghost failed: { Self → ℕ };

    /// Reads some of the remaining bytes into the front of `buffer`, and says how many, as
    /// `std::io::Read` does.
    fn read(&mut self, buffer: &mut [u8]) -> io::Result<usize>
        ensures bound { ReadsAtMost result buffer.new }
        ensures bytes { ReadConsumes (remaining self.old) (remaining self.new) result buffer.new }
        ensures counted { failed self.new ≡ count_after (failed self.old) result };

    /// How many failures it has answered. The count stands still at `u64::MAX`.
    fn failures(&self) -> u64
        ensures counted { result ≡ failed self.now };
}

/// Why a source's bytes could not be taken.
#[derive(Clone, Copy, Debug, PartialEq, Eq)]
pub enum ReadFault {
    /// A read failed.
    Read,
    /// Memory was refused.
    Memory,
}

impl From<AllocError> for ReadFault {
    ghost from_gives = { λ _ fault. fault ≡ Memory };

    fn from(_refused: AllocError) -> ReadFault {
        ReadFault::Memory
    }
}

// How many bytes one read asks for at most.
const PIECE: usize = 4096;

/// The first `most` bytes of what the source has left, or all where it ends before. An interrupted
/// read counts as one that failed.
pub fn take_up_to<R: Source>(
    alloc: Global,
    reader: &mut R,
    most: usize,
) -> Result<Vec<u8>, ReadFault>
    ensures first { IfOk result (λ bytes.
        IfSome (R.remaining reader.old) (λ left. bytes.items ≡ take most left)) }
    ensures taken { IfOk result (λ bytes.
        Consumes (R.remaining reader.old) (R.remaining reader.new) bytes.items) }
    ensures size { IfOk result (λ bytes. vec_len bytes ≤ most) }
    ensures limit { ConsumesUpTo most (R.remaining reader.old) (R.remaining reader.new) }
    ensures fault { WhyNotRead result (R.failed reader.old) (R.failed reader.new) }
{
    let mut bytes = Vec::new(alloc);
    let mut buffer = [0; PIECE];
    while bytes.len() < most {
        let wanted = min(most - bytes.len(), PIECE);
        let Ok(count) = reader.read(&mut buffer[..wanted]) else {
            return Err(ReadFault::Read);
        };
        if count == 0 {
            break;
        }
        bytes.extend_from_slice(&buffer[..count])?;
    }
    Ok(bytes)
}
