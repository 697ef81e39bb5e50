//! Writers that count their failures, and the loop that writes a whole text.
ghost use Rattle.std.specs.Prelude.{◌≡◌, ◌<◌, ℕ, List, Option, length, IfOk, OnOk};
ghost use Rattle.std.specs.Io.{WritesAtMost};
ghost use Rattle.std.specs.Io.KnownBytes.{Appends, WriteAppends};
ghost use Rattle.sk_text.specs.Failures.{count_after};
ghost use Rattle.sk_text.specs.Writing.{AppendsBeginning, WhyNotWritten};

use std::io;

/// A writer that counts the failures it has answered. To take no byte where there is one is a
/// failure.
pub trait Sink {
    // The bytes that it holds, where they are known.
    ghost contents: { Self → Option (List ℕ) };

    // How many failures it has answered.
    ghost failed: { Self → ℕ };

    /// Takes some of the bytes, from the front, and says how many, as `std::io::Write` does.
    fn write(&mut self, bytes: &[u8]) -> io::Result<usize>
        ensures bound { WritesAtMost result bytes.now }
        ensures some { IfOk result (λ count. 0 < length bytes.now → 0 < count) }
        ensures bytes { WriteAppends (contents self.old) (contents self.new) result bytes.now }
        ensures counted { failed self.new ≡ count_after (failed self.old) result };

    /// How many failures it has answered. The count stands still at `u64::MAX`.
    fn failures(&self) -> u64
        ensures counted { result ≡ failed self.now };
}

/// A write failed, or took no byte.
#[derive(Clone, Copy, Debug, PartialEq, Eq)]
pub struct WriteFault;

/// Writes the whole text, in as many writes as the sink needs. An interrupted write counts as one
/// that failed.
pub fn send<W: Sink>(writer: &mut W, text: &[u8]) -> Result<(), WriteFault>
    ensures whole { OnOk result (Appends (W.contents writer.old) (W.contents writer.new) text.now) }
    ensures front { AppendsBeginning (W.contents writer.old) (W.contents writer.new) text.now }
    ensures fault { WhyNotWritten result (W.failed writer.old) (W.failed writer.new) }
{
    let mut rest = text;
    while !rest.is_empty() {
        let Ok(count) = writer.write(rest) else {
            return Err(WriteFault);
        };
        let (_, left) = rest.split_at(count);
        rest = left;
    }
    Ok(())
}
