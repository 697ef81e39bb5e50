//! Instructions and their eight bytes.
use byteorder::{ByteOrder, LittleEndian};

/// One instruction: what `struct sock_filter` of seccomp(2) holds.
#[derive(Clone, Copy, Debug, PartialEq, Eq)]
pub struct Insn {
    /// What to do, as a number of the table of operations.
    pub code: u16,
    /// How many instructions a conditional jump passes over where its test holds.
    pub jt: u8,
    /// How many it passes over where its test does not hold.
    pub jf: u8,
    /// The constant.
    pub k: u32,
}

impl Insn {
    ghost use Rattle.std.specs.Prelude.{◌≡◌};
    ghost use Rattle.sk_insn.specs.Instructions.{instruction_bytes};

    /// Its bytes, as `struct sock_filter` lies in memory.
    pub fn bytes(self) -> [u8; 8]
        ensures bytes { result ≡ instruction_bytes self }
    {
        let mut bytes = [0; 8];
        LittleEndian::write_u16(&mut bytes, self.code);
        bytes[2] = self.jt;
        bytes[3] = self.jf;
        LittleEndian::write_u32(&mut bytes[4..], self.k);
        bytes
    }
}
