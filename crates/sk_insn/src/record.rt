//! Records of calls, their bytes, and the words that a filter loads from them.
ghost use Rattle.std.specs.Prelude.{◌≡◌, ℕ, ◌+◌, ◌/◌, ◌%◌, ◌^◌, ◌==◌, ◌<◌, ◌≤◌, ◌↔◌, if◌then◌else◌, length, drop, take, IsSome, IfSome};
ghost use Rattle.byteorder.specs.Endian.{little_number};

use byteorder::{ByteOrder, LittleEndian};

/// The bytes of a record.
pub const RECORD_LEN: usize = 64;

/// What a filter sees of a call: `struct seccomp_data` of seccomp(2).
#[derive(Clone, Copy, Debug, PartialEq, Eq)]
pub struct Record {
    /// The call's number.
    pub nr: u32,
    /// The architecture that the number is of: an `AUDIT_ARCH_*` of linux/audit.h.
    pub arch: u32,
    /// The instruction pointer.
    pub ip: u64,
    /// The six registers.
    pub args: [u64; 6],
}

/// x86-64, as a filter sees it: `AUDIT_ARCH_X86_64` of linux/audit.h.
pub const ARCHITECTURE: u32 = 0xC000_003E;

impl Record {
    ghost use Rattle.sk_insn.specs.Record.{native, record_bytes, record_in, record_of, word_of, IsRecord, IsNative};

    /// The call of x86-64 with this number, instruction pointer and arguments.
    #[inline(always)]
    pub fn native(nr: u32, ip: u64, args: [u64; 6]) -> Record
        ensures call { result ≡ native nr ip args }
    {
        Record {
            nr,
            arch: ARCHITECTURE,
            ip,
            args,
        }
    }

    /// Its bytes, as `struct seccomp_data` lies in memory.
    pub fn bytes(&self) -> [u8; 64]
        ensures bytes { result ≡ record_bytes self.now }
    {
        let mut bytes = [0u8; 64];
        LittleEndian::write_u32(&mut bytes, self.nr);
        LittleEndian::write_u32(&mut bytes[4..], self.arch);
        LittleEndian::write_u64(&mut bytes[8..], self.ip);
        LittleEndian::write_u64(&mut bytes[16..], self.args[0]);
        LittleEndian::write_u64(&mut bytes[24..], self.args[1]);
        LittleEndian::write_u64(&mut bytes[32..], self.args[2]);
        LittleEndian::write_u64(&mut bytes[40..], self.args[3]);
        LittleEndian::write_u64(&mut bytes[48..], self.args[4]);
        LittleEndian::write_u64(&mut bytes[56..], self.args[5]);
        bytes
    }

    /// The word that a filter loads from place `k`. It is read from the fields: to make all the bytes takes longer.
    #[inline(always)]
    pub fn word(&self, k: u8) -> u32
        requires aligned { k % 4 ≡ 0 }
        requires inside { k < 64 }
        ensures word { word_of self.now k ≡ Some result }
    {
        if k == 0 {
            self.nr
        } else if k == 4 {
            self.arch
        } else if k < 16 {
            half(self.ip, k)
        } else {
            half(self.args[(k as usize - 16) / 8], k)
        }
    }

    /// The record that these bytes are; none where bytes 4 to 7 are not x86-64's.
    #[tactic(auto, unfolding(crate::specs::Record::record_of))]
    pub fn of(bytes: &[u8; 64]) -> Option<Record>
        ensures exact { result ≡ record_of bytes.now }
        ensures found { IfSome result (λ call. record_bytes call ≡ bytes.now) }
        ensures only { IsSome result ↔ IsRecord bytes.now }
        ensures native { IfSome result (λ call. IsNative call) }
    {
        if u32_at(bytes, 4) != ARCHITECTURE {
            return None;
        }
        Some(Record::read(bytes))
    }

    /// The record that these bytes are, of whatever architecture.
    pub fn read(bytes: &[u8; 64]) -> Record
        ensures numbers { result ≡ record_in bytes.now }
        ensures bytes { record_bytes result ≡ bytes.now }
    {
        let nr = u32_at(bytes, 0);
        let arch = u32_at(bytes, 4);
        let ip = u64_at(bytes, 8);
        let first = u64_at(bytes, 16);
        let second = u64_at(bytes, 24);
        let third = u64_at(bytes, 32);
        let fourth = u64_at(bytes, 40);
        let fifth = u64_at(bytes, 48);
        let sixth = u64_at(bytes, 56);
        Record {
            nr,
            arch,
            ip,
            args: [first, second, third, fourth, fifth, sixth],
        }
    }
}

// The lower half of a number at an even word, and the higher one at an odd word.
#[inline(always)]
fn half(number: u64, k: u8) -> u32
    ensures half { result ≡ if k % 8 == 0 then number % 2 ^ 32 else number / 2 ^ 32 % 2 ^ 32 }
{
    if k % 8 == 0 {
        (number % 0x1_0000_0000) as u32
    } else {
        (number >> 32) as u32
    }
}

fn u32_at(bytes: &[u8], at: usize) -> u32
    requires { at + 4 ≤ length bytes.now }
    ensures { result ≡ little_number 4 (drop at bytes.now) }
{
    LittleEndian::read_u32(&bytes[at..])
}

fn u64_at(bytes: &[u8], at: usize) -> u64
    requires { at + 8 ≤ length bytes.now }
    ensures { result ≡ little_number 8 (drop at bytes.now) }
{
    LittleEndian::read_u64(&bytes[at..])
}
