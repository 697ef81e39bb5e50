//! The instructions that compare some bits of a register with a number, the register's upper half first.
ghost use Rattle.std.specs.Prelude.{◌≡◌, ◌+◌, ◌≤◌, ◌++◌, length, OnOk};
ghost use Rattle.sk_policy.specs.Code.{comparison_of, low_place, high_place, word_code, low_code, high_code, wide_code, is_narrow, test_code};

use crate::backward::Backward;
use sk_insn::Comparison;
use sk_profile::instructions::{branch, jump, load, with};
use sk_terms::Register;
use std::alloc::AllocError;

/// How bits are compared with a number.
#[derive(Clone, Copy, Debug, PartialEq, Eq)]
pub enum Test {
    /// They are the number.
    Is,
    /// They are greater.
    Above,
    /// They are the number or greater.
    AtLeast,
}

/// Some bits of a register.
#[derive(Clone, Copy, Debug)]
pub struct Bits {
    pub register: Register,
    pub mask: u64,
}

/// How many numbers a word has.
pub const WORD: u64 = 0x1_0000_0000;

fn comparison_of(test: Test) -> Comparison
    ensures comparison { result ≡ comparison_of test }
{
    match test {
        Test::Is => Comparison::Equal,
        Test::Above => Comparison::Greater,
        Test::AtLeast => Comparison::GreaterOrEqual,
    }
}

/// Where the lower half of a register stands in the record.
pub fn low_place(register: Register) -> u32
    ensures place { result ≡ low_place register }
{
    match register {
        Register::Number => 0,
        Register::Pointer => 8,
        Register::Argument(i) => 16 + 8 * u32::from(i),
    }
}

/// Where its upper half stands, if it has one.
pub fn high_place(register: Register) -> u32
    ensures place { result ≡ high_place register }
{
    match register {
        Register::Number => 0,
        Register::Pointer => 12,
        Register::Argument(i) => 20 + 8 * u32::from(i),
    }
}

/// Whether the upper half of the bits is always 0.
pub fn is_narrow(bits: Bits) -> bool
    ensures narrow { result ≡ is_narrow bits.register bits.mask }
{
    match bits.register {
        Register::Number => true,
        Register::Pointer | Register::Argument(_) => bits.mask / WORD == 0,
    }
}

/// Loads a word, and keeps some of its bits.
pub fn put_word(code: &mut Backward, place: u32, mask: u32) -> Result<(), AllocError>
    ensures code { OnOk result (code.new ≡ word_code place mask ++ code.old) }
    ensures few { OnOk result (length code.new ≤ length code.old + 2) }
{
    if mask != 0xffff_ffff {
        code.put(with(mask))?;
    }
    code.put(load(place))
}

// Compares the lower half.
fn put_low(
    code: &mut Backward,
    test: Test,
    bits: Bits,
    number: u64,
    held: u8,
    failed: u8,
) -> Result<(), AllocError>
    ensures code { OnOk result (code.new ≡ low_code test bits.register bits.mask number held failed ++ code.old) }
    ensures few { OnOk result (length code.new ≤ length code.old + 3) }
{
    code.put(branch(comparison_of(test), (number % WORD) as u32, held, failed))?;
    put_word(code, low_place(bits.register), (bits.mask % WORD) as u32)
}

// Compares the upper half, which A holds, before so many instructions that compare the lower one.
fn put_high(
    code: &mut Backward,
    test: Test,
    high: u32,
    behind: u8,
    held: u8,
    failed: u8,
) -> Result<(), AllocError>
    requires few { behind ≤ 3 }
    requires near { held ≤ 220 }
    requires near_too { failed ≤ 220 }
    ensures code { OnOk result (code.new ≡ high_code test high behind held failed ++ code.old) }
    ensures few { OnOk result (length code.new ≤ length code.old + 2) }
{
    code.put(branch(Comparison::Equal, high, 0, behind + failed))?;
    match test {
        Test::Is => Ok(()),
        Test::Above | Test::AtLeast => {
            code.put(branch(Comparison::Greater, high, 1 + behind + held, 0))
        },
    }
}

// Compares both halves.
fn put_wide(
    code: &mut Backward,
    test: Test,
    bits: Bits,
    number: u64,
    held: u8,
    failed: u8,
) -> Result<(), AllocError>
    requires near { held ≤ 220 }
    requires near_too { failed ≤ 220 }
    ensures code { OnOk result (code.new ≡ wide_code test bits.register bits.mask number held failed ++ code.old) }
    ensures few { OnOk result (length code.new ≤ length code.old + 7) }
{
    let before = code.len();
    put_low(code, test, bits, number, held, failed)?;
    let behind = (code.len() - before) as u8;
    put_high(code, test, (number / WORD) as u32, behind, held, failed)?;
    put_word(code, high_place(bits.register), (bits.mask / WORD) as u32)
}

/// Compares some bits of a register with a number, and passes over so many instructions where that holds, and where it does not.
pub fn put_test(
    code: &mut Backward,
    test: Test,
    bits: Bits,
    number: u64,
    held: u8,
    failed: u8,
) -> Result<(), AllocError>
    requires near { held ≤ 220 }
    requires near_too { failed ≤ 220 }
    ensures code { OnOk result (code.new ≡ test_code test bits.register bits.mask number held failed ++ code.old) }
    ensures few { OnOk result (length code.new ≤ length code.old + 7) }
{
    if !is_narrow(bits) {
        return put_wide(code, test, bits, number, held, failed);
    }
    if number / WORD == 0 {
        return put_low(code, test, bits, number, held, failed);
    }
    code.put(jump(u32::from(failed)))
}
