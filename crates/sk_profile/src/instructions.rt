//! The instructions that the filter of a profile is made of.
ghost use Rattle.std.specs.Prelude.{◌≡◌};
ghost use Rattle.sk_profile.specs.Code.{load, constant, with, branch, jump, answer};
ghost use Rattle.sk_insn.specs.Operations.{code_of};

use sk_insn::{Arithmetic, Comparison, Insn, Operand, Operation, Register};

/// Loads the word at this place of the record.
pub fn load(place: u32) -> Insn
    ensures insn { result ≡ load place }
{
    plain(Operation::LoadRecord, place)
}

/// A becomes this number.
pub fn constant(number: u32) -> Insn
    ensures insn { result ≡ constant number }
{
    plain(Operation::LoadConstant(Register::Accumulator), number)
}

/// Keeps these bits of A.
pub fn with(bits: u32) -> Insn
    ensures insn { result ≡ with bits }
{
    plain(Operation::Compute(Arithmetic::And, Operand::Constant), bits)
}

/// Compares A with a constant, and passes over so many instructions where that holds, and where it does not.
pub fn branch(comparison: Comparison, k: u32, jt: u8, jf: u8) -> Insn
    ensures insn { result ≡ branch comparison k jt jf }
{
    Insn {
        code: Operation::Branch(comparison, Operand::Constant).code(),
        jt,
        jf,
        k,
    }
}

/// Passes over so many instructions.
pub fn jump(count: u32) -> Insn
    ensures insn { result ≡ jump count }
{
    plain(Operation::Jump, count)
}

/// Ends the filter with this value.
pub fn answer(value: u32) -> Insn
    ensures insn { result ≡ answer value }
{
    plain(Operation::ReturnConstant, value)
}

fn plain(operation: Operation, k: u32) -> Insn
    ensures insn { result ≡ record { code = code_of operation; jt = 0; jf = 0; k = k } }
{
    Insn {
        code: operation.code(),
        jt: 0,
        jf: 0,
        k,
    }
}
