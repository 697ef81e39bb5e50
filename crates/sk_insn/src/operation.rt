//! The table of the operations: their codes, and the parts that they are made of.
ghost use Rattle.std.specs.Prelude.{◌≡◌};
ghost use Rattle.sk_insn.specs.Operations.{operation_of, code_of, register_bit, arithmetic_bits, comparison_bits, source_bit};

/// One of the two registers of the machine.
#[derive(Clone, Copy, Debug, PartialEq, Eq)]
pub enum Register {
    /// The accumulator, A.
    Accumulator,
    /// The index register, X.
    Index,
}

/// What stands on the right of a calculation or a comparison. On its left stands A.
#[derive(Clone, Copy, Debug, PartialEq, Eq)]
pub enum Operand {
    /// The instruction's `k`.
    Constant,
    /// The index register, X.
    IndexRegister,
}

/// A calculation on 32 bits, which wraps.
#[derive(Clone, Copy, Debug, PartialEq, Eq)]
pub enum Arithmetic {
    Add,
    Subtract,
    Multiply,
    Divide,
    Or,
    And,
    ShiftLeft,
    ShiftRight,
    ExclusiveOr,
}

/// The test of a conditional jump, on unsigned numbers.
#[derive(Clone, Copy, Debug, PartialEq, Eq)]
pub enum Comparison {
    Equal,
    Greater,
    GreaterOrEqual,
    /// A bit that is set on both sides.
    CommonBits,
}

/// What a permitted instruction does. There are 41 of them.
#[derive(Clone, Copy, Debug, PartialEq, Eq)]
pub enum Operation {
    /// A becomes the record's word at `k`.
    LoadRecord,
    /// The register becomes `k`.
    LoadConstant(Register),
    /// The register becomes scratch word `k`.
    LoadScratch(Register),
    /// The register becomes the record's length.
    LoadLength(Register),
    /// Scratch word `k` becomes the register.
    StoreScratch(Register),
    /// A becomes what is calculated of A and the operand.
    Compute(Arithmetic, Operand),
    /// A becomes 0 - A.
    Negate,
    /// `k` instructions are passed over.
    Jump,
    /// `jt` instructions are passed over where the test of A and the operand holds, else `jf`.
    Branch(Comparison, Operand),
    /// The filter ends with value `k`.
    ReturnConstant,
    /// The filter ends with value A.
    ReturnAccumulator,
    /// X becomes A.
    CopyToIndex,
    /// A becomes X.
    CopyToAccumulator,
}

/// The operation with this code, if there is one.
#[tactic(auto, unfolding(crate::specs::Operations::operation_of))]
#[inline(always)]
pub fn decode(code: u16) -> Option<Operation>
    ensures operation { result ≡ operation_of code }
{
    match code {
        0x20 => Some(Operation::LoadRecord),
        0x00 => Some(Operation::LoadConstant(Register::Accumulator)),
        0x01 => Some(Operation::LoadConstant(Register::Index)),
        0x60 => Some(Operation::LoadScratch(Register::Accumulator)),
        0x61 => Some(Operation::LoadScratch(Register::Index)),
        0x80 => Some(Operation::LoadLength(Register::Accumulator)),
        0x81 => Some(Operation::LoadLength(Register::Index)),
        0x02 => Some(Operation::StoreScratch(Register::Accumulator)),
        0x03 => Some(Operation::StoreScratch(Register::Index)),
        0x04 => Some(Operation::Compute(Arithmetic::Add, Operand::Constant)),
        0x0c => Some(Operation::Compute(Arithmetic::Add, Operand::IndexRegister)),
        0x14 => Some(Operation::Compute(Arithmetic::Subtract, Operand::Constant)),
        0x1c => Some(Operation::Compute(Arithmetic::Subtract, Operand::IndexRegister)),
        0x24 => Some(Operation::Compute(Arithmetic::Multiply, Operand::Constant)),
        0x2c => Some(Operation::Compute(Arithmetic::Multiply, Operand::IndexRegister)),
        0x34 => Some(Operation::Compute(Arithmetic::Divide, Operand::Constant)),
        0x3c => Some(Operation::Compute(Arithmetic::Divide, Operand::IndexRegister)),
        0x44 => Some(Operation::Compute(Arithmetic::Or, Operand::Constant)),
        0x4c => Some(Operation::Compute(Arithmetic::Or, Operand::IndexRegister)),
        0x54 => Some(Operation::Compute(Arithmetic::And, Operand::Constant)),
        0x5c => Some(Operation::Compute(Arithmetic::And, Operand::IndexRegister)),
        0x64 => Some(Operation::Compute(Arithmetic::ShiftLeft, Operand::Constant)),
        0x6c => Some(Operation::Compute(Arithmetic::ShiftLeft, Operand::IndexRegister)),
        0x74 => Some(Operation::Compute(Arithmetic::ShiftRight, Operand::Constant)),
        0x7c => Some(Operation::Compute(Arithmetic::ShiftRight, Operand::IndexRegister)),
        0xa4 => Some(Operation::Compute(Arithmetic::ExclusiveOr, Operand::Constant)),
        0xac => Some(Operation::Compute(Arithmetic::ExclusiveOr, Operand::IndexRegister)),
        0x84 => Some(Operation::Negate),
        0x05 => Some(Operation::Jump),
        0x15 => Some(Operation::Branch(Comparison::Equal, Operand::Constant)),
        0x1d => Some(Operation::Branch(Comparison::Equal, Operand::IndexRegister)),
        0x25 => Some(Operation::Branch(Comparison::Greater, Operand::Constant)),
        0x2d => Some(Operation::Branch(Comparison::Greater, Operand::IndexRegister)),
        0x35 => Some(Operation::Branch(Comparison::GreaterOrEqual, Operand::Constant)),
        0x3d => Some(Operation::Branch(Comparison::GreaterOrEqual, Operand::IndexRegister)),
        0x45 => Some(Operation::Branch(Comparison::CommonBits, Operand::Constant)),
        0x4d => Some(Operation::Branch(Comparison::CommonBits, Operand::IndexRegister)),
        0x06 => Some(Operation::ReturnConstant),
        0x16 => Some(Operation::ReturnAccumulator),
        0x07 => Some(Operation::CopyToIndex),
        0x87 => Some(Operation::CopyToAccumulator),
        _ => None,
    }
}

impl Register {
    fn bit(self) -> u16
        ensures bit { result ≡ register_bit self }
    {
        match self {
            Register::Accumulator => 0x00,
            Register::Index => 0x01,
        }
    }
}

impl Operand {
    fn bit(self) -> u16
        ensures bit { result ≡ source_bit self }
    {
        match self {
            Operand::Constant => 0x00,
            Operand::IndexRegister => 0x08,
        }
    }
}

impl Arithmetic {
    fn bits(self) -> u16
        ensures bits { result ≡ arithmetic_bits self }
    {
        match self {
            Arithmetic::Add => 0x00,
            Arithmetic::Subtract => 0x10,
            Arithmetic::Multiply => 0x20,
            Arithmetic::Divide => 0x30,
            Arithmetic::Or => 0x40,
            Arithmetic::And => 0x50,
            Arithmetic::ShiftLeft => 0x60,
            Arithmetic::ShiftRight => 0x70,
            Arithmetic::ExclusiveOr => 0xa0,
        }
    }
}

impl Comparison {
    fn bits(self) -> u16
        ensures bits { result ≡ comparison_bits self }
    {
        match self {
            Comparison::Equal => 0x10,
            Comparison::Greater => 0x20,
            Comparison::GreaterOrEqual => 0x30,
            Comparison::CommonBits => 0x40,
        }
    }
}

impl Operation {
    /// Its code: the class with the operation and the source.
    #[inline]
    pub fn code(self) -> u16
        ensures code { result ≡ code_of self }
    {
        match self {
            Operation::LoadRecord => 0x20,
            Operation::LoadConstant(register) => register.bit(),
            Operation::LoadScratch(register) => 0x60 + register.bit(),
            Operation::LoadLength(register) => 0x80 + register.bit(),
            Operation::StoreScratch(register) => 0x02 + register.bit(),
            Operation::Compute(arithmetic, operand) => 0x04 + arithmetic.bits() + operand.bit(),
            Operation::Negate => 0x84,
            Operation::Jump => 0x05,
            Operation::Branch(comparison, operand) => 0x05 + comparison.bits() + operand.bit(),
            Operation::ReturnConstant => 0x06,
            Operation::ReturnAccumulator => 0x16,
            Operation::CopyToIndex => 0x07,
            Operation::CopyToAccumulator => 0x87,
        }
    }
}
