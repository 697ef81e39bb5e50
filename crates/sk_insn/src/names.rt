//! The names of the operations in the assembler.
ghost use Rattle.std.specs.Prelude.{◌≡◌, ◌<◌, ◌≤◌, length};
ghost use Rattle.sk_insn.specs.Operations.{operation_named, name_of};

use crate::operation::{Arithmetic, Comparison, Operand, Operation, Register};

impl Arithmetic {
    fn name(self, operand: Operand) -> &'static str
        ensures name { result.now ≡ name_of (Operation.Compute self operand) }
    {
        match (self, operand) {
            (Arithmetic::Add, Operand::Constant) => "add",
            (Arithmetic::Add, Operand::IndexRegister) => "addx",
            (Arithmetic::Subtract, Operand::Constant) => "sub",
            (Arithmetic::Subtract, Operand::IndexRegister) => "subx",
            (Arithmetic::Multiply, Operand::Constant) => "mul",
            (Arithmetic::Multiply, Operand::IndexRegister) => "mulx",
            (Arithmetic::Divide, Operand::Constant) => "div",
            (Arithmetic::Divide, Operand::IndexRegister) => "divx",
            (Arithmetic::Or, Operand::Constant) => "or",
            (Arithmetic::Or, Operand::IndexRegister) => "orx",
            (Arithmetic::And, Operand::Constant) => "and",
            (Arithmetic::And, Operand::IndexRegister) => "andx",
            (Arithmetic::ShiftLeft, Operand::Constant) => "lsh",
            (Arithmetic::ShiftLeft, Operand::IndexRegister) => "lshx",
            (Arithmetic::ShiftRight, Operand::Constant) => "rsh",
            (Arithmetic::ShiftRight, Operand::IndexRegister) => "rshx",
            (Arithmetic::ExclusiveOr, Operand::Constant) => "xor",
            (Arithmetic::ExclusiveOr, Operand::IndexRegister) => "xorx",
        }
    }
}

impl Comparison {
    fn name(self, operand: Operand) -> &'static str
        ensures name { result.now ≡ name_of (Operation.Branch self operand) }
    {
        match (self, operand) {
            (Comparison::Equal, Operand::Constant) => "jeq",
            (Comparison::Equal, Operand::IndexRegister) => "jeqx",
            (Comparison::Greater, Operand::Constant) => "jgt",
            (Comparison::Greater, Operand::IndexRegister) => "jgtx",
            (Comparison::GreaterOrEqual, Operand::Constant) => "jge",
            (Comparison::GreaterOrEqual, Operand::IndexRegister) => "jgex",
            (Comparison::CommonBits, Operand::Constant) => "jset",
            (Comparison::CommonBits, Operand::IndexRegister) => "jsetx",
        }
    }
}

impl Operation {
    /// Its name in the assembler.
    pub fn name(self) -> &'static str
        ensures name { result.now ≡ name_of self }
    {
        match self {
            Operation::LoadRecord => "ldabs",
            Operation::LoadConstant(Register::Accumulator) => "ldimm",
            Operation::LoadConstant(Register::Index) => "ldximm",
            Operation::LoadScratch(Register::Accumulator) => "ldmem",
            Operation::LoadScratch(Register::Index) => "ldxmem",
            Operation::LoadLength(Register::Accumulator) => "ldlen",
            Operation::LoadLength(Register::Index) => "ldxlen",
            Operation::StoreScratch(Register::Accumulator) => "st",
            Operation::StoreScratch(Register::Index) => "stx",
            Operation::Compute(arithmetic, operand) => arithmetic.name(operand),
            Operation::Negate => "neg",
            Operation::Jump => "ja",
            Operation::Branch(comparison, operand) => comparison.name(operand),
            Operation::ReturnConstant => "ret",
            Operation::ReturnAccumulator => "reta",
            Operation::CopyToIndex => "tax",
            Operation::CopyToAccumulator => "txa",
        }
    }

    /// The operation with this name, if there is one.
    #[inline(always)]
    pub fn named(name: &[u8]) -> Option<Operation>
        ensures operation { result ≡ operation_named name.now }
    {
        if name.len() < 4 {
            Operation::short_named(name)
        } else if name.len() < 6 {
            Operation::middle_named(name)
        } else {
            Operation::long_named(name)
        }
    }

    // Names of two and three letters.
    #[inline(always)]
    fn short_named(name: &[u8]) -> Option<Operation>
        requires short { length name.now < 4 }
        ensures operation { result ≡ operation_named name.now }
    {
        match name {
            b"st" => Some(Operation::StoreScratch(Register::Accumulator)),
            b"stx" => Some(Operation::StoreScratch(Register::Index)),
            b"add" => Some(Operation::Compute(Arithmetic::Add, Operand::Constant)),
            b"sub" => Some(Operation::Compute(Arithmetic::Subtract, Operand::Constant)),
            b"mul" => Some(Operation::Compute(Arithmetic::Multiply, Operand::Constant)),
            b"div" => Some(Operation::Compute(Arithmetic::Divide, Operand::Constant)),
            b"or" => Some(Operation::Compute(Arithmetic::Or, Operand::Constant)),
            b"orx" => Some(Operation::Compute(Arithmetic::Or, Operand::IndexRegister)),
            b"and" => Some(Operation::Compute(Arithmetic::And, Operand::Constant)),
            b"lsh" => Some(Operation::Compute(Arithmetic::ShiftLeft, Operand::Constant)),
            b"rsh" => Some(Operation::Compute(Arithmetic::ShiftRight, Operand::Constant)),
            b"xor" => Some(Operation::Compute(Arithmetic::ExclusiveOr, Operand::Constant)),
            b"neg" => Some(Operation::Negate),
            b"ja" => Some(Operation::Jump),
            b"jeq" => Some(Operation::Branch(Comparison::Equal, Operand::Constant)),
            b"jgt" => Some(Operation::Branch(Comparison::Greater, Operand::Constant)),
            b"jge" => Some(Operation::Branch(Comparison::GreaterOrEqual, Operand::Constant)),
            b"ret" => Some(Operation::ReturnConstant),
            b"tax" => Some(Operation::CopyToIndex),
            b"txa" => Some(Operation::CopyToAccumulator),
            _ => None,
        }
    }

    // Names of four and five letters.
    #[inline(always)]
    fn middle_named(name: &[u8]) -> Option<Operation>
        requires long { 4 ≤ length name.now }
        requires short { length name.now < 6 }
        ensures operation { result ≡ operation_named name.now }
    {
        match name {
            b"ldabs" => Some(Operation::LoadRecord),
            b"ldimm" => Some(Operation::LoadConstant(Register::Accumulator)),
            b"ldmem" => Some(Operation::LoadScratch(Register::Accumulator)),
            b"ldlen" => Some(Operation::LoadLength(Register::Accumulator)),
            b"addx" => Some(Operation::Compute(Arithmetic::Add, Operand::IndexRegister)),
            b"subx" => Some(Operation::Compute(Arithmetic::Subtract, Operand::IndexRegister)),
            b"mulx" => Some(Operation::Compute(Arithmetic::Multiply, Operand::IndexRegister)),
            b"divx" => Some(Operation::Compute(Arithmetic::Divide, Operand::IndexRegister)),
            b"andx" => Some(Operation::Compute(Arithmetic::And, Operand::IndexRegister)),
            b"lshx" => Some(Operation::Compute(Arithmetic::ShiftLeft, Operand::IndexRegister)),
            b"rshx" => Some(Operation::Compute(Arithmetic::ShiftRight, Operand::IndexRegister)),
            b"xorx" => Some(Operation::Compute(Arithmetic::ExclusiveOr, Operand::IndexRegister)),
            b"jeqx" => Some(Operation::Branch(Comparison::Equal, Operand::IndexRegister)),
            b"jgtx" => Some(Operation::Branch(Comparison::Greater, Operand::IndexRegister)),
            b"jgex" => Some(Operation::Branch(Comparison::GreaterOrEqual, Operand::IndexRegister)),
            b"jset" => Some(Operation::Branch(Comparison::CommonBits, Operand::Constant)),
            b"jsetx" => Some(Operation::Branch(Comparison::CommonBits, Operand::IndexRegister)),
            b"reta" => Some(Operation::ReturnAccumulator),
            _ => None,
        }
    }

    // Names of six letters. There are three.
    fn long_named(name: &[u8]) -> Option<Operation>
        requires long { 6 ≤ length name.now }
        ensures operation { result ≡ operation_named name.now }
    {
        let is_constant = b"ldximm".as_slice() == name;
        let is_scratch = b"ldxmem".as_slice() == name;
        let is_length = b"ldxlen".as_slice() == name;
        if is_constant {
            Some(Operation::LoadConstant(Register::Index))
        } else if is_scratch {
            Some(Operation::LoadScratch(Register::Index))
        } else if is_length {
            Some(Operation::LoadLength(Register::Index))
        } else {
            None
        }
    }
}
