//! Which words follow the name of an operation.
ghost use Rattle.std.specs.Prelude.{◌≡◌};
ghost use Rattle.sk_asm.specs.Grammar.{shape_of};

use sk_insn::{Operand, Operation};

/// Which words follow the name of an operation.
#[derive(Clone, Copy, Debug, PartialEq, Eq)]
pub enum Shape {
    /// None.
    Bare,
    /// A number.
    Number,
    /// A number or an action.
    Action,
    /// Where to jump.
    Target,
    /// A number, and where to jump if the test holds, and if not.
    Compare,
    /// Where to jump if the test holds, and if not.
    CompareIndex,
}

impl Shape {
    /// The shape of an operation's form.
    #[inline(always)]
    pub fn of(operation: Operation) -> Shape
        ensures shape { result ≡ shape_of operation }
    {
        match operation {
            Operation::LoadRecord
            | Operation::LoadConstant(_)
            | Operation::LoadScratch(_)
            | Operation::StoreScratch(_)
            | Operation::Compute(_, Operand::Constant) => Shape::Number,
            Operation::LoadLength(_)
            | Operation::Compute(_, Operand::IndexRegister)
            | Operation::Negate
            | Operation::ReturnAccumulator
            | Operation::CopyToIndex
            | Operation::CopyToAccumulator => Shape::Bare,
            Operation::Jump => Shape::Target,
            Operation::Branch(_, Operand::Constant) => Shape::Compare,
            Operation::Branch(_, Operand::IndexRegister) => Shape::CompareIndex,
            Operation::ReturnConstant => Shape::Action,
        }
    }
}
