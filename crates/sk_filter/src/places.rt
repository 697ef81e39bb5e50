//! The faults of instructions that are looked at one by one, and of a last one that is no return.
ghost use Rattle.std.specs.Prelude.{◌≡◌, ◌<◌, ◌≤◌, length, IfNone, IfSome};
ghost use Rattle.sk_insn.specs.Operations.{operation_of};
ghost use Rattle.sk_filter.specs.Valid.{IsFirstFault};
ghost use Rattle.sk_filter.specs.Places.{fault_of};
ghost use Rattle.sk_filter.specs.Fits.{NoFaultBefore};

use crate::CheckFault;
use crate::sets::WORDS;
use sk_insn::{Arithmetic, Insn, Operand, Operation, decode};

/// The first fault of a single instruction.
pub(crate) fn first_place_fault(insns: &[Insn]) -> Option<CheckFault>
    requires { NoFaultBefore insns.now 3 }
    ensures none { IfNone result (NoFaultBefore insns.now 4) }
    ensures first { IfSome result (IsFirstFault insns.now) }
{
    for (at, insn) in insns.iter().enumerate() {
        if let Some(fault) = place_fault(insn, at, insns.len()) {
            return Some(fault);
        }
    }
    None
}

// The fault of one instruction by itself, at its place among so many.
fn place_fault(insn: &Insn, at: usize, count: usize) -> Option<CheckFault>
    requires at { at < count }
    requires count { count ≤ 4096 }
    ensures { result ≡ fault_of at count (operation_of insn.now.code) insn.now }
{
    let (fits, fault) = match decode(insn.code) {
        None => (false, CheckFault::Code { at }),
        Some(Operation::LoadRecord) => (insn.k % 4 == 0 && insn.k < 64, CheckFault::Load { at }),
        Some(Operation::LoadScratch(_) | Operation::StoreScratch(_)) => (
            insn.k < WORDS,
            CheckFault::Word { at },
        ),
        Some(Operation::Compute(Arithmetic::Divide, Operand::Constant)) => (
            insn.k != 0,
            CheckFault::DivZero { at },
        ),
        Some(
            Operation::Compute(Arithmetic::ShiftLeft | Arithmetic::ShiftRight, Operand::Constant),
        ) => { (insn.k < 32, CheckFault::Shift { at }) }
        Some(Operation::Jump) => (at + 1 + (insn.k as usize) < count, CheckFault::Jump { at }),
        Some(Operation::Branch(_, _)) => (
            at + 1 + (insn.jt as usize) < count && at + 1 + (insn.jf as usize) < count,
            CheckFault::Jump { at },
        ),
        Some(_) => return None,
    };
    (!fits).then_some(fault)
}

/// The fault of a program whose last instruction is no return.
pub(crate) fn end_fault(insns: &[Insn]) -> Option<CheckFault>
    requires { NoFaultBefore insns.now 4 }
    ensures none { IfNone result (NoFaultBefore insns.now 5) }
    ensures first { IfSome result (IsFirstFault insns.now) }
{
    let last = insns[insns.len() - 1];
    match decode(last.code) {
        Some(Operation::ReturnConstant | Operation::ReturnAccumulator) => None,
        _ => Some(CheckFault::NoReturn),
    }
}
