//! What A holds.
ghost use Rattle.std.specs.Prelude.{◌≡◌};
ghost use Rattle.sk_insn.specs.Operations.{operation_of};
ghost use Rattle.sk_show.specs.Holding.{held_before, held_behind, held_word, joined, joined_ways};

use sk_insn::{Insn, Operation, Register, decode};

/// What A holds, whichever way led there.
#[derive(Clone, Copy, Debug, PartialEq, Eq)]
pub enum Held {
    /// The number of the call.
    Number,
    /// The architecture.
    Architecture,
    /// Something else, or not the same on each way.
    Other,
}

// What A holds behind an instruction.
pub(crate) fn held_behind(insn: Insn, held: Held) -> Held
    ensures held { result ≡ held_behind (operation_of insn.code) insn held }
{
    match decode(insn.code) {
        Some(Operation::LoadRecord) => held_word(insn.k),
        Some(
            Operation::LoadConstant(Register::Index)
            | Operation::LoadScratch(Register::Index)
            | Operation::LoadLength(Register::Index)
            | Operation::StoreScratch(_)
            | Operation::Jump
            | Operation::Branch(..)
            | Operation::CopyToIndex,
        ) => held,
        _ => Held::Other,
    }
}

fn held_word(place: u32) -> Held
    ensures held { result ≡ held_word place }
{
    match place {
        0 => Held::Number,
        4 => Held::Architecture,
        _ => Held::Other,
    }
}

fn joined(one: Held, other: Held) -> Held
    ensures held { result ≡ joined one other }
{
    match (one, other) {
        (Held::Number, Held::Number) => Held::Number,
        (Held::Architecture, Held::Architecture) => Held::Architecture,
        _ => Held::Other,
    }
}

// What A holds where a jump and the instruction before lead.
pub(crate) fn held_before(jump: Option<Held>, next: Option<Held>) -> Held
    ensures held { result ≡ held_before jump next }
{
    joined_ways(jump, next).unwrap_or(Held::Other)
}

// What A holds where two ways come together, of which either may be none.
pub(crate) fn joined_ways(way: Option<Held>, other: Option<Held>) -> Option<Held>
    ensures held { result ≡ joined_ways way other }
{
    match (way, other) {
        (None, other) => other,
        (way, None) => way,
        (Some(one), Some(other)) => Some(joined(one, other)),
    }
}
