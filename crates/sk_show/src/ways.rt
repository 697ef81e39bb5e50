//! Where control goes on, with what A holds there.
ghost use Rattle.std.specs.Prelude.{◌≡◌, ◌+◌, ◌<◌, ◌^◌, IfOk, None, replicate, vec_len};
ghost use Rattle.sk_insn.specs.Operations.{operation_of};
ghost use Rattle.sk_filter.specs.Paths.{onward};
ghost use Rattle.sk_show.specs.Holding.{jump_to, jumps_behind, landed, next_behind, went};

use crate::held::{Held, joined_ways};
use sk_insn::{Insn, Operation, decode};
use std::alloc::{AllocError, Global};

// So many places, to which no jump goes.
pub(crate) fn no_jumps(alloc: Global, count: usize) -> Result<Vec<Option<Held>>, AllocError>
    ensures none { IfOk result (λ jumps. jumps.items ≡ replicate count None) }
    ensures len { IfOk result (λ jumps. vec_len jumps ≡ count) }
{
    vec![in alloc; None; count]
}

// What A holds where jumps go to a place, if any does.
pub(crate) fn jump_to(jumps: &[Option<Held>], place: usize) -> Option<Held>
    ensures jump { result ≡ jump_to jumps.now place }
{
    match jumps.get(place) {
        Some(jump) => *jump,
        None => None,
    }
}

// Notes the jumps of the instruction at a place, behind which A holds this, and gives what A holds where control goes on
// at the next place, if it does.
pub(crate) fn go_on(
    jumps: &mut Vec<Option<Held>>,
    at: usize,
    insn: Insn,
    held: Held,
) -> Option<Held>
    requires near { at < 2 ^ 32 }
    ensures jumps { jumps.new.items ≡ jumps_behind at (onward at (operation_of insn.code) insn) held jumps.old.items }
    ensures len { vec_len jumps.new ≡ vec_len jumps.old }
    ensures next { result ≡ next_behind at (onward at (operation_of insn.code) insn) held }
{
    match decode(insn.code) {
        Some(Operation::ReturnConstant | Operation::ReturnAccumulator) => None,
        Some(Operation::Jump) => {
            go(jumps, at, insn.k, held);
            (insn.k == 0).then_some(held)
        }
        Some(Operation::Branch(..)) => {
            go(jumps, at, u32::from(insn.jt), held);
            go(jumps, at, u32::from(insn.jf), held);
            (insn.jt == 0 || insn.jf == 0).then_some(held)
        }
        _ => Some(held),
    }
}

// Over so many instructions. To go over none is no jump.
fn go(jumps: &mut Vec<Option<Held>>, at: usize, distance: u32, held: Held)
    requires near { at < 2 ^ 32 }
    ensures jumps { jumps.new.items ≡ went at (at + 1 + distance) held jumps.old.items }
    ensures len { vec_len jumps.new ≡ vec_len jumps.old }
{
    if distance > 0 {
        land(jumps, at + 1 + distance as usize, held);
    }
}

fn land(jumps: &mut Vec<Option<Held>>, place: usize, held: Held)
    ensures jumps { jumps.new.items ≡ landed place held jumps.old.items }
    ensures len { vec_len jumps.new ≡ vec_len jumps.old }
{
    if place < jumps.len() {
        jumps[place] = joined_ways(jumps[place], Some(held));
    }
}
