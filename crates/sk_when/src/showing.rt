//! Calls that show a difference.
ghost use Rattle.std.specs.Prelude.{◌≡◌, ◌+◌, ◌*◌, ◌≤◌, ◌<◌, true, length, slice_index_or, IfSome, IsSome};
ghost use Rattle.std.specs.List.{Contains, list_any};
ghost use Rattle.sk_insn.specs.declared.record.Record.{Record};
ghost use Rattle.sk_terms.specs.Lines.{meets_line, IsMetBy};
ghost use Rattle.sk_when.specs.Pieces.{is_decided, shows_call};

use crate::piece::{Outcome, Part};
use sk_conditions::Budget;
use sk_insn::Record;
use sk_terms::{Line, meets};

/// The steps that it takes to see whether a call meets a line.
pub const STEPS_A_LOOK: u64 = 64;

/// Whether a part shows a call.
pub fn any_shown(parts: &[Part]) -> bool
    ensures any { result ≡ list_any shows_call parts.now }
{
    parts.iter().any(|part| is_decided(part.outcome))
}

fn is_decided(outcome: Outcome) -> bool
    ensures decided { result ≡ is_decided outcome }
{
    match outcome {
        Outcome::Undecided => false,
        Outcome::Apart(_, _) => true,
    }
}

/// One of some calls that meets a line, if one does and the budget lets find it. They are looked at from a place on, and the
/// place is then behind the one that was found: calls stand in the order of the ends of a tree, and lines in that of the last
/// ends that they tell, so each is looked at once or twice in all.
pub fn shown_among(
    line: &Line,
    calls: &[Record],
    from: &mut usize,
    budget: &mut Budget,
) -> Option<Record>
    ensures one { IfSome result (Contains calls.now) }
    ensures meets { IfSome result (λ call. meets_line line.now call ≡ true) }
    ensures found { IsMetBy calls.now line.now → 0 < budget.new.steps → IsSome result }
    ensures left { budget.new.steps ≤ budget.old.steps }
    ensures few { budget.old.steps ≤ budget.new.steps + 64 * length calls.now }
{
    let middle = calls.len().min(*from);
    if let Some(at) = place_among(line, &calls[middle..], budget) {
        *from = middle + at + 1;
        return Some(calls[middle + at]);
    }
    let Some(at) = place_among(line, &calls[..middle], budget) else {
        return None;
    };
    *from = at + 1;
    Some(calls[at])
}

// Where the first of some calls stands that meets a line.
fn place_among(line: &Line, calls: &[Record], budget: &mut Budget) -> Option<usize>
    ensures there { IfSome result (λ at. at < length calls.now) }
    ensures meets { IfSome result (λ at. (other : Record) → meets_line line.now (slice_index_or calls.now at other) ≡ true) }
    ensures found { IsMetBy calls.now line.now → 0 < budget.new.steps → IsSome result }
    ensures left { budget.new.steps ≤ budget.old.steps }
    ensures few { budget.old.steps ≤ budget.new.steps + 64 * length calls.now }
{
    for (at, call) in calls.iter().enumerate() {
        if !budget.take(STEPS_A_LOOK) {
            return None;
        }
        if meets(line, call) {
            return Some(at);
        }
    }
    None
}
