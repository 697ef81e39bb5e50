//! Two chains compared on every call.
ghost use Rattle.std.specs.Prelude.{◌≡◌, ◌^◌, false, IfOk};
ghost use Rattle.std.specs.List.{list_any};
ghost use Rattle.sk_conditions.specs.Steps.{NeverPart};
ghost use Rattle.sk_when.specs.Pieces.{is_apart, may_fail, has_parts, finding_of};
ghost use Rattle.sk_when.specs.Diffs.{IsComparison};

use crate::piece::{Part, Piece};
use crate::pieces::pieces;
use crate::showing::any_shown;
use sk_conditions::{Budgets, Relation};
use sk_filter::Chain;
use sk_names::Architecture;
use std::alloc::{AllocError, Global};

/// What was found of two chains on all calls.
#[derive(Clone, Copy, Debug, PartialEq, Eq)]
pub enum Finding {
    /// The relation holds on every call.
    Holds,
    /// It fails on a call that is shown.
    Fails,
    /// No call is shown on which it fails, and there may be some.
    Undecided,
}

/// What was found of two chains, and the pieces that it was found of.
#[derive(Drop)]
pub struct Comparison {
    pub finding: Finding,
    pub pieces: Vec<Piece>,
}

/// Compares a new chain with an old one on every call. Both are for the architecture, on which numbers with a name stand alone.
/// Where the calls of each row go one way through each filter, no row uses its steps up. How many it takes where they part is not
/// bounded from above.
pub fn diff(
    alloc: Global,
    architecture: Architecture,
    relation: Relation,
    old: &Chain,
    new: &Chain,
    budgets: &mut Budgets,
) -> Result<Comparison, AllocError>
    ensures compared { IfOk result (λ it. IsComparison architecture relation old.now new.now budgets.new.is_spent it.finding it.pieces.items) }
    ensures one_way { NeverPart 0 (2 ^ 32) old.now → NeverPart 0 (2 ^ 32) new.now → budgets.old.is_spent ≡ false → budgets.new.is_spent ≡ false }
{
    let pieces = pieces(alloc, architecture, relation, old, new, budgets)?;
    let finding = finding_of(&pieces);
    Ok(Comparison { finding, pieces })
}

fn finding_of(pieces: &[Piece]) -> Finding
    ensures finding { result ≡ finding_of pieces.now }
{
    if any_apart(pieces) {
        Finding::Fails
    } else if any_may_fail(pieces) {
        Finding::Undecided
    } else {
        Finding::Holds
    }
}

fn any_apart(pieces: &[Piece]) -> bool
    ensures any { result ≡ list_any is_apart pieces.now }
{
    pieces.iter().any(|piece| any_shown(&piece.parts))
}

fn any_may_fail(pieces: &[Piece]) -> bool
    ensures any { result ≡ list_any may_fail pieces.now }
{
    pieces.iter().any(|piece| has_parts(&piece.parts))
}

fn has_parts(parts: &[Part]) -> bool
    ensures some { result ≡ has_parts parts.now }
{
    !parts.is_empty()
}
