//! Calls that are the same one to Linux and get other verdicts.
ghost use Rattle.std.specs.Prelude.{◌≡◌, ◌^◌, false, IfOk, string_bytes};
ghost use Rattle.sk_filter.specs.Chains.{IsWithinLimit};
ghost use Rattle.sk_conditions.specs.Steps.{NeverPart};
ghost use Rattle.sk_when.specs.Lints.{IsLint};

use crate::concern::lint_finding;
use crate::diff_engine::Finding;
use crate::lint_notes::lint_notes;
use crate::lint_pieces::lint_pieces;
use crate::piece::Piece;
use sk_arguments::narrow_numbers;
use sk_conditions::Budgets;
use sk_filter::Chain;
use std::alloc::{AllocError, Global};

/// What was found of a chain: whether something is told, the pieces of the numbers that are asked about, and notes beside them, in
/// whole lines.
#[derive(Drop)]
pub struct Linted {
    pub finding: Finding,
    pub pieces: Vec<Piece>,
    pub notes: String,
}

/// Looks for calls of x86-64 and x32 that are the same one to Linux and get other verdicts, by bits of their arguments that it does
/// not read. Where the calls of each number go one way through each filter, no number uses its steps up. How many it takes where
/// they part is not bounded from above.
pub fn lint(alloc: Global, chain: &Chain, budgets: &mut Budgets) -> Result<Linted, AllocError>
    requires limited { IsWithinLimit chain.now }
    ensures linted { IfOk result (λ it. IsLint chain.now budgets.new.is_spent it.finding it.pieces.items (string_bytes it.notes)) }
    ensures one_way { NeverPart 0 (2 ^ 32) chain.now → budgets.old.is_spent ≡ false → budgets.new.is_spent ≡ false }
{
    let numbers = narrow_numbers(alloc)?;
    let pieces = lint_pieces(alloc, &numbers, chain, budgets)?;
    let finding = lint_finding(&pieces);
    let notes = lint_notes(alloc, &numbers, chain, budgets)?;
    Ok(Linted {
        finding,
        pieces,
        notes,
    })
}
