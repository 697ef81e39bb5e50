//! Under which conditions on a call each verdict of a chain comes.
ghost use Rattle.std.specs.Prelude.{◌≡◌, false, IfOk, map};
ghost use Rattle.std.specs.List.{All};
ghost use Rattle.sk_when.specs.Telling.{AreTold, IsSurveyed, row_told};
ghost use Rattle.sk_conditions.specs.Followed.{AreFollowed};
ghost use Rattle.sk_conditions.specs.Steps.{GoOneWay, NeverPart};
ghost use Rattle.sk_show.specs.Lines.{end_told, first_told};
ghost use Rattle.sk_when.specs.Lines.{IsExact, IsMet, IsTold};

use crate::row::{ConditionalRow, conditions_of_row};
use sk_conditions::Budgets;
use sk_filter::Chain;
use sk_names::Architecture;
use sk_show::rows_of;
use sk_survey::Row;
use std::alloc::{AllocError, Global};

/// Tells under which conditions on a call each verdict of the chain comes, for every call or for the one with a number: the rows of
/// its survey with their lines. Numbers with a name on the architecture stand alone. Where a filter is not followed, or steps are
/// used up, a line may have no verdict, and then stands for what the survey's row answers. Where the calls of each row go one way
/// through each filter, no row uses its steps up. How many it takes where they part is not bounded from above.
pub fn told_rows(
    alloc: Global,
    architecture: Architecture,
    chain: &Chain,
    call: Option<u32>,
    budgets: &mut Budgets,
) -> Result<Vec<ConditionalRow>, AllocError>
    ensures told { IfOk result (λ rows. AreTold architecture call chain.now budgets.new.is_spent rows.items) }
    ensures one_way { NeverPart (first_told call) (end_told call) chain.now → budgets.old.is_spent ≡ false → budgets.new.is_spent ≡ false }
{
    let rows = rows_of(alloc, architecture, call, chain)?;
    tell_all(alloc, chain, rows, budgets)
}

fn tell_all(
    alloc: Global,
    chain: &Chain,
    rows: Vec<Row>,
    budgets: &mut Budgets,
) -> Result<Vec<ConditionalRow>, AllocError>
    requires holds { All (IsSurveyed chain.now) rows.items }
    ensures rows { IfOk result (λ told. map row_told told.items ≡ rows.items) }
    ensures told { IfOk result (λ told. All (IsTold chain.now) told.items) }
    ensures met { IfOk result (λ told. All (IsMet chain.now) told.items) }
    ensures exact { IfOk result (λ told. All AreFollowed chain.now → budgets.new.is_spent ≡ false → All (IsExact chain.now) told.items) }
    ensures one_way { All (λ row. All (GoOneWay row.first row.last) chain.now) rows.items → budgets.old.is_spent ≡ false → budgets.new.is_spent ≡ false }
{
    let mut told = Vec::with_capacity(alloc, rows.len())?;
    for row in rows {
        let conditional = conditions_of_row(alloc, chain, row, budgets)?;
        told.push(conditional)?;
    }
    Ok(told)
}
