//! The lines of a survey, with calls that show the verdicts.
ghost use Rattle.std.specs.Prelude.{◌≡◌, ◌≤◌, false, IfOk, map};
ghost use Rattle.std.specs.List.{All};
ghost use Rattle.sk_conditions.specs.Followed.{AreFollowed};
ghost use Rattle.sk_conditions.specs.Steps.{GoOneWay, NeverPart};
ghost use Rattle.sk_show.specs.Lines.{AreLinesOf, IsShown, Shows, end_told, first_told, row_of};
ghost use Rattle.sk_when.specs.Verdicts.{IsJudged, BeginsPlain, HaveEachVerdict, IsShownOnceMet, ShowsEach};

use crate::example::example_of;
use crate::judged::{Judged, judged_calls};
use sk_conditions::{Budgets, Numbers};
use sk_filter::Chain;
use sk_show::{Line, Options, Shown, rows_of};
use sk_survey::{Answers, Row};
use std::alloc::{AllocError, Global};

/// The lines that tell what a chain answers. Where calls are wanted, one is shown for each verdict that a call of a row gets, as
/// far as the filters are followed and the row has steps left. It has where its calls go one way through each filter.
pub fn lines_of(
    alloc: Global,
    options: Options,
    chain: &Chain,
    budgets: &mut Budgets,
) -> Result<Vec<Line>, AllocError>
    ensures lines { IfOk result (λ lines. AreLinesOf options chain.now lines.items) }
    ensures each { IfOk result (λ lines. All AreFollowed chain.now → budgets.new.is_spent ≡ false → All (ShowsEach chain.now) lines.items) }
    ensures one_way { NeverPart (first_told options.call) (end_told options.call) chain.now → budgets.old.is_spent ≡ false → budgets.new.is_spent ≡ false }
{
    let rows = rows_of(alloc, options.architecture, options.call, chain)?;
    show_all(alloc, options.examples, chain, rows, budgets)
}

fn show_all(
    alloc: Global,
    examples: bool,
    chain: &Chain,
    rows: Vec<Row>,
    budgets: &mut Budgets,
) -> Result<Vec<Line>, AllocError>
    requires rising { All (λ row. row.first ≤ row.last) rows.items }
    ensures rows { IfOk result (λ lines. map row_of lines.items ≡ rows.items) }
    ensures shows { IfOk result (λ lines. All (λ line. Shows chain.now examples line.row line.shown.items) lines.items) }
    ensures each { IfOk result (λ lines. All AreFollowed chain.now → budgets.new.is_spent ≡ false → All (ShowsEach chain.now) lines.items) }
    ensures one_way { All (λ row. All (GoOneWay row.first row.last) chain.now) rows.items → budgets.old.is_spent ≡ false → budgets.new.is_spent ≡ false }
{
    let mut lines = Vec::with_capacity(alloc, rows.len())?;
    for row in rows {
        let line = line_of(alloc, examples, chain, row, budgets)?;
        lines.push(line)?;
    }
    Ok(lines)
}

fn line_of(
    alloc: Global,
    examples: bool,
    chain: &Chain,
    row: Row,
    budgets: &mut Budgets,
) -> Result<Line, AllocError>
    requires range { row.first ≤ row.last }
    ensures row { IfOk result (λ line. line.row ≡ row) }
    ensures shows { IfOk result (λ line. Shows chain.now examples line.row line.shown.items) }
    ensures each { IfOk result (λ line. All AreFollowed chain.now → budgets.new.is_spent ≡ false → ShowsEach chain.now line) }
    ensures spent { budgets.new.is_spent ≡ false → budgets.old.is_spent ≡ false }
    ensures one_way { All (GoOneWay row.first row.last) chain.now → budgets.old.is_spent ≡ false → budgets.new.is_spent ≡ false }
{
    let shown = shown_of(alloc, examples, chain, &row, budgets)?;
    Ok(Line { row, shown })
}

// What is shown below a row: calls for each of its values, where they are wanted.
fn shown_of(
    alloc: Global,
    examples: bool,
    chain: &Chain,
    row: &Row,
    budgets: &mut Budgets,
) -> Result<Vec<Shown>, AllocError>
    requires range { row.now.first ≤ row.now.last }
    ensures shows { IfOk result (λ shown. Shows chain.now examples row.now shown.items) }
    ensures each { IfOk result (λ shown. All AreFollowed chain.now → budgets.new.is_spent ≡ false → All (IsShownOnceMet chain.now row.now) shown.items) }
    ensures spent { budgets.new.is_spent ≡ false → budgets.old.is_spent ≡ false }
    ensures one_way { All (GoOneWay row.now.first row.now.last) chain.now → budgets.old.is_spent ≡ false → budgets.new.is_spent ≡ false }
{
    match &row.answers {
        Answers::Among(values) if examples => values_shown(alloc, chain, row, values, budgets),
        _ => Ok(Vec::new(alloc)),
    }
}

fn values_shown(
    alloc: Global,
    chain: &Chain,
    row: &Row,
    values: &[u32],
    budgets: &mut Budgets,
) -> Result<Vec<Shown>, AllocError>
    requires range { row.now.first ≤ row.now.last }
    ensures values { IfOk result (λ shown. map (λ it. it.value) shown.items ≡ values.now) }
    ensures found { IfOk result (λ shown. All (IsShown chain.now row.now) shown.items) }
    ensures each { IfOk result (λ shown. All AreFollowed chain.now → budgets.new.is_spent ≡ false → All (IsShownOnceMet chain.now row.now) shown.items) }
    ensures spent { budgets.new.is_spent ≡ false → budgets.old.is_spent ≡ false }
    ensures one_way { All (GoOneWay row.now.first row.now.last) chain.now → budgets.old.is_spent ≡ false → budgets.new.is_spent ≡ false }
{
    let numbers = Numbers {
        first: row.first,
        last: row.last,
    };
    let mut left = budgets.row(u64::from(chain.cost()) + 2);
    let calls = judged_calls(alloc, chain, numbers, &mut left)?;
    budgets.put_back(left);
    found_among(alloc, chain, row, values, &calls.judged, calls.open)
}

// The values, each with the first of these calls that gets it, or one that is searched for.
fn found_among(
    alloc: Global,
    chain: &Chain,
    row: &Row,
    values: &[u32],
    judged: &[Judged],
    open: bool,
) -> Result<Vec<Shown>, AllocError>
    requires judged { All (IsJudged chain.now row.now.first row.now.last) judged.now }
    requires plain { BeginsPlain row.now.first judged.now }
    ensures values { IfOk result (λ shown. map (λ it. it.value) shown.items ≡ values.now) }
    ensures found { IfOk result (λ shown. All (IsShown chain.now row.now) shown.items) }
    ensures each { HaveEachVerdict chain.now row.now.first row.now.last judged.now
        → IfOk result (λ shown. All (IsShownOnceMet chain.now row.now) shown.items) }
{
    let mut shown = Vec::with_capacity(alloc, values.len())?;
    for value in values {
        let found = example_of(alloc, chain, judged, open, row.first, row.last, *value)?;
        shown.push(Shown {
            value: *value,
            found,
        })?;
    }
    Ok(shown)
}
