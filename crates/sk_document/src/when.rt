//! What `ask when` tells, as a document.
ghost use Rattle.std.specs.Prelude.{◌≡◌, ◌++◌, flat_map, IfOk, OnOk};
ghost use Rattle.sk_document.specs.WhenDocument.{lines_at, otherwise_at, rows_at, when_document, when_line, when_row, when_tokens};

use crate::document::Document;
use crate::numbers::{add_architecture, add_numbers};
use crate::terms::add_condition;
use crate::verdict::{add_maybe_verdict, add_verdicts_at};
use sk_terms::Line;
use sk_when::{ConditionalRow, Names, constants_of};
use std::alloc::{AllocError, Global};

/// Rows with the conditions of their verdicts, as calls are named and numbers written.
pub fn when_document(
    alloc: Global,
    names: Names,
    rows: &[ConditionalRow],
) -> Result<Vec<u8>, AllocError>
    ensures document { IfOk result (λ text. text.items ≡ when_document names rows.now) }
{
    let mut document = Document::new(alloc);
    add_when(&mut document, names, rows)?;
    document.finished()
}

#[tactic(auto, unfolding(crate::specs::WhenDocument::when_tokens))]
fn add_when(to: &mut Document, names: Names, rows: &[ConditionalRow]) -> Result<(), AllocError>
    ensures added { OnOk result (to.new ≡ to.old ++ when_tokens names rows.now) }
{
    to.begin_object()?;
    to.word_at("when")?;
    add_architecture(to, names.architecture)?;
    add_rows_at(to, names, rows)?;
    to.end_object()
}

#[tactic(auto, unfolding(crate::specs::WhenDocument::rows_at))]
fn add_rows_at(to: &mut Document, names: Names, rows: &[ConditionalRow]) -> Result<(), AllocError>
    ensures added { OnOk result (to.new ≡ to.old ++ rows_at names rows.now) }
{
    to.at("rows")?;
    to.begin_array()?;
    add_rows(to, names, rows)?;
    to.end_array()
}

fn add_rows(to: &mut Document, names: Names, rows: &[ConditionalRow]) -> Result<(), AllocError>
    ensures added { OnOk result (to.new ≡ to.old ++ flat_map (when_row names) rows.now) }
{
    for row in rows {
        add_row(to, names, row)?;
    }
    Ok(())
}

#[tactic(auto, unfolding(crate::specs::WhenDocument::when_row))]
fn add_row(to: &mut Document, names: Names, told: &ConditionalRow) -> Result<(), AllocError>
    ensures added { OnOk result (to.new ≡ to.old ++ when_row names told.now) }
{
    to.begin_object()?;
    add_numbers(to, names.architecture, told.row.first, told.row.last)?;
    add_verdicts_at(to, &told.row.answers)?;
    let constants = constants_of(names, told.row.first, told.row.last);
    add_lines(to, constants, &told.lines)?;
    add_otherwise(to, told.otherwise)?;
    to.end_object()
}

#[tactic(auto, unfolding(crate::specs::WhenDocument::otherwise_at))]
fn add_otherwise(to: &mut Document, value: Option<u32>) -> Result<(), AllocError>
    ensures added { OnOk result (to.new ≡ to.old ++ otherwise_at value) }
{
    to.at("otherwise")?;
    add_maybe_verdict(to, value)
}

#[tactic(auto, unfolding(crate::specs::WhenDocument::lines_at))]
fn add_lines(to: &mut Document, constants: Option<u32>, lines: &[Line]) -> Result<(), AllocError>
    ensures added { OnOk result (to.new ≡ to.old ++ lines_at constants lines.now) }
{
    to.at("lines")?;
    to.begin_array()?;
    add_each(to, constants, lines)?;
    to.end_array()
}

fn add_each(to: &mut Document, constants: Option<u32>, lines: &[Line]) -> Result<(), AllocError>
    ensures added { OnOk result (to.new ≡ to.old ++ flat_map (when_line constants) lines.now) }
{
    for line in lines {
        add_line(to, constants, line)?;
    }
    Ok(())
}

#[tactic(auto, unfolding(crate::specs::WhenDocument::when_line))]
fn add_line(to: &mut Document, constants: Option<u32>, line: &Line) -> Result<(), AllocError>
    ensures added { OnOk result (to.new ≡ to.old ++ when_line constants line.now) }
{
    to.begin_object()?;
    to.at("verdict")?;
    add_maybe_verdict(to, line.value)?;
    add_condition(to, constants, line)?;
    to.end_object()
}
