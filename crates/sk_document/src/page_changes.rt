//! What changed between two chains, on a page.
ghost use Rattle.std.specs.Prelude.{◌≡◌, ◌++◌, codes, count_by, flat_map, OnOk};
ghost use Rattle.std.specs.List.{list_any};
ghost use Rattle.sk_conditions.specs.declared.standing.Relation.TheVariants.{Same};
ghost use Rattle.sk_when.specs.DiffText.{has_kind, is_kind, piece_has};
ghost use Rattle.sk_document.specs.PageChanges.{calls_shown, change_of_kind, change_row, changed_numbers, changes, difference_cells, example_shown, kind_caption, kind_section, kind_table, kind_title, new_shown, old_shown, piece_changes, shown_cell};
ghost use Rattle.sk_document.specs.Html.{element};
ghost use Rattle.sk_document.specs.PageParts.{call_shown, told_of};

use crate::comparison::kind_word;
use crate::html::Html;
use crate::page_parts::{
    add_call, add_condition, add_nothing, add_row_head, add_verdict, begin_counted, begin_place,
    begin_table,
};
use sk_conditions::Numbers;
use sk_insn::Record;
use sk_when::{Calls, Kind, Names, Outcome, Part, Piece, Relation, constants_of, kind_of};
use std::alloc::AllocError;

/// The columns of each kind.
pub const COLUMNS: [&str; 4] = [
    "Call",
    "Old verdict",
    "New verdict",
    "Condition, and a call that meets it",
];

/// Adds differences by their kinds, looser verdicts first.
#[tactic(auto, unfolding(crate::specs::PageChanges::changes))]
pub fn add_changes(to: &mut Html, names: Names, pieces: &[Piece]) -> Result<(), AllocError>
    ensures added { OnOk result (to.new ≡ to.old ++ changes names pieces.now) }
{
    add_kind(to, names, pieces, Kind::Looser)?;
    add_kind(to, names, pieces, Kind::Stricter)?;
    add_kind(to, names, pieces, Kind::Other)
}

#[tactic(auto, unfolding(crate::specs::PageChanges::kind_section))]
fn add_kind(to: &mut Html, names: Names, pieces: &[Piece], kind: Kind) -> Result<(), AllocError>
    ensures added { OnOk result (to.new ≡ to.old ++ kind_section names pieces.now kind) }
{
    let count = count_of(kind, pieces);
    begin_counted(to, kind_word(kind), kind_title(kind), count)?;
    add_counted(to, count, names, pieces, kind)?;
    to.end("section")
}

// How many pieces have differences of a kind.
fn count_of(kind: Kind, pieces: &[Piece]) -> usize
    ensures count { result ≡ count_by (piece_has Same kind) pieces.now }
{
    pieces
        .iter()
        .filter(|piece| some_has(kind, &piece.parts))
        .count()
}

fn some_has(kind: Kind, parts: &[Part]) -> bool
    ensures some { result ≡ list_any (has_kind Same kind) parts.now }
{
    parts.iter().any(|part| has_kind(kind, part))
}

fn has_kind(kind: Kind, part: &Part) -> bool
    ensures has { result ≡ has_kind Same kind part.now }
{
    is_kind(kind_of(Relation::Same, part.outcome), kind)
}

fn is_kind(one: Kind, other: Kind) -> bool
    ensures same { result ≡ is_kind one other }
{
    match one {
        Kind::Looser => matches!(other, Kind::Looser),
        Kind::Stricter => matches!(other, Kind::Stricter),
        Kind::Other => matches!(other, Kind::Other),
        Kind::Undecided => matches!(other, Kind::Undecided),
    }
}

fn add_counted(
    to: &mut Html,
    count: usize,
    names: Names,
    pieces: &[Piece],
    kind: Kind,
) -> Result<(), AllocError>
    ensures added { OnOk result (to.new ≡ to.old ++ told_of count (kind_table names pieces.now kind)) }
{
    if count == 0 {
        add_nothing(to)
    } else {
        add_table(to, names, pieces, kind)
    }
}

#[tactic(auto, unfolding(crate::specs::PageChanges::kind_table, crate::specs::PageChanges::change_columns))]
fn add_table(to: &mut Html, names: Names, pieces: &[Piece], kind: Kind) -> Result<(), AllocError>
    ensures added { OnOk result (to.new ≡ to.old ++ kind_table names pieces.now kind) }
{
    begin_table(to, kind_caption(kind), &COLUMNS)?;
    add_pieces(to, names, pieces, kind)?;
    to.end("table")
}

fn kind_title(kind: Kind) -> &'static str
    ensures title { result.now ≡ kind_title kind }
{
    match kind {
        Kind::Looser => "Looser",
        Kind::Stricter => "Stricter",
        Kind::Other => "Other changes",
        Kind::Undecided => "Undecided",
    }
}

fn kind_caption(kind: Kind) -> &'static str
    ensures caption { result.now ≡ kind_caption kind }
{
    match kind {
        Kind::Looser => "The new verdict is less strict than the old one",
        Kind::Stricter => "The new verdict is stricter than the old one",
        Kind::Other => "Each verdict is as strict as the other",
        Kind::Undecided => "Which verdicts come is not known",
    }
}

fn add_pieces(to: &mut Html, names: Names, pieces: &[Piece], kind: Kind) -> Result<(), AllocError>
    ensures added { OnOk result (to.new ≡ to.old ++ flat_map (piece_changes names kind) pieces.now) }
{
    for piece in pieces {
        add_piece(to, names, kind, piece)?;
    }
    Ok(())
}

#[tactic(auto, unfolding(crate::specs::PageChanges::piece_changes))]
fn add_piece(to: &mut Html, names: Names, kind: Kind, piece: &Piece) -> Result<(), AllocError>
    ensures added { OnOk result (to.new ≡ to.old ++ piece_changes names kind piece.now) }
{
    if some_has(kind, &piece.parts) {
        add_changed(to, names, kind, piece)
    } else {
        Ok(())
    }
}

#[tactic(auto, unfolding(crate::specs::PageChanges::changed_numbers))]
fn add_changed(to: &mut Html, names: Names, kind: Kind, piece: &Piece) -> Result<(), AllocError>
    ensures added { OnOk result (to.new ≡ to.old ++ changed_numbers names kind piece.now) }
{
    begin_place(to, "tbody", kind_word(kind), piece.numbers.first)?;
    add_parts(to, names, kind, piece.numbers, &piece.parts)?;
    to.end("tbody")
}

fn add_parts(
    to: &mut Html,
    names: Names,
    kind: Kind,
    numbers: Numbers,
    parts: &[Part],
) -> Result<(), AllocError>
    ensures added { OnOk result (to.new ≡ to.old ++ flat_map (change_of_kind names kind numbers) parts.now) }
{
    for part in parts {
        add_part_of(to, names, kind, numbers, part)?;
    }
    Ok(())
}

#[tactic(auto, unfolding(crate::specs::PageChanges::change_of_kind))]
fn add_part_of(
    to: &mut Html,
    names: Names,
    kind: Kind,
    numbers: Numbers,
    part: &Part,
) -> Result<(), AllocError>
    ensures added { OnOk result (to.new ≡ to.old ++ change_of_kind names kind numbers part.now) }
{
    if has_kind(kind, part) {
        add_part(to, names, numbers, part)
    } else {
        Ok(())
    }
}

#[tactic(auto, unfolding(crate::specs::PageChanges::change_row))]
fn add_part(to: &mut Html, names: Names, numbers: Numbers, part: &Part) -> Result<(), AllocError>
    ensures added { OnOk result (to.new ≡ to.old ++ change_row names numbers part.now) }
{
    to.begin("tr")?;
    add_difference(to, names, numbers, part)?;
    add_shown(to, names, numbers, part)?;
    to.end("tr")
}

/// Adds numbers with both verdicts.
#[tactic(auto, unfolding(crate::specs::PageChanges::difference_cells))]
pub fn add_difference(
    to: &mut Html,
    names: Names,
    numbers: Numbers,
    part: &Part,
) -> Result<(), AllocError>
    ensures added { OnOk result (to.new ≡ to.old ++ difference_cells names numbers part.now) }
{
    add_row_head(to, names.architecture, numbers.first, numbers.last)?;
    to.begin("td")?;
    add_old(to, part.outcome)?;
    to.end("td")?;
    to.begin("td")?;
    add_new(to, part.outcome)?;
    to.end("td")
}

// The condition, and a call that meets it.
#[tactic(auto, unfolding(crate::specs::PageChanges::shown_cell))]
fn add_shown(to: &mut Html, names: Names, numbers: Numbers, part: &Part) -> Result<(), AllocError>
    ensures added { OnOk result (to.new ≡ to.old ++ shown_cell names numbers part.now) }
{
    to.begin("td")?;
    let constants = constants_of(names, numbers.first, numbers.last);
    add_calls(to, constants, &part.calls)?;
    add_example(to, names, part.outcome)?;
    to.end("td")
}

fn add_old(to: &mut Html, outcome: Outcome) -> Result<(), AllocError>
    ensures added { OnOk result (to.new ≡ to.old ++ old_shown outcome) }
{
    match outcome {
        Outcome::Undecided => to.markup("undecided"),
        Outcome::Apart(it, _) => add_verdict(to, it.old),
    }
}

fn add_new(to: &mut Html, outcome: Outcome) -> Result<(), AllocError>
    ensures added { OnOk result (to.new ≡ to.old ++ new_shown outcome) }
{
    match outcome {
        Outcome::Undecided => to.markup("undecided"),
        Outcome::Apart(it, _) => add_verdict(to, it.new),
    }
}

/// Adds the condition that calls meet, where it is not every call.
pub fn add_calls(to: &mut Html, constants: Option<u32>, calls: &Calls) -> Result<(), AllocError>
    ensures added { OnOk result (to.new ≡ to.old ++ calls_shown constants calls.now) }
{
    match calls {
        Calls::Every => to.markup("every call"),
        Calls::Meeting(line) => add_condition(to, constants, line),
    }
}

fn add_example(to: &mut Html, names: Names, outcome: Outcome) -> Result<(), AllocError>
    ensures added { OnOk result (to.new ≡ to.old ++ example_shown names outcome) }
{
    match outcome {
        Outcome::Undecided => Ok(()),
        Outcome::Apart(_, call) => add_such(to, names, call),
    }
}

fn add_such(to: &mut Html, names: Names, call: Record) -> Result<(), AllocError>
    ensures added { OnOk result (to.new ≡ to.old ++ element (codes "p") (codes "such as " ++ call_shown names call)) }
{
    to.begin("p")?;
    to.markup("such as ")?;
    add_call(to, names, call)?;
    to.end("p")
}
