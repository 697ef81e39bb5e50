//! What `ask lint` tells, on a page.
ghost use Rattle.std.specs.Prelude.{◌≡◌, ◌++◌, codes, count_by, flat_map, OnOk};
ghost use Rattle.std.specs.List.{list_any};
ghost use Rattle.sk_when.specs.Lint.{has_concern, is_concern, piece_has};
ghost use Rattle.sk_document.specs.Html.{begun, element};
ghost use Rattle.sk_document.specs.PageLint.{concern_details, concern_id, concern_table, concern_title, concerns, lint_begun, lint_section, linted_cell, linted_numbers, named_row, opened, outcome_shown, part_of_concern, piece_of_concern, remark_shown, taken_for, taken_shown, taken_text};
ghost use Rattle.sk_document.specs.PageParts.{counted, told_of};

use crate::html::Html;
use crate::page_changes::{add_calls, add_difference};
use crate::page_parts::{
    add_call, add_nothing, begin_place, begin_section, begin_table, push_counted,
};
use sk_arguments::Naming;
use sk_conditions::Numbers;
use sk_insn::Record;
use sk_survey::taken_as;
use sk_when::{
    Concern, Names, Outcome, Part, Piece, Remarks, concern_of, constants_of, lint_names,
};
use std::alloc::AllocError;

/// The heading of the section.
pub const UNREAD: &str = "Bits that Linux does not read";

/// What stands between a call and what Linux takes it for.
pub const TAKEN: &str = " which Linux takes for ";

/// The columns of each concern.
pub const COLUMNS: [&str; 4] = [
    "Call",
    "Verdict on what Linux takes it for",
    "Its own verdict",
    "Condition, and a call that meets it",
];

/// Adds the parts of pieces by their concerns, less strict verdicts first.
#[tactic(auto, unfolding(crate::specs::PageLint::lint_section))]
pub fn add_lint<R: Remarks>(
    to: &mut Html,
    naming: Naming,
    remarks: &R,
    pieces: &[Piece],
) -> Result<(), AllocError>
    ensures added { OnOk result (to.new ≡ to.old ++ lint_section naming (R.remark remarks.now) pieces.now) }
{
    begin_lint(to)?;
    add_concerns(to, naming, remarks, pieces)?;
    to.end("section")
}

#[tactic(auto, unfolding(crate::specs::PageLint::concerns))]
fn add_concerns<R: Remarks>(
    to: &mut Html,
    naming: Naming,
    remarks: &R,
    pieces: &[Piece],
) -> Result<(), AllocError>
    ensures added { OnOk result (to.new ≡ to.old ++ concerns naming (R.remark remarks.now) pieces.now) }
{
    add_concern(to, naming, remarks, pieces, Concern::Looser)?;
    add_concern(to, naming, remarks, pieces, Concern::Signed)?;
    add_concern(to, naming, remarks, pieces, Concern::Stricter)
}

#[tactic(auto, unfolding(crate::specs::PageLint::concern_details))]
fn add_concern<R: Remarks>(
    to: &mut Html,
    naming: Naming,
    remarks: &R,
    pieces: &[Piece],
    concern: Concern,
) -> Result<(), AllocError>
    ensures added { OnOk result (to.new ≡ to.old ++ concern_details naming (R.remark remarks.now) pieces.now concern) }
{
    let count = count_of(concern, pieces);
    begin_details(to, concern)?;
    add_summary(to, concern, count)?;
    add_counted(to, count, naming, remarks, pieces, concern)?;
    to.end("details")
}

fn begin_details(to: &mut Html, concern: Concern) -> Result<(), AllocError>
    ensures added { OnOk result (to.new ≡ to.old ++ begun (codes "details") (opened concern)) }
{
    to.begin_with("details", opened(concern))
}

fn opened(concern: Concern) -> &'static str
    ensures opened { result.now ≡ opened concern }
{
    match concern {
        Concern::Stricter => "",
        Concern::Looser | Concern::Signed | Concern::Undecided => " open",
    }
}

fn add_summary(to: &mut Html, concern: Concern, count: usize) -> Result<(), AllocError>
    ensures added { OnOk result (to.new ≡ to.old ++ element (codes "summary") (counted (concern_title concern) count)) }
{
    let mut text = to.text();
    push_counted(&mut text, concern_title(concern), count)?;
    to.element("summary", text.as_str())
}

// How many pieces have parts of a concern.
fn count_of(concern: Concern, pieces: &[Piece]) -> usize
    ensures count { result ≡ count_by (piece_has concern) pieces.now }
{
    pieces
        .iter()
        .filter(|piece| some_has(concern, &piece.parts))
        .count()
}

fn some_has(concern: Concern, parts: &[Part]) -> bool
    ensures some { result ≡ list_any (has_concern concern) parts.now }
{
    parts.iter().any(|part| has_concern(concern, part))
}

fn has_concern(concern: Concern, part: &Part) -> bool
    ensures has { result ≡ has_concern concern part.now }
{
    is_concern(concern_of(part), concern)
}

fn is_concern(one: Concern, other: Concern) -> bool
    ensures same { result ≡ is_concern one other }
{
    match one {
        Concern::Looser => matches!(other, Concern::Looser),
        Concern::Signed => matches!(other, Concern::Signed),
        Concern::Undecided => matches!(other, Concern::Undecided),
        Concern::Stricter => matches!(other, Concern::Stricter),
    }
}

fn add_counted<R: Remarks>(
    to: &mut Html,
    count: usize,
    naming: Naming,
    remarks: &R,
    pieces: &[Piece],
    concern: Concern,
) -> Result<(), AllocError>
    ensures added { OnOk result (to.new ≡ to.old ++ told_of count (concern_table naming (R.remark remarks.now) pieces.now concern)) }
{
    if count == 0 {
        add_nothing(to)
    } else {
        add_table(to, naming, remarks, pieces, concern)
    }
}

#[tactic(auto, unfolding(crate::specs::PageLint::concern_table, crate::specs::PageLint::lint_columns))]
fn add_table<R: Remarks>(
    to: &mut Html,
    naming: Naming,
    remarks: &R,
    pieces: &[Piece],
    concern: Concern,
) -> Result<(), AllocError>
    ensures added { OnOk result (to.new ≡ to.old ++ concern_table naming (R.remark remarks.now) pieces.now concern) }
{
    begin_table(to, concern_title(concern), &COLUMNS)?;
    add_pieces(to, naming, remarks, pieces, concern)?;
    to.end("table")
}

fn concern_title(concern: Concern) -> &'static str
    ensures title { result.now ≡ concern_title concern }
{
    match concern {
        Concern::Looser => "Calls with a less strict verdict than what Linux takes them for",
        Concern::Signed => "Calls with another verdict by the sign of an int",
        Concern::Undecided => "Calls whose verdict is not known",
        Concern::Stricter => "Calls with another verdict that is as strict or stricter",
    }
}

fn concern_id(concern: Concern) -> &'static str
    ensures id { result.now ≡ concern_id concern }
{
    match concern {
        Concern::Looser => "lint-looser",
        Concern::Signed => "lint-signed",
        Concern::Undecided => "lint-undecided",
        Concern::Stricter => "lint-stricter",
    }
}

fn add_pieces<R: Remarks>(
    to: &mut Html,
    naming: Naming,
    remarks: &R,
    pieces: &[Piece],
    concern: Concern,
) -> Result<(), AllocError>
    ensures added { OnOk result (to.new ≡ to.old ++ flat_map (piece_of_concern naming (R.remark remarks.now) concern) pieces.now) }
{
    for piece in pieces {
        add_piece(to, naming, remarks, concern, piece)?;
    }
    Ok(())
}

#[tactic(auto, unfolding(crate::specs::PageLint::piece_of_concern))]
fn add_piece<R: Remarks>(
    to: &mut Html,
    naming: Naming,
    remarks: &R,
    concern: Concern,
    piece: &Piece,
) -> Result<(), AllocError>
    ensures added { OnOk result (to.new ≡ to.old ++ piece_of_concern naming (R.remark remarks.now) concern piece.now) }
{
    if some_has(concern, &piece.parts) {
        add_linted(to, naming, remarks, concern, piece)
    } else {
        Ok(())
    }
}

#[tactic(auto, unfolding(crate::specs::PageLint::linted_numbers))]
fn add_linted<R: Remarks>(
    to: &mut Html,
    naming: Naming,
    remarks: &R,
    concern: Concern,
    piece: &Piece,
) -> Result<(), AllocError>
    ensures added { OnOk result (to.new ≡ to.old ++ linted_numbers naming (R.remark remarks.now) concern piece.now) }
{
    begin_place(to, "tbody", concern_id(concern), piece.numbers.first)?;
    add_parts(to, naming, remarks, concern, piece.numbers, &piece.parts)?;
    to.end("tbody")
}

fn add_parts<R: Remarks>(
    to: &mut Html,
    naming: Naming,
    remarks: &R,
    concern: Concern,
    numbers: Numbers,
    parts: &[Part],
) -> Result<(), AllocError>
    ensures added { OnOk result (to.new ≡ to.old ++ flat_map (part_of_concern naming (R.remark remarks.now) concern numbers) parts.now) }
{
    for part in parts {
        add_part_of(to, naming, remarks, concern, numbers, part)?;
    }
    Ok(())
}

#[tactic(auto, unfolding(crate::specs::PageLint::part_of_concern))]
fn add_part_of<R: Remarks>(
    to: &mut Html,
    naming: Naming,
    remarks: &R,
    concern: Concern,
    numbers: Numbers,
    part: &Part,
) -> Result<(), AllocError>
    ensures added { OnOk result (to.new ≡ to.old ++ part_of_concern naming (R.remark remarks.now) concern numbers part.now) }
{
    if has_concern(concern, part) {
        add_part(
            to,
            lint_names(naming, numbers.first),
            remarks,
            numbers,
            part,
        )
    } else {
        Ok(())
    }
}

#[tactic(auto, unfolding(crate::specs::PageLint::named_row))]
fn add_part<R: Remarks>(
    to: &mut Html,
    names: Names,
    remarks: &R,
    numbers: Numbers,
    part: &Part,
) -> Result<(), AllocError>
    ensures added { OnOk result (to.new ≡ to.old ++ named_row names (R.remark remarks.now) numbers part.now) }
{
    to.begin("tr")?;
    add_difference(to, names, numbers, part)?;
    add_shown(to, names, remarks, numbers, part)?;
    to.end("tr")
}

// The condition, and a call that meets it.
#[tactic(auto, unfolding(crate::specs::PageLint::linted_cell))]
fn add_shown<R: Remarks>(
    to: &mut Html,
    names: Names,
    remarks: &R,
    numbers: Numbers,
    part: &Part,
) -> Result<(), AllocError>
    ensures added { OnOk result (to.new ≡ to.old ++ linted_cell names (R.remark remarks.now) numbers part.now) }
{
    to.begin("td")?;
    let constants = constants_of(names, numbers.first, numbers.last);
    add_calls(to, constants, &part.calls)?;
    add_outcome(to, names.naming, remarks, part.outcome)?;
    to.end("td")
}

fn add_outcome<R: Remarks>(
    to: &mut Html,
    naming: Naming,
    remarks: &R,
    outcome: Outcome,
) -> Result<(), AllocError>
    ensures added { OnOk result (to.new ≡ to.old ++ outcome_shown naming (R.remark remarks.now) outcome) }
{
    match outcome {
        Outcome::Undecided => Ok(()),
        Outcome::Apart(_, call) => {
            add_taken(to, lint_names(naming, call.nr), call)?;
            add_remark(to, remarks, call)
        }
    }
}

#[tactic(auto, unfolding(crate::specs::PageLint::taken_shown))]
fn add_taken(to: &mut Html, names: Names, call: Record) -> Result<(), AllocError>
    ensures added { OnOk result (to.new ≡ to.old ++ taken_shown names call) }
{
    to.begin("p")?;
    to.markup("such as ")?;
    add_call(to, names, call)?;
    add_taken_for(to, names, call)?;
    to.end("p")
}

#[tactic(auto, unfolding(crate::specs::PageLint::taken_for))]
fn add_taken_for(to: &mut Html, names: Names, call: Record) -> Result<(), AllocError>
    ensures added { OnOk result (to.new ≡ to.old ++ taken_for names call) }
{
    add_taken_text(to)?;
    add_call(to, names, taken_as(call))
}

fn add_remark<R: Remarks>(to: &mut Html, remarks: &R, call: Record) -> Result<(), AllocError>
    ensures added { OnOk result (to.new ≡ to.old ++ remark_shown (R.remark remarks.now call)) }
{
    let mut text = to.text();
    remarks.push(&mut text, &call)?;
    add_lines(to, text.as_bytes())
}

fn add_lines(to: &mut Html, text: &[u8]) -> Result<(), AllocError>
    ensures added { OnOk result (to.new ≡ to.old ++ remark_shown text.now) }
{
    if text.is_empty() {
        Ok(())
    } else {
        to.shown_in("pre", text)
    }
}

#[tactic(auto, unfolding(crate::specs::PageLint::taken_text))]
fn add_taken_text(to: &mut Html) -> Result<(), AllocError>
    ensures added { OnOk result (to.new ≡ to.old ++ taken_text) }
{
    to.markup(TAKEN)
}

#[tactic(auto, unfolding(crate::specs::PageLint::lint_begun))]
fn begin_lint(to: &mut Html) -> Result<(), AllocError>
    ensures added { OnOk result (to.new ≡ to.old ++ lint_begun) }
{
    begin_section(to, "lint", UNREAD)
}
