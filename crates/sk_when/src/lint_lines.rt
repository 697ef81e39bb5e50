//! The text of `ask lint`.
ghost use Rattle.std.specs.Prelude.{◌≡◌, ◌++◌, ◌+◌, ◌-◌, ◌^◌, ◌<◌, min, IfOk, OnOk, string_bytes, codes, flat_map};
ghost use Rattle.std.specs.List.{count_by};
ghost use Rattle.sk_when.specs.Lint.{has_concern};
ghost use Rattle.sk_when.specs.LintText.{concern_text, conditions_text, count_text, counted, counted_text, lint_part_text, lint_piece_text, lint_pieces_text, lint_text, nothing_text, opening_text, shown_taken_text, stricter_text, taken_line, taken_text, told_text};

use crate::concern::{Concern, has_concern, lint_names, some_has};
use crate::diff_engine::Finding;
use crate::diff_text::{push_call, push_part};
use crate::names::Names;
use crate::piece::{Outcome, Part, Piece};
use crate::remarks::Remarks;
use sk_arguments::Naming;
use sk_conditions::{Numbers, Relation};
use sk_insn::Record;
use sk_survey::taken_as;
use std::alloc::{AllocError, Global};
use std::fmt::Write;

/// The text of what was found of all pieces. Those that are as strict or stricter are counted, or written with the others where
/// all are wanted.
pub fn lint_text<R: Remarks>(
    alloc: Global,
    all: bool,
    naming: Naming,
    remarks: &R,
    finding: Finding,
    pieces: &[Piece],
) -> Result<String, AllocError>
    ensures text { IfOk result (λ text. string_bytes text ≡ lint_text all naming (R.remark remarks.now) finding pieces.now) }
{
    let mut text = String::new(alloc);
    push_opening(&mut text, finding, pieces)?;
    push_told(&mut text, naming, remarks, pieces)?;
    push_stricter(&mut text, all, naming, remarks, pieces)?;
    Ok(text)
}

fn push_opening(text: &mut String, finding: Finding, pieces: &[Piece]) -> Result<(), AllocError>
    ensures text { OnOk result (string_bytes text.new ≡ string_bytes text.old ++ opening_text finding pieces.now) }
{
    match finding {
        Finding::Holds => text.push_str(nothing_text(some_has(Concern::Stricter, pieces))),
        Finding::Fails | Finding::Undecided => Ok(()),
    }
}

// What is said where nothing is told.
fn nothing_text(stricter: bool) -> &'static str
    ensures text { result.now ≡ nothing_text stricter }
{
    if stricter {
        "no call gets a less strict verdict by bits that Linux does not read\n"
    } else {
        "no call gets another verdict by bits that Linux does not read\n"
    }
}

fn push_told<R: Remarks>(
    text: &mut String,
    naming: Naming,
    remarks: &R,
    pieces: &[Piece],
) -> Result<(), AllocError>
    ensures text { OnOk result (string_bytes text.new ≡ string_bytes text.old ++ told_text naming (R.remark remarks.now) pieces.now) }
{
    push_pieces(text, naming, remarks, Concern::Looser, pieces)?;
    push_pieces(text, naming, remarks, Concern::Signed, pieces)?;
    push_pieces(text, naming, remarks, Concern::Undecided, pieces)
}

fn push_stricter<R: Remarks>(
    text: &mut String,
    all: bool,
    naming: Naming,
    remarks: &R,
    pieces: &[Piece],
) -> Result<(), AllocError>
    ensures text { OnOk result (string_bytes text.new ≡ string_bytes text.old ++ stricter_text all naming (R.remark remarks.now) pieces.now) }
{
    if all {
        push_pieces(text, naming, remarks, Concern::Stricter, pieces)
    } else {
        push_count(text, count_of(Concern::Stricter, pieces))
    }
}

// How many parts are of a concern.
fn count_of(concern: Concern, pieces: &[Piece]) -> u64
    ensures count { result ≡ min (counted concern pieces.now) (2 ^ 64 - 1) }
{
    let mut count = 0u64;
    for piece in pieces {
        count = count.saturating_add(count_among(concern, &piece.parts) as u64);
    }
    count
}

fn count_among(concern: Concern, parts: &[Part]) -> usize
    ensures count { result ≡ count_by (has_concern concern) parts.now }
{
    parts
        .iter()
        .filter(|part| has_concern(concern, part))
        .count()
}

fn push_count(text: &mut String, count: u64) -> Result<(), AllocError>
    ensures text { OnOk result (string_bytes text.new ≡ string_bytes text.old ++ count_text count) }
{
    if count == 0 {
        Ok(())
    } else {
        push_counted(text, count)
    }
}

fn push_counted(text: &mut String, count: u64) -> Result<(), AllocError>
    ensures text { OnOk result (string_bytes text.new ≡ string_bytes text.old ++ counted_text count) }
{
    text.push_str("as strict or stricter by such bits: ")?;
    push_conditions(text, count)
}

#[tactic(auto, unfolding(crate::specs::LintText::conditions_text))]
fn push_conditions(text: &mut String, count: u64) -> Result<(), AllocError>
    ensures text { OnOk result (string_bytes text.new ≡ string_bytes text.old ++ conditions_text count) }
{
    if count == 1 {
        text.push_str("1 condition (--all shows it)\n")
    } else {
        write!(text, "{count} conditions (--all shows them)\n")
    }
}

// The parts of one concern, with what Linux takes the calls for that are shown.
fn push_pieces<R: Remarks>(
    text: &mut String,
    naming: Naming,
    remarks: &R,
    concern: Concern,
    pieces: &[Piece],
) -> Result<(), AllocError>
    ensures text { OnOk result (string_bytes text.new ≡ string_bytes text.old ++ lint_pieces_text naming (R.remark remarks.now) concern pieces.now) }
{
    for piece in pieces {
        push_piece(text, naming, remarks, concern, piece)?;
    }
    Ok(())
}

#[tactic(auto, unfolding(crate::specs::LintText::lint_piece_text))]
fn push_piece<R: Remarks>(
    text: &mut String,
    naming: Naming,
    remarks: &R,
    concern: Concern,
    piece: &Piece,
) -> Result<(), AllocError>
    ensures text { OnOk result (string_bytes text.new ≡ string_bytes text.old ++ lint_piece_text naming (R.remark remarks.now) concern piece.now) }
{
    push_parts(text, naming, remarks, concern, piece.numbers, &piece.parts)
}

fn push_parts<R: Remarks>(
    text: &mut String,
    naming: Naming,
    remarks: &R,
    concern: Concern,
    numbers: Numbers,
    parts: &[Part],
) -> Result<(), AllocError>
    ensures text { OnOk result (string_bytes text.new ≡
        string_bytes text.old ++ flat_map (concern_text naming (R.remark remarks.now) concern numbers) parts.now) }
{
    for part in parts {
        push_part_of_concern(text, naming, remarks, concern, numbers, part)?;
    }
    Ok(())
}

#[tactic(auto, unfolding(crate::specs::LintText::concern_text))]
fn push_part_of_concern<R: Remarks>(
    text: &mut String,
    naming: Naming,
    remarks: &R,
    concern: Concern,
    numbers: Numbers,
    part: &Part,
) -> Result<(), AllocError>
    ensures text { OnOk result (string_bytes text.new ≡
        string_bytes text.old ++ concern_text naming (R.remark remarks.now) concern numbers part.now) }
{
    if !has_concern(concern, part) {
        return Ok(());
    }
    push_lint_part(text, naming, remarks, numbers, part)
}

#[tactic(auto, unfolding(crate::specs::LintText::lint_part_text))]
fn push_lint_part<R: Remarks>(
    text: &mut String,
    naming: Naming,
    remarks: &R,
    numbers: Numbers,
    part: &Part,
) -> Result<(), AllocError>
    ensures text { OnOk result (string_bytes text.new ≡
        string_bytes text.old ++ lint_part_text naming (R.remark remarks.now) numbers part.now) }
{
    let names = lint_names(naming, numbers.first);
    push_part(text, Relation::Same, names, numbers, part)?;
    push_shown_taken(text, naming, remarks, part.outcome)
}

fn push_shown_taken<R: Remarks>(
    text: &mut String,
    naming: Naming,
    remarks: &R,
    outcome: Outcome,
) -> Result<(), AllocError>
    ensures text { OnOk result (string_bytes text.new ≡
        string_bytes text.old ++ shown_taken_text naming (R.remark remarks.now) outcome) }
{
    match outcome {
        Outcome::Undecided => Ok(()),
        Outcome::Apart(_, call) => push_taken(text, naming, remarks, call),
    }
}

fn push_taken<R: Remarks>(
    text: &mut String,
    naming: Naming,
    remarks: &R,
    call: Record,
) -> Result<(), AllocError>
    ensures text { OnOk result (string_bytes text.new ≡ string_bytes text.old ++ taken_text naming (R.remark remarks.now) call) }
{
    push_taken_line(text, lint_names(naming, call.nr), taken_as(call))?;
    remarks.push(text, &call)
}

fn push_taken_line(text: &mut String, names: Names, taken: Record) -> Result<(), AllocError>
    ensures text { OnOk result (string_bytes text.new ≡ string_bytes text.old ++ taken_line names taken) }
{
    text.push_str("  which Linux takes for ")?;
    push_call(text, names, taken)?;
    text.push_str("\n")?;
    Ok(())
}
