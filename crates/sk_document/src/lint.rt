//! What `ask lint` tells, as a document.
ghost use Rattle.std.specs.Prelude.{◌≡◌, ◌++◌, flat_map, IfOk, OnOk};
ghost use Rattle.sk_document.specs.LintDocument.{concern_at, concern_word, lint_document, lint_numbers, lint_part, lint_piece, lint_pieces, lint_tokens, named_part, remark_at, remarked, taken, taken_at};

use crate::call::add_call;
use crate::difference::{add_difference, add_differences_name, add_holds};
use crate::document::Document;
use crate::numbers::{add_architecture, add_numbers};
use sk_arguments::Naming;
use sk_conditions::{Numbers, Relation};
use sk_insn::Record;
use sk_survey::taken_as;
use sk_when::{Concern, Finding, Names, Outcome, Part, Piece, Remarks, concern_of, lint_names};
use std::alloc::{AllocError, Global};

/// Each part of each piece, by its concern, with what Linux takes its call for.
pub fn lint_document<R: Remarks>(
    alloc: Global,
    naming: Naming,
    remarks: &R,
    finding: Finding,
    pieces: &[Piece],
) -> Result<Vec<u8>, AllocError>
    ensures document { IfOk result (λ text. text.items ≡ lint_document naming (R.remark remarks.now) finding pieces.now) }
{
    let mut document = Document::new(alloc);
    add_lint(&mut document, naming, remarks, finding, pieces)?;
    document.finished()
}

#[tactic(auto, unfolding(crate::specs::LintDocument::lint_tokens))]
fn add_lint<R: Remarks>(
    to: &mut Document,
    naming: Naming,
    remarks: &R,
    finding: Finding,
    pieces: &[Piece],
) -> Result<(), AllocError>
    ensures added { OnOk result (to.new ≡ to.old ++ lint_tokens naming (R.remark remarks.now) finding pieces.now) }
{
    to.begin_object()?;
    to.word_at("lint")?;
    add_holds(to, finding)?;
    add_differences(to, naming, remarks, pieces)?;
    to.end_object()
}

#[tactic(auto, unfolding(crate::specs::LintDocument::lint_pieces))]
fn add_differences<R: Remarks>(
    to: &mut Document,
    naming: Naming,
    remarks: &R,
    pieces: &[Piece],
) -> Result<(), AllocError>
    ensures added { OnOk result (to.new ≡ to.old ++ lint_pieces naming (R.remark remarks.now) pieces.now) }
{
    add_differences_name(to)?;
    to.begin_array()?;
    add_pieces(to, naming, remarks, pieces)?;
    to.end_array()
}

fn add_pieces<R: Remarks>(
    to: &mut Document,
    naming: Naming,
    remarks: &R,
    pieces: &[Piece],
) -> Result<(), AllocError>
    ensures added { OnOk result (to.new ≡ to.old ++ flat_map (lint_piece naming (R.remark remarks.now)) pieces.now) }
{
    for piece in pieces {
        add_piece(to, naming, remarks, piece)?;
    }
    Ok(())
}

#[tactic(auto, unfolding(crate::specs::LintDocument::lint_piece))]
fn add_piece<R: Remarks>(
    to: &mut Document,
    naming: Naming,
    remarks: &R,
    piece: &Piece,
) -> Result<(), AllocError>
    ensures added { OnOk result (to.new ≡ to.old ++ lint_piece naming (R.remark remarks.now) piece.now) }
{
    add_parts(to, naming, remarks, piece.numbers, &piece.parts)
}

fn add_parts<R: Remarks>(
    to: &mut Document,
    naming: Naming,
    remarks: &R,
    numbers: Numbers,
    parts: &[Part],
) -> Result<(), AllocError>
    ensures added { OnOk result (to.new ≡ to.old ++ flat_map (lint_part naming (R.remark remarks.now) numbers) parts.now) }
{
    for part in parts {
        add_part(to, naming, remarks, numbers, part)?;
    }
    Ok(())
}

#[tactic(auto, unfolding(crate::specs::LintDocument::lint_part))]
fn add_part<R: Remarks>(
    to: &mut Document,
    naming: Naming,
    remarks: &R,
    numbers: Numbers,
    part: &Part,
) -> Result<(), AllocError>
    ensures added { OnOk result (to.new ≡ to.old ++ lint_part naming (R.remark remarks.now) numbers part.now) }
{
    add_named(
        to,
        lint_names(naming, numbers.first),
        remarks,
        numbers,
        part,
    )
}

#[tactic(auto, unfolding(crate::specs::LintDocument::named_part))]
fn add_named<R: Remarks>(
    to: &mut Document,
    names: Names,
    remarks: &R,
    numbers: Numbers,
    part: &Part,
) -> Result<(), AllocError>
    ensures added { OnOk result (to.new ≡ to.old ++ named_part names (R.remark remarks.now) numbers part.now) }
{
    to.begin_object()?;
    add_lint_numbers(to, names, numbers)?;
    add_concern(to, concern_of(part))?;
    add_difference(to, Relation::Same, names, numbers, part)?;
    add_taken_at(to, names.naming, part.outcome)?;
    add_remark(to, remarks, part.outcome)?;
    to.end_object()
}

#[tactic(auto, unfolding(crate::specs::LintDocument::lint_numbers))]
fn add_lint_numbers(to: &mut Document, names: Names, numbers: Numbers) -> Result<(), AllocError>
    ensures added { OnOk result (to.new ≡ to.old ++ lint_numbers names numbers) }
{
    add_numbers(to, names.architecture, numbers.first, numbers.last)?;
    add_architecture(to, names.architecture)
}

#[tactic(auto, unfolding(crate::specs::LintDocument::concern_at))]
fn add_concern(to: &mut Document, concern: Concern) -> Result<(), AllocError>
    ensures added { OnOk result (to.new ≡ to.old ++ concern_at concern) }
{
    to.string_at("concern", concern_word(concern))
}

fn concern_word(concern: Concern) -> &'static str
    ensures word { result.now ≡ concern_word concern }
{
    match concern {
        Concern::Looser => "looser",
        Concern::Signed => "signed",
        Concern::Undecided => "undecided",
        Concern::Stricter => "stricter",
    }
}

#[tactic(auto, unfolding(crate::specs::LintDocument::taken_at))]
fn add_taken_at(to: &mut Document, naming: Naming, outcome: Outcome) -> Result<(), AllocError>
    ensures added { OnOk result (to.new ≡ to.old ++ taken_at naming outcome) }
{
    to.at("taken")?;
    add_taken(to, naming, outcome)
}

// What Linux takes the call for that is shown.
fn add_taken(to: &mut Document, naming: Naming, outcome: Outcome) -> Result<(), AllocError>
    ensures added { OnOk result (to.new ≡ to.old ++ taken naming outcome) }
{
    match outcome {
        Outcome::Undecided => to.null(),
        Outcome::Apart(_, call) => add_call(to, lint_names(naming, call.nr), taken_as(call)),
    }
}

#[tactic(auto, unfolding(crate::specs::LintDocument::remark_at))]
fn add_remark<R: Remarks>(
    to: &mut Document,
    remarks: &R,
    outcome: Outcome,
) -> Result<(), AllocError>
    ensures added { OnOk result (to.new ≡ to.old ++ remark_at (remarked (R.remark remarks.now) outcome)) }
{
    match outcome {
        Outcome::Undecided => to.string_at("remark", ""),
        Outcome::Apart(_, call) => add_remark_on(to, remarks, call),
    }
}

#[tactic(auto, unfolding(crate::specs::LintDocument::remark_at))]
fn add_remark_on<R: Remarks>(to: &mut Document, remarks: &R, call: Record) -> Result<(), AllocError>
    ensures added { OnOk result (to.new ≡ to.old ++ remark_at (R.remark remarks.now call)) }
{
    let mut text = to.text();
    remarks.push(&mut text, &call)?;
    to.string_at("remark", text.as_str())
}
