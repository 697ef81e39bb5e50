//! The text of a comparison.
ghost use Rattle.std.specs.Prelude.{◌≡◌, ◌<◌, ◌++◌, ◌^◌, IfOk, OnOk, string_bytes, codes, flat_map};
ghost use Rattle.std.specs.List.{list_any};
ghost use Rattle.sk_when.specs.DiffText.{call_name_text, arguments_text, address_text, call_text, differences_text, section_text, heading, kind_heading, some_has, has_kind, piece_text, kind_text, kind_of, change_of, is_kind, part_text, verdicts_behind, old_text, expected_text, outcome_text, calls_text, head_text, shown_text, record_text, everywhere_text, comparison_text};

use crate::diff_engine::Finding;
use crate::filling::push_filled;
use crate::names::{Names, constants_of};
use crate::piece::{Calls, Outcome, Part, Piece};
use sk_arguments::call_with_constants;
use sk_conditions::{Expectation, Numbers, Relation, Verdicts, stands};
use sk_filter::push_verdict;
use sk_insn::Record;
use sk_names::{Architecture, name};
use sk_show::{name_of_numbers, push_numbers};
use sk_terms::push_argument;
use sk_text::HexDigits;
use std::alloc::{AllocError, Global};
use std::fmt::Write;

/// The text of a comparison: that the relation holds on every call, or the differences. Calls have the names that they have on the
/// architecture, and numbers are written so.
pub fn comparison_text(
    alloc: Global,
    names: Names,
    relation: Relation,
    finding: Finding,
    pieces: &[Piece],
) -> Result<String, AllocError>
    ensures text { IfOk result (λ text. string_bytes text ≡ comparison_text names relation finding pieces.now) }
{
    match finding {
        Finding::Holds => {
            let mut text = String::new(alloc);
            text.push_str(everywhere_text(relation))?;
            Ok(text)
        }
        Finding::Fails | Finding::Undecided => differences_text(alloc, relation, names, pieces),
    }
}

/// What is said where the relation holds on every call.
pub fn everywhere_text(relation: Relation) -> &'static str
    ensures text { result.now ≡ everywhere_text relation }
{
    match relation {
        Relation::Same => "the same on every call\n",
        Relation::AsStrict => "as strict on every call\n",
        Relation::Expected => "as expected on every call\n",
    }
}

/// The kinds of differences, in the order in which they are told.
#[derive(Clone, Copy, Debug, PartialEq, Eq)]
pub enum Kind {
    /// The new verdict is not as strict as the old one.
    Looser,
    /// The old verdict is not as strict as the new one.
    Stricter,
    /// Each verdict is as strict as the other, or the old one is an expectation.
    Other,
    /// Which verdicts come is not known.
    Undecided,
}

/// The differences of each kind below its heading. Those from expectations have none, and stand in the order of numbers. Calls have
/// the names and the records that they have on the architecture.
pub fn differences_text(
    alloc: Global,
    relation: Relation,
    names: Names,
    pieces: &[Piece],
) -> Result<String, AllocError>
    ensures text { IfOk result (λ text. string_bytes text ≡ differences_text relation names pieces.now) }
{
    let mut text = String::new(alloc);
    push_section(&mut text, relation, names, Kind::Looser, pieces)?;
    push_section(&mut text, relation, names, Kind::Stricter, pieces)?;
    push_section(&mut text, relation, names, Kind::Other, pieces)?;
    push_section(&mut text, relation, names, Kind::Undecided, pieces)?;
    Ok(text)
}

#[tactic(auto, unfolding(crate::specs::DiffText::section_text))]
fn push_section(
    text: &mut String,
    relation: Relation,
    names: Names,
    kind: Kind,
    pieces: &[Piece],
) -> Result<(), AllocError>
    ensures text { OnOk result (string_bytes text.new ≡ string_bytes text.old ++ section_text relation names pieces.now kind) }
{
    if !some_has(relation, kind, pieces) {
        return Ok(());
    }
    text.push_str(heading(relation, kind))?;
    push_all(text, relation, names, kind, pieces)
}

// The line above the differences of a kind.
fn heading(relation: Relation, kind: Kind) -> &'static str
    ensures heading { result.now ≡ heading relation kind }
{
    match relation {
        Relation::Same | Relation::AsStrict => kind_heading(kind),
        Relation::Expected => "",
    }
}

fn kind_heading(kind: Kind) -> &'static str
    ensures heading { result.now ≡ kind_heading kind }
{
    match kind {
        Kind::Looser => "looser:\n",
        Kind::Stricter => "stricter:\n",
        Kind::Other => "other:\n",
        Kind::Undecided => "undecided:\n",
    }
}

fn some_has(relation: Relation, kind: Kind, pieces: &[Piece]) -> bool
    ensures some { result ≡ some_has relation kind pieces.now }
{
    pieces
        .iter()
        .any(|piece| piece_has(relation, kind, &piece.parts))
}

fn piece_has(relation: Relation, kind: Kind, parts: &[Part]) -> bool
    ensures some { result ≡ list_any (has_kind relation kind) parts.now }
{
    parts.iter().any(|part| has_kind(relation, kind, part))
}

fn push_all(
    text: &mut String,
    relation: Relation,
    names: Names,
    kind: Kind,
    pieces: &[Piece],
) -> Result<(), AllocError>
    ensures text { OnOk result (string_bytes text.new ≡ string_bytes text.old ++ flat_map (piece_text relation names kind) pieces.now) }
{
    for piece in pieces {
        push_piece(text, relation, names, kind, piece)?;
    }
    Ok(())
}

#[tactic(auto, unfolding(crate::specs::DiffText::piece_text))]
fn push_piece(
    text: &mut String,
    relation: Relation,
    names: Names,
    kind: Kind,
    piece: &Piece,
) -> Result<(), AllocError>
    ensures text { OnOk result (string_bytes text.new ≡ string_bytes text.old ++ piece_text relation names kind piece.now) }
{
    push_parts(text, relation, names, kind, piece.numbers, &piece.parts)
}

fn push_parts(
    text: &mut String,
    relation: Relation,
    names: Names,
    kind: Kind,
    numbers: Numbers,
    parts: &[Part],
) -> Result<(), AllocError>
    ensures text { OnOk result (string_bytes text.new ≡ string_bytes text.old ++ flat_map (kind_text relation names kind numbers) parts.now) }
{
    for part in parts {
        push_part_of_kind(text, relation, names, kind, numbers, part)?;
    }
    Ok(())
}

#[tactic(auto, unfolding(crate::specs::DiffText::kind_text))]
fn push_part_of_kind(
    text: &mut String,
    relation: Relation,
    names: Names,
    kind: Kind,
    numbers: Numbers,
    part: &Part,
) -> Result<(), AllocError>
    ensures text { OnOk result (string_bytes text.new ≡ string_bytes text.old ++ kind_text relation names kind numbers part.now) }
{
    if !has_kind(relation, kind, part) {
        return Ok(());
    }
    push_part(text, relation, names, numbers, part)
}

fn has_kind(relation: Relation, kind: Kind, part: &Part) -> bool
    ensures has { result ≡ has_kind relation kind part.now }
{
    is_kind(kind_of(relation, part.outcome), kind)
}

/// The kind of a difference. Those from expectations are of none of their own.
pub fn kind_of(relation: Relation, outcome: Outcome) -> Kind
    ensures kind { result ≡ kind_of relation outcome }
{
    match (outcome, relation) {
        (Outcome::Undecided, _) => Kind::Undecided,
        (Outcome::Apart(pair, _), Relation::Same | Relation::AsStrict) => change_of(pair),
        (Outcome::Apart(_, _), Relation::Expected) => Kind::Other,
    }
}

fn change_of(it: Verdicts) -> Kind
    ensures change { result ≡ change_of it }
{
    if !stands(Relation::AsStrict, it.old, it.new) {
        Kind::Looser
    } else if !stands(Relation::AsStrict, it.new, it.old) {
        Kind::Stricter
    } else {
        Kind::Other
    }
}

fn is_kind(one: Kind, other: Kind) -> bool
    ensures same { result ≡ is_kind one other }
{
    match one {
        Kind::Looser => matches!(other, Kind::Looser),
        Kind::Stricter => matches!(other, Kind::Stricter),
        Kind::Other => matches!(other, Kind::Other),
        Kind::Undecided => matches!(other, Kind::Undecided),
    }
}

/// Adds one difference.
#[tactic(auto, unfolding(crate::specs::DiffText::part_text))]
pub fn push_part(
    text: &mut String,
    relation: Relation,
    names: Names,
    numbers: Numbers,
    part: &Part,
) -> Result<(), AllocError>
    ensures text { OnOk result (string_bytes text.new ≡ string_bytes text.old ++ part_text relation names numbers part.now) }
{
    let start = text.len();
    push_verdicts(text, relation, names.architecture, numbers, part.outcome)?;
    let column = text.len() - start;
    let call = constants_of(names, numbers.first, numbers.last);
    push_calls(text, call, column, &part.calls)?;
    text.push_str("\n")?;
    push_shown(text, names, part.outcome)
}

// The numbers and the verdicts.
fn push_verdicts(
    text: &mut String,
    relation: Relation,
    architecture: Architecture,
    numbers: Numbers,
    outcome: Outcome,
) -> Result<(), AllocError>
    ensures text { OnOk result (string_bytes text.new ≡ string_bytes text.old ++ verdicts_behind relation architecture numbers outcome) }
{
    push_head(text, architecture, numbers)?;
    text.push_str(": ")?;
    push_outcome(text, relation, outcome)
}

#[tactic(auto, unfolding(crate::specs::DiffText::verdicts_text))]
fn push_outcome(text: &mut String, relation: Relation, outcome: Outcome) -> Result<(), AllocError>
    ensures text { OnOk result (string_bytes text.new ≡ string_bytes text.old ++ outcome_text relation outcome) }
{
    match outcome {
        Outcome::Undecided => text.push_str("undecided"),
        Outcome::Apart(pair, _) => {
            push_old(text, relation, pair.old)?;
            text.push_str(" -> ")?;
            push_verdict(text, pair.new)
        }
    }
}

// The verdict of the old chain, or what it expects.
fn push_old(text: &mut String, relation: Relation, value: u32) -> Result<(), AllocError>
    ensures text { OnOk result (string_bytes text.new ≡ string_bytes text.old ++ old_text relation value) }
{
    match relation {
        Relation::Same | Relation::AsStrict => push_verdict(text, value),
        Relation::Expected => push_expected(text, value),
    }
}

fn push_expected(text: &mut String, value: u32) -> Result<(), AllocError>
    ensures text { OnOk result (string_bytes text.new ≡ string_bytes text.old ++ expected_text value) }
{
    text.push_str("expected ")?;
    match Expectation::of(value).name() {
        Some(name) => text.push_str(name),
        None => push_verdict(text, value),
    }
}

fn push_calls(
    text: &mut String,
    call: Option<u32>,
    column: usize,
    calls: &Calls,
) -> Result<(), AllocError>
    requires fits { column < 2 ^ 63 }
    ensures text { OnOk result (string_bytes text.new ≡ string_bytes text.old ++ calls_text call column calls.now) }
{
    match calls {
        Calls::Every => Ok(()),
        Calls::Meeting(line) => {
            text.push_str(" where ")?;
            push_filled(text, column + 7, call, line)
        }
    }
}

fn push_shown(text: &mut String, names: Names, outcome: Outcome) -> Result<(), AllocError>
    ensures text { OnOk result (string_bytes text.new ≡ string_bytes text.old ++ shown_text names outcome) }
{
    match outcome {
        Outcome::Undecided => Ok(()),
        Outcome::Apart(_, call) => push_record(text, names, call),
    }
}

#[tactic(auto, unfolding(crate::specs::DiffText::record_text))]
fn push_record(text: &mut String, names: Names, call: Record) -> Result<(), AllocError>
    ensures text { OnOk result (string_bytes text.new ≡ string_bytes text.old ++ record_text names call) }
{
    let there = Record {
        arch: names.architecture.audit(),
        ..call
    };
    let record = HexDigits::<128>::of(&there.bytes());
    write!(text, "  record {record}\n  ")?;
    push_call(text, names, call)?;
    text.push_str("\n")
}

/// Adds numbers, with the name that a single one has on the architecture.
#[tactic(auto, unfolding(crate::specs::DiffText::head_text))]
pub fn push_head(
    text: &mut String,
    architecture: Architecture,
    numbers: Numbers,
) -> Result<(), AllocError>
    ensures text { OnOk result (string_bytes text.new ≡ string_bytes text.old ++ head_text architecture numbers) }
{
    push_numbers(text, numbers.first, numbers.last)?;
    text.push_str(" ")?;
    text.push_str(name_of_numbers(architecture, numbers.first, numbers.last))
}

/// Adds a call, as syscall(2) makes it.
#[tactic(auto, unfolding(crate::specs::DiffText::call_text))]
pub fn push_call(text: &mut String, names: Names, call: Record) -> Result<(), AllocError>
    ensures text { OnOk result (string_bytes text.new ≡ string_bytes text.old ++ call_text names call) }
{
    text.push_str("syscall(")?;
    push_call_name(text, names.architecture, call.nr)?;
    let constants = call_with_constants(names.naming, names.architecture, call.nr);
    push_arguments(text, constants, &call.args)?;
    text.push_str(")")?;
    push_address(text, call.ip)
}

fn push_call_name(
    text: &mut String,
    architecture: Architecture,
    number: u32,
) -> Result<(), AllocError>
    ensures text { OnOk result (string_bytes text.new ≡ string_bytes text.old ++ call_name_text architecture number) }
{
    match name(architecture, number) {
        Some(name) => write!(text, "SYS_{name}"),
        None => write!(text, "{number}"),
    }
}

#[tactic(auto, unfolding(crate::specs::DiffText::arguments_text))]
fn push_arguments(text: &mut String, call: Option<u32>, args: &[u64; 6]) -> Result<(), AllocError>
    ensures text { OnOk result (string_bytes text.new ≡ string_bytes text.old ++ arguments_text call args.now) }
{
    push_argument(text, call, args, 0)?;
    push_argument(text, call, args, 1)?;
    push_argument(text, call, args, 2)?;
    push_argument(text, call, args, 3)?;
    push_argument(text, call, args, 4)?;
    push_argument(text, call, args, 5)
}

fn push_address(text: &mut String, address: u64) -> Result<(), AllocError>
    ensures text { OnOk result (string_bytes text.new ≡ string_bytes text.old ++ address_text address) }
{
    if address == 0 {
        return Ok(());
    }
    write!(text, " at 0x{address:x}")
}
