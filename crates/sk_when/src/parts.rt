//! The calls of some numbers on which the relation between the verdicts of two chains fails.
ghost use Rattle.std.specs.Prelude.{◌≡◌, ◌+◌, ◌*◌, ◌<◌, ◌≤◌, ◌||◌, true, false, length, IfOk, IfSome, IsSome, OnOk};
ghost use Rattle.std.specs.List.{All, list_any};
ghost use Rattle.std.specs.Option.{option_map_or};
ghost use Rattle.sk_insn.specs.declared.record.Record.{Record};
ghost use Rattle.sk_survey.specs.Answers.{IsCallOf};
ghost use Rattle.sk_filter.specs.Chains.{cost_of};
ghost use Rattle.sk_conditions.specs.Followed.{AreFollowed};
ghost use Rattle.sk_conditions.specs.declared.numbers.Numbers.{Numbers};
ghost use Rattle.sk_conditions.specs.Steps.{BothGoOneWay};
ghost use Rattle.sk_terms.specs.Lines.{meets_line, IsMetBy};
ghost use Rattle.sk_terms.specs.Numbers.{TellsNoWhole};
ghost use Rattle.sk_when.specs.Pieces.{AreDecided, Fails, Holds, HoldsPart, IsShown, Says, SaysOfLine, ShowsOf, TellNoWhole, is_decided, meets_calls};

use crate::piece::{Calls, Outcome, Part, Piece};
use crate::showing::shown_among;
use sk_conditions::{Budget, Comparing, Differences, Relation, Verdicts, differ, stands};
use sk_insn::Record;
use sk_terms::{LeftOut, Line, decide, lines_of};
use std::alloc::{AllocError, Global};

/// What the tree of differences tells of a call on which the relation holds. It counts the pairs of verdicts from 1.
const ALIKE: u32 = 0;

/// What an end of the tree of differences says.
#[derive(Clone, Copy, Debug)]
pub enum Said {
    /// The relation holds.
    Alike,
    /// These are the verdicts, and it fails.
    Apart(Verdicts),
    /// Nothing.
    Unknown,
}

/// Compares two chains on the calls of some numbers.
pub fn piece_of(
    alloc: Global,
    chains: Comparing<'_>,
    budget: &mut Budget,
) -> Result<Piece, AllocError>
    requires range { chains.numbers.first ≤ chains.numbers.last }
    ensures numbers { IfOk result (λ piece. piece.numbers ≡ chains.entry.numbers) }
    ensures holds { IfOk result (Holds chains.entry.relation chains.entry.old.now chains.entry.new.now) }

    // Where the filters are followed and steps are left, each part of the piece is decided.
    ensures decided { IfOk result (λ piece. All AreFollowed chains.entry.old.now → All AreFollowed chains.entry.new.now → 0 < budget.new.steps → AreDecided piece) }

    // Where all calls go one way through each filter, it takes no more steps than to compare them, and to look at one call.
    ensures one_way { BothGoOneWay chains.entry
        → budget.old.steps ≤ budget.new.steps + (cost_of chains.entry.old.now + cost_of chains.entry.new.now + 65) }
{
    let differences = differ(alloc, chains, budget)?;
    let decision = decide(alloc, &differences.tree)?;
    let lines = lines_of(alloc, &decision, LeftOut::End(Some(ALIKE)))?;
    let parts = parts_of(alloc, chains, lines, &differences, budget)?;
    Ok(Piece {
        numbers: chains.numbers,
        parts,
    })
}

// The parts of lines that tell how the verdicts differ.
fn parts_of(
    alloc: Global,
    chains: Comparing<'_>,
    lines: Vec<Line>,
    differences: &Differences,
    budget: &mut Budget,
) -> Result<Vec<Part>, AllocError>
    requires say { All (SaysOfLine chains differences.now.pairs.items) lines.items }
    requires numbers { All (TellsNoWhole chains.numbers.first chains.numbers.last) lines.items }
    requires within { All (IsCallOf chains.numbers.first chains.numbers.last) differences.now.calls.items }
    ensures hold { IfOk result (λ parts. All (HoldsPart chains.entry) parts.items) }
    ensures cover { IfOk result (λ parts. (call : Record) → Fails chains.entry call → list_any (λ line. meets_line line call) lines.items ≡ true
        → list_any (λ part. meets_calls part.calls call) parts.items ≡ true) }
    ensures decided { IfOk result (λ parts. All (IsMetBy differences.now.calls.items) lines.items → All (λ line. IsSome line.value) lines.items
        → 0 < budget.new.steps → All IsShown parts.items) }
    ensures left { budget.new.steps ≤ budget.old.steps }
    ensures few { length lines.items ≤ 1 → budget.old.steps ≤ budget.new.steps + 64 * length differences.now.calls.items }
{
    let mut parts = Vec::with_capacity(alloc, lines.len())?;
    let mut from = 0;
    for line in lines {
        add_part(&mut parts, chains, line, differences, &mut from, budget)?;
    }
    Ok(parts)
}

// Adds the part of a line, unless the relation holds on the calls that meet it.
fn add_part(
    parts: &mut Vec<Part>,
    chains: Comparing<'_>,
    line: Line,
    differences: &Differences,
    from: &mut usize,
    budget: &mut Budget,
) -> Result<(), AllocError>
    requires says { SaysOfLine chains differences.now.pairs.items line }
    requires numbers { TellsNoWhole chains.numbers.first chains.numbers.last line }
    requires within { All (IsCallOf chains.numbers.first chains.numbers.last) differences.now.calls.items }
    ensures hold { OnOk result (All (HoldsPart chains.entry) parts.old.items → All (HoldsPart chains.entry) parts.new.items) }
    ensures cover { OnOk result ((call : Record) → Fails chains.entry call
        → (list_any (λ part. meets_calls part.calls call) parts.old.items || meets_line line call) ≡ true
        → list_any (λ part. meets_calls part.calls call) parts.new.items ≡ true) }
    ensures decided { OnOk result (IsMetBy differences.now.calls.items line → IsSome line.value → 0 < budget.new.steps
        → All IsShown parts.old.items → All IsShown parts.new.items) }
    ensures left { budget.new.steps ≤ budget.old.steps }
    ensures few { budget.old.steps ≤ budget.new.steps + 64 * length differences.now.calls.items }
{
    let Some(part) = part_of(chains, line, differences, from, budget) else {
        return Ok(());
    };
    parts.push(part)?;
    Ok(())
}

// The part of a line, unless the relation holds on the calls that meet it.
fn part_of(
    chains: Comparing<'_>,
    line: Line,
    differences: &Differences,
    from: &mut usize,
    budget: &mut Budget,
) -> Option<Part>
    requires says { SaysOfLine chains differences.now.pairs.items line }
    requires numbers { TellsNoWhole chains.numbers.first chains.numbers.last line }
    requires within { All (IsCallOf chains.numbers.first chains.numbers.last) differences.now.calls.items }
    ensures holds { IfSome result (HoldsPart chains.entry) }
    ensures cover { (call : Record) → Fails chains.entry call → meets_line line call ≡ true
        → option_map_or (λ part. meets_calls part.calls call) result false ≡ true }
    ensures decided { IsMetBy differences.now.calls.items line → IsSome line.value → 0 < budget.new.steps → IfSome result IsShown }
    ensures left { budget.new.steps ≤ budget.old.steps }
    ensures few { budget.old.steps ≤ budget.new.steps + 64 * length differences.now.calls.items }
{
    match end_says(chains.relation, &differences.pairs, line.value) {
        Said::Alike => None,
        Said::Unknown => Some(Part {
            calls: calls_of(line),
            outcome: Outcome::Undecided,
        }),
        Said::Apart(pair) => {
            let outcome = shown(pair, &line, &differences.calls, from, budget);
            Some(Part {
                calls: calls_of(line),
                outcome,
            })
        }
    }
}

// The calls that meet a line: one without a condition is met by each.
fn calls_of(line: Line) -> Calls
    ensures meets { (call : Record) → meets_calls result call ≡ meets_line line call }
    ensures numbers { (numbers : Numbers) → TellsNoWhole numbers.first numbers.last line → TellNoWhole numbers result }
{
    if line.choices.is_empty() {
        Calls::Every
    } else {
        Calls::Meeting(line)
    }
}

// What an end of the tree of differences with this number says.
fn end_says(relation: Relation, pairs: &[Verdicts], number: Option<u32>) -> Said
    ensures says { Says relation pairs.now number result }
{
    let Some(number) = number else {
        return Said::Unknown;
    };
    let Some(index) = number.checked_sub(1) else {
        return Said::Alike;
    };
    let Some(pair) = pairs.get(index as usize) else {
        return Said::Unknown;
    };
    if stands(relation, pair.old, pair.new) {
        return Said::Alike;
    }
    Said::Apart(*pair)
}

// These verdicts, with one of some calls that meets a line.
fn shown(
    pair: Verdicts,
    line: &Line,
    calls: &[Record],
    from: &mut usize,
    budget: &mut Budget,
) -> Outcome
    ensures shown { ShowsOf line.now calls.now pair result }
    ensures found { IsMetBy calls.now line.now → 0 < budget.new.steps → is_decided result ≡ true }
    ensures left { budget.new.steps ≤ budget.old.steps }
    ensures few { budget.old.steps ≤ budget.new.steps + 64 * length calls.now }
{
    match shown_among(line, calls, from, budget) {
        Some(call) => Outcome::Apart(pair, call),
        None => Outcome::Undecided,
    }
}
