//! The ends of a tree of terms, each with the terms on the way.
ghost use Rattle.std.specs.Prelude.{ℕ, true, ◌≡◌, ◌<◌, ◌++◌, if◌then◌else◌, List, [], ◌∷◌, length, filter, IfOk, OnOk};
ghost use Rattle.std.specs.List.{All};
ghost use Rattle.sk_insn.specs.declared.record.Record.{Record};
ghost use Rattle.sk_terms.specs.Decisions.{decided, EachEndIsMetBy, GoTogether};
ghost use Rattle.sk_terms.specs.Lines.{meets_choices, meets_clause, told_by, shown, same_end, IsMetBy, MeetAlike};
ghost use Rattle.sk_terms.specs.Numbers.{HasNumber, TellsNoWhole};

use crate::choices::Choice;
use crate::clause::{Clause, with_other_term, with_term};
use crate::decision::Decision;
use crate::forms::{settled, written};
use crate::merging::merged;
use std::alloc::{AllocError, Global};

/// A value, or none where it is not told, and the condition under which it comes: of each choice one term holds.
#[derive(Drop)]
pub struct Line {
    pub value: Option<u32>,
    pub choices: Vec<Choice>,
}

/// Which ends of a tree get no line.
#[derive(Clone, Copy, Debug)]
pub enum LeftOut {
    /// None of them.
    Nothing,
    /// Those with this value.
    End(Option<u32>),
}

/// The lines of a tree, those put together that differ in one choice.
pub fn lines_of(
    alloc: Global,
    decision: &Decision,
    left_out: LeftOut,
) -> Result<Vec<Line>, AllocError>
    ensures told { IfOk result (λ lines. (call : Record) → told_by lines.items call ≡ shown left_out (decided decision.now call)) }
    ensures met { IfOk result (λ lines. (calls : List Record) → EachEndIsMetBy calls decision.now → All (IsMetBy calls) lines.items) }
    ensures numbers { IfOk result (λ lines. (first last : ℕ) (calls : List Record) → All (HasNumber first last) calls → EachEndIsMetBy calls decision.now
        → All (TellsNoWhole first last) lines.items) }
{
    let mut lines = Vec::new(alloc);
    let every = Clause::All(Vec::new(alloc));
    add_lines(alloc, decision, every, left_out, &mut lines)?;
    let merged = merged(alloc, lines)?;
    all_written(alloc, merged)
}

fn all_written(alloc: Global, lines: Vec<Line>) -> Result<Vec<Line>, AllocError>
    ensures told { IfOk result (λ written. (call : Record) → told_by written.items call ≡ told_by lines.items call) }
    ensures met { IfOk result (λ written. (calls : List Record) → All (IsMetBy calls) lines.items → All (IsMetBy calls) written.items) }
    ensures alike { IfOk result (λ written. (one other : Record) → All (MeetAlike one other) lines.items → All (MeetAlike one other) written.items) }
{
    let mut all = Vec::with_capacity(alloc, lines.len())?;
    for line in lines {
        let told = written(alloc, line)?;
        all.push(told)?;
    }
    Ok(all)
}

/// Adds the lines of a tree, for the calls that meet a clause.
pub fn add_lines(
    alloc: Global,
    decision: &Decision,
    clause: Clause,
    left_out: LeftOut,
    lines: &mut Vec<Line>,
) -> Result<(), AllocError>
    ensures told { OnOk result ((call : Record) → told_by lines.new.items call
        ≡ told_by lines.old.items call ++ (if meets_clause clause call then shown left_out (decided decision.now call) else [])) }
    ensures met { OnOk result ((calls : List Record) → EachEndIsMetBy (filter (λ call. meets_clause clause call) calls) decision.now
        → All (IsMetBy calls) lines.old.items → All (IsMetBy calls) lines.new.items) }
    ensures alike { OnOk result ((one other : Record) → meets_clause clause one ≡ meets_clause clause other
        → (meets_clause clause one ≡ true → GoTogether decision.now one other)
        → All (MeetAlike one other) lines.old.items → All (MeetAlike one other) lines.new.items) }
{
    let Clause::All(choices) = clause else {
        return Ok(());
    };
    match decision {
        Decision::Is(value) => add_end(alloc, lines, left_out, Some(*value), choices),
        Decision::Untold => add_end(alloc, lines, left_out, None, choices),
        Decision::Ask(term, held, failed) => {
            let yes = with_other_term(alloc, &choices, *term)?;
            add_lines(alloc, held, yes, left_out, lines)?;
            let no = with_term(alloc, choices, term.negated())?;
            let otherwise: &Decision = failed;
            add_lines(alloc, otherwise, no, left_out, lines)
        }
    }
}

fn add_end(
    alloc: Global,
    lines: &mut Vec<Line>,
    left_out: LeftOut,
    value: Option<u32>,
    choices: Vec<Choice>,
) -> Result<(), AllocError>
    ensures told { OnOk result ((call : Record) → told_by lines.new.items call
        ≡ told_by lines.old.items call ++ (if meets_choices choices.items call then shown left_out value else [])) }
    ensures met { OnOk result ((calls : List Record) → 0 < length (filter (λ call. meets_choices choices.items call) calls)
        → All (IsMetBy calls) lines.old.items → All (IsMetBy calls) lines.new.items) }
    ensures alike { OnOk result ((one other : Record) → meets_choices choices.items one ≡ meets_choices choices.items other
        → All (MeetAlike one other) lines.old.items → All (MeetAlike one other) lines.new.items) }
{
    if is_left_out(left_out, value) {
        return Ok(());
    }
    let choices = settled(alloc, choices)?;
    lines.push(Line { value, choices })?;
    Ok(())
}

// Whether an end with this value gets no line.
fn is_left_out(left_out: LeftOut, value: Option<u32>) -> bool
    ensures shown { shown left_out value ≡ if result then [] else value ∷ [] }
{
    match left_out {
        LeftOut::Nothing => false,
        LeftOut::End(otherwise) => same_end(value, otherwise),
    }
}

fn same_end(value: Option<u32>, other: Option<u32>) -> bool
    ensures same { result ≡ same_end value other }
{
    match (value, other) {
        (None, None) => true,
        (Some(value), Some(other)) => value == other,
        _ => false,
    }
}
