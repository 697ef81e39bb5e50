//! The form in which a condition is kept, and the one in which it is told.
ghost use Rattle.std.specs.Prelude.{◌≡◌, ◌&&◌, not, IfOk, IfSome, OnOk};
ghost use Rattle.std.specs.List.{All};
ghost use Rattle.sk_insn.specs.declared.record.Record.{Record};
ghost use Rattle.sk_terms.specs.Terms.{holds_term};
ghost use Rattle.sk_terms.specs.Lines.{holds_choice, holds_one, meets_choices, meets_line, told_by, IsMetBy};

use crate::choices::{Choice, can_be_on, is_any, on_bits, ranges_of, within};
use crate::lines::Line;
use crate::term::Term;
use crate::text::all_bits;
use std::alloc::{AllocError, Global};

/// How many ranges a choice may have of which it is looked whether it is shorter to tell what they leave out.
const MOST_RANGES: usize = 64;

/// Each choice on all bits of its register, or of the lower half, where it can be told on them; what always holds is left out.
pub fn settled(alloc: Global, choices: Vec<Choice>) -> Result<Vec<Choice>, AllocError>
    ensures meets { IfOk result (λ settled. (call : Record) → meets_choices settled.items call ≡ meets_choices choices.items call) }
{
    let mut settled = Vec::with_capacity(alloc, choices.len())?;
    for choice in choices {
        add_settled(alloc, &mut settled, choice)?;
    }
    Ok(settled)
}

fn add_settled(alloc: Global, choices: &mut Vec<Choice>, choice: Choice) -> Result<(), AllocError>
    ensures meets { OnOk result ((call : Record) → meets_choices choices.new.items call ≡ (meets_choices choices.old.items call && holds_choice choice call)) }
{
    if !is_any(&choice.terms) {
        let bits = widest(&choice);
        choices.push(on_bits(alloc, &choice.terms, bits)?)?;
    }
    Ok(())
}

// All bits of the register, or of the lower half, where the terms can be told on them.
fn widest(choice: &Choice) -> u64 {
    let Some(term) = choice.terms.first() else {
        return 0;
    };
    let all = all_bits(term.register);
    if can_be_on(choice, all) {
        return all;
    }
    let low = u64::from(u32::MAX);
    if can_be_on(choice, low) {
        low
    } else {
        term.mask
    }
}

/// A line whose choices are told by what they leave out, where that is shorter.
pub fn written(alloc: Global, line: Line) -> Result<Line, AllocError>
    ensures value { IfOk result (λ written. written.value ≡ line.value) }
    ensures met { IfOk result (λ written. (call : Record) → meets_line written call ≡ meets_line line call) }
{
    let Line { value, choices } = line;
    let mut written = Vec::with_capacity(alloc, choices.len())?;
    for choice in choices {
        add_written(alloc, &mut written, choice)?;
    }
    Ok(Line {
        value,
        choices: written,
    })
}

fn add_written(alloc: Global, choices: &mut Vec<Choice>, choice: Choice) -> Result<(), AllocError>
    ensures meets { OnOk result ((call : Record) → meets_choices choices.new.items call ≡ (meets_choices choices.old.items call && holds_choice choice call)) }
{
    if choice.terms.len() <= MOST_RANGES {
        if let Some(holes) = left_out(alloc, &choice.terms)? {
            if effort(&holes.terms) < effort(&choice.terms) {
                return add_others(alloc, choices, &holes.terms);
            }
        }
    }
    choices.push(choice)?;
    Ok(())
}

// Adds that none of these terms holds.
fn add_others(alloc: Global, choices: &mut Vec<Choice>, terms: &[Term]) -> Result<(), AllocError>
    ensures meets { OnOk result ((call : Record) → meets_choices choices.new.items call ≡ (meets_choices choices.old.items call && not (holds_one terms.now call))) }
{
    for term in terms {
        let choice = only(alloc, term.negated())?;
        choices.push(choice)?;
    }
    Ok(())
}

// Of one term, which has to hold.
fn only(alloc: Global, term: Term) -> Result<Choice, AllocError>
    ensures holds { IfOk result (λ choice. (call : Record) → holds_choice choice call ≡ holds_term term call) }
{
    let mut terms = Vec::new(alloc);
    terms.push(term)?;
    Ok(Choice { terms })
}

// The ranges that a choice leaves out, if they are seen.
fn left_out(alloc: Global, terms: &[Term]) -> Result<Option<Choice>, AllocError>
    ensures none { IfOk result (λ found. IfSome found (λ it. (call : Record) → holds_choice it call ≡ not (holds_one terms.now call))) }
{
    let Some(first) = terms.first() else {
        return Ok(None);
    };
    let mut left = ranges_of(alloc, first.any())?;
    for term in terms {
        let beside = ranges_of(alloc, term.negated())?;
        let within_both = within(alloc, &left.terms, &beside.terms)?;
        let Some(fewer) = within_both else {
            return Ok(None);
        };
        left = fewer;
    }
    Ok(Some(left))
}

// How much there is to read where these ranges are told, or what they leave out: a bound reads harder than one number.
fn effort(terms: &[Term]) -> u32 {
    let mut effort = 0u32;
    for term in terms {
        effort = effort.saturating_add(effort_of(*term));
    }
    effort
}

fn effort_of(term: Term) -> u32 {
    if term.first == term.last {
        1
    } else if term.first == 0 || term.mask <= term.last {
        2
    } else {
        4
    }
}
