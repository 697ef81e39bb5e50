//! Lines of one value that differ in one choice, told as one line.
ghost use Rattle.std.specs.Prelude.{◌≡◌, ◌≤◌, ◌<◌, ◌+◌, ◌++◌, ◌||◌, List, length, slice_index_or, IfOk, OnOk, IfSome, IsTrue};
ghost use Rattle.std.specs.List.{All, remove};
ghost use Rattle.sk_insn.specs.declared.record.Record.{Record};
ghost use Rattle.sk_terms.specs.Lines.{holds_choice, meets_choices, meets_line, told_by, told_alone, IsMetBy, MeetAlike};
ghost use Rattle.sk_terms.specs.Merging.{DifferIn};

use crate::choices::{Choice, can_be_on, is_any, united};
use crate::lines::Line;
use crate::term::{REGISTERS, Register, Term};
use std::alloc::{AllocError, Global};

/// How many lines back one is looked for that differs in one choice.
const MOST_BACK: usize = 128;

/// A place in a list of lines, and the one choice in which the line there differs from another one.
#[derive(Clone, Copy, Debug)]
struct Partner {
    at: usize,
    choice: usize,
}

/// Lines of which each call meets one at most, those of one value put together that differ in one register alone.
pub fn merged(alloc: Global, lines: Vec<Line>) -> Result<Vec<Line>, AllocError>
    ensures told { IfOk result (λ merged. (call : Record) → length (told_by lines.items call) ≤ 1 → told_by merged.items call ≡ told_by lines.items call) }
    ensures met { IfOk result (λ merged. (calls : List Record) → All (IsMetBy calls) lines.items → All (IsMetBy calls) merged.items) }
    ensures alike { IfOk result (λ merged. (one other : Record) → All (MeetAlike one other) lines.items → All (MeetAlike one other) merged.items) }
{
    let before = lines.len();
    let fewer = merged_once(alloc, lines)?;
    if fewer.len() < before {
        return merged(alloc, fewer);
    }
    Ok(fewer)
}

// The same, each register looked at once, the last one first.
fn merged_once(alloc: Global, lines: Vec<Line>) -> Result<Vec<Line>, AllocError>
    ensures told { IfOk result (λ merged. (call : Record) → length (told_by lines.items call) ≤ 1 → told_by merged.items call ≡ told_by lines.items call) }
    ensures met { IfOk result (λ merged. (calls : List Record) → All (IsMetBy calls) lines.items → All (IsMetBy calls) merged.items) }
    ensures alike { IfOk result (λ merged. (one other : Record) → All (MeetAlike one other) lines.items → All (MeetAlike one other) merged.items) }
{
    let mut merged = lines;
    for register in REGISTERS {
        merged = merged_in(alloc, merged, register)?;
    }
    Ok(merged)
}

// The same of lines that differ in this register.
fn merged_in(alloc: Global, lines: Vec<Line>, register: Register) -> Result<Vec<Line>, AllocError>
    ensures told { IfOk result (λ merged. (call : Record) → length (told_by lines.items call) ≤ 1 → told_by merged.items call ≡ told_by lines.items call) }
    ensures met { IfOk result (λ merged. (calls : List Record) → All (IsMetBy calls) lines.items → All (IsMetBy calls) merged.items) }
    ensures alike { IfOk result (λ merged. (one other : Record) → All (MeetAlike one other) lines.items → All (MeetAlike one other) merged.items) }
{
    let mut merged = Vec::with_capacity(alloc, lines.len())?;
    for line in lines {
        add(alloc, &mut merged, line, register)?;
    }
    Ok(merged)
}

// Adds a line that no call meets which meets one of the others.
fn add(
    alloc: Global,
    lines: &mut Vec<Line>,
    line: Line,
    register: Register,
) -> Result<(), AllocError>
    ensures told { OnOk result ((call : Record) → length (told_by lines.old.items call ++ told_alone line call) ≤ 1
        → told_by lines.new.items call ≡ told_by lines.old.items call ++ told_alone line call) }
    ensures met { OnOk result ((calls : List Record) → All (IsMetBy calls) lines.old.items → IsMetBy calls line → All (IsMetBy calls) lines.new.items) }
    ensures alike { OnOk result ((one other : Record) → All (MeetAlike one other) lines.old.items → MeetAlike one other line
        → All (MeetAlike one other) lines.new.items) }
{
    let Some(partner) = partner_of(lines, &line, register) else {
        lines.push(line)?;
        return Ok(());
    };
    let other = lines.remove(partner.at);
    let both = together(alloc, other, line, partner.choice)?;
    lines.push(both)?;
    Ok(())
}

// A line that is met where one of two is which differ in one choice.
fn together(alloc: Global, one: Line, other: Line, at: usize) -> Result<Line, AllocError>
    requires differ { DifferIn one other at }
    ensures value { IfOk result (λ both. both.value ≡ one.value) }
    ensures met { IfOk result (λ both. (call : Record) → meets_line both call ≡ (meets_line one call || meets_line other call)) }
{
    let Line { value, mut choices } = one;
    let choice = choices.remove(at);
    let another = &other.choices[at];
    let bits = bits_of(&choice) | bits_of(another);
    let both = united(alloc, &choice.terms, &another.terms, bits)?;
    if is_any(&both.terms) {
        return Ok(Line { value, choices });
    }
    choices.insert(at, both)?;
    Ok(Line { value, choices })
}

// All bits of which one of the terms tells something.
fn bits_of(choice: &Choice) -> u64 {
    choice.terms.iter().fold(0, |bits, term| bits | term.mask)
}

// A line that differs in this register alone, among the last ones.
fn partner_of(lines: &[Line], line: &Line, register: Register) -> Option<Partner>
    ensures there { IfSome result (λ partner. partner.at < length lines.now) }
    ensures differ { IfSome result (λ partner. DifferIn (slice_index_or lines.now partner.at line.now) line.now partner.choice) }
{
    let choice = line
        .choices
        .iter()
        .position(|choice| is_on(choice, register))?;
    for at in lines.len().saturating_sub(MOST_BACK)..lines.len() {
        if differ_in(&lines[at], line, choice) {
            return Some(Partner { at, choice });
        }
    }
    None
}

// Whether two lines of one value differ in one choice alone, and all ranges of both can be told on the same bits.
fn differ_in(one: &Line, other: &Line, at: usize) -> bool
    ensures differ { IsTrue result → DifferIn one.now other.now at }
{
    let choices = one.choices.as_slice();
    let others = other.choices.as_slice();
    if !same_value(one.value, other.value) || at >= choices.len().min(others.len()) {
        return false;
    }
    if !same_choices(&choices[..at], &others[..at]) {
        return false;
    }
    if !same_choices(&choices[at + 1..], &others[at + 1..]) {
        return false;
    }
    have_form(&choices[at], &others[at])
}

// Whether all ranges of two choices can be told on the same bits of one register.
fn have_form(one: &Choice, other: &Choice) -> bool {
    let Some(term) = one.terms.first() else {
        return false;
    };
    let bits = bits_of(one) | bits_of(other);
    is_on(other, term.register) && can_be_on(one, bits) && can_be_on(other, bits)
}

fn is_on(choice: &Choice, register: Register) -> bool {
    match choice.terms.first() {
        Some(term) => term.register == register,
        None => false,
    }
}

fn same_value(one: Option<u32>, other: Option<u32>) -> bool
    ensures same { IsTrue result → one ≡ other }
{
    match (one, other) {
        (None, None) => true,
        (Some(value), Some(another)) => value == another,
        _ => false,
    }
}

fn same_choices(one: &[Choice], other: &[Choice]) -> bool
    ensures same { IsTrue result → (call : Record) → meets_choices one.now call ≡ meets_choices other.now call }
{
    match (one.split_first(), other.split_first()) {
        (None, None) => true,
        (Some((choice, left)), Some((another, rest))) => {
            same_terms(&choice.terms, &another.terms) && same_choices(left, rest)
        }
        _ => false,
    }
}

fn same_terms(one: &[Term], other: &[Term]) -> bool
    ensures same { IsTrue result → one.now ≡ other.now }
{
    one.len() == other.len() && same_from_start(one, other)
}

fn same_from_start(one: &[Term], other: &[Term]) -> bool
    ensures same { IsTrue result → one.now ≡ other.now }
{
    match (one.split_first(), other.split_first()) {
        (None, None) => true,
        (Some((term, left)), Some((another, rest))) => *term == *another
            && same_from_start(left, rest),
        _ => false,
    }
}
