//! Which verdict gets the line `else`: the one whose lines are the longest to read. Whichever it is, the lines are exact.
ghost use Rattle.std.specs.Prelude.{◌≡◌, ◌<◌, ◌⊎◌, List, length, IfOk, IfSome, OnOk};
ghost use Rattle.std.specs.List.{All};
ghost use Rattle.sk_terms.specs.declared.lines.Line.{Line};
ghost use Rattle.sk_terms.specs.Lines.{IsValueOf};

use crate::lines::Line;
use crate::term::Term;
use sk_filter::preceding;
use std::alloc::{AllocError, Global};

/// The bits of the action in a value: SECCOMP_RET_ACTION_FULL of linux/seccomp.h.
const ACTION: u32 = 0xffff_0000;

/// How long the lines of one verdict are to read.
#[derive(Clone, Copy, Debug)]
struct Weight {
    value: Option<u32>,
    weight: u64,
}

/// The value whose lines are the longest to read: that of one of the lines, where there are some.
pub fn heaviest(alloc: Global, lines: &[Line]) -> Result<Option<u32>, AllocError>
    ensures found { IfOk result (λ value. 0 < length lines.now → IsValueOf lines.now value) }
{
    let mut weights: Vec<Weight> = Vec::new(alloc);
    for line in lines {
        add(&mut weights, line)?;
    }
    Ok(most_of(&weights))
}

// The value with the greatest weight.
fn most_of(weights: &[Weight]) -> Option<u32>
    ensures found { (lines : List Line) → All (λ weight. IsValueOf lines weight.value) weights.now → 0 < length weights.now → IsValueOf lines result }
{
    let Some((first, others)) = weights.split_first() else {
        return None;
    };
    let mut most = *first;
    for weight in others {
        most = heavier(most, *weight);
    }
    most.value
}

// One line more.
fn add(weights: &mut Vec<Weight>, line: &Line) -> Result<(), AllocError>
    ensures values { OnOk result ((lines : List Line) → All (λ weight. IsValueOf lines weight.value) weights.old.items → IsValueOf lines line.now.value
        → All (λ weight. IsValueOf lines weight.value) weights.new.items) }
    ensures some { OnOk result (0 < length weights.new.items) }
{
    let more = weight_of(line);
    let Some(at) = place_of(weights, line.value) else {
        weights.push(Weight {
            value: line.value,
            weight: more,
        })?;
        return Ok(());
    };
    let weight = weights[at];
    weights[at] = Weight {
        weight: weight.weight.saturating_add(more),
        ..weight
    };
    Ok(())
}

// Where the weight of a value stands.
fn place_of(weights: &[Weight], value: Option<u32>) -> Option<usize>
    ensures there { IfSome result (λ at. at < length weights.now) }
{
    weights.iter().position(|weight| weight.value == value)
}

// A term that leaves a range out is told by two ranges.
fn weight_of(line: &Line) -> u64 {
    let mut weight = 3u64;
    for choice in &line.choices {
        weight = weight.saturating_add(weight_of_terms(&choice.terms));
    }
    weight
}

fn weight_of_terms(terms: &[Term]) -> u64 {
    let mut weight = 0u64;
    for term in terms {
        let more = if term.inside { 1 } else { 2 };
        weight = weight.saturating_add(more);
    }
    weight
}

fn heavier(one: Weight, other: Weight) -> Weight
    ensures one { (result ≡ one) ⊎ (result ≡ other) }
{
    if one.weight < other.weight || one.weight == other.weight && precedes(other, one) {
        other
    } else {
        one
    }
}

// Whether a value stands before another one whose lines are as long, whichever comes first: that whose action takes precedence,
// and of one action that with the greater data.
fn precedes(one: Weight, other: Weight) -> bool {
    match (one.value, other.value) {
        (Some(value), Some(another)) if value & ACTION == another & ACTION => value > another,
        (Some(value), Some(another)) => preceding(Some(another), value) == Some(value),
        _ => false,
    }
}
