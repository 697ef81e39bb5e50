//! What has to hold on the way to an end of a tree.
ghost use Rattle.std.specs.Prelude.{◌≡◌, ◌<◌, ◌≤◌, ◌&&◌, length, slice_index_or, IfOk, IfSome};
ghost use Rattle.sk_insn.specs.declared.record.Record.{Record};
ghost use Rattle.sk_terms.specs.Terms.{holds_term};
ghost use Rattle.sk_terms.specs.Lines.{holds_choice, meets_choices, meets_clause};

use crate::choices::{Choice, ranges_of, within};
use crate::term::Term;
use std::alloc::{AllocError, Global};

/// Choices of each of which one term has to hold.
#[derive(Drop)]
pub enum Clause {
    /// No call meets them.
    Never,
    /// These.
    All(Vec<Choice>),
}

/// A place in a list of choices, and the choice that holds where the one there and another one do.
#[derive(Drop)]
struct Found {
    at: usize,
    joined: Choice,
}

/// One term more.
pub fn with_term(alloc: Global, choices: Vec<Choice>, term: Term) -> Result<Clause, AllocError>
    ensures meets { IfOk result (λ clause. (call : Record) → meets_clause clause call ≡ (meets_choices choices.items call && holds_term term call)) }
{
    let ranges = ranges_of(alloc, term)?;
    with_choice(alloc, choices, ranges)
}

/// The same of a copy.
pub fn with_other_term(alloc: Global, choices: &[Choice], term: Term) -> Result<Clause, AllocError>
    ensures meets { IfOk result (λ clause. (call : Record) → meets_clause clause call ≡ (meets_choices choices.now call && holds_term term call)) }
{
    let mut copy = Vec::with_capacity(alloc, choices.len())?;
    for choice in choices {
        copy.push(copy_of(alloc, &choice.terms)?)?;
    }
    with_term(alloc, copy, term)
}

// The same terms.
fn copy_of(alloc: Global, terms: &[Term]) -> Result<Choice, AllocError>
    ensures same { IfOk result (λ copy. copy.terms.items ≡ terms.now) }
{
    let mut copy = Vec::with_capacity(alloc, terms.len())?;
    copy.extend_from_slice(terms)?;
    Ok(Choice { terms: copy })
}

// One choice more, put together with those that it is one choice with.
fn with_choice(alloc: Global, choices: Vec<Choice>, choice: Choice) -> Result<Clause, AllocError>
    ensures meets { IfOk result (λ clause. (call : Record) → meets_clause clause call ≡ (meets_choices choices.items call && holds_choice choice call)) }
{
    if choice.terms.is_empty() {
        return Ok(Clause::Never);
    }
    let mut kept = choices;
    let partner = joining(alloc, &kept, &choice)?;
    let Some(found) = partner else {
        kept.insert(place_of(&kept, &choice), choice)?;
        return Ok(Clause::All(kept));
    };
    let _other = kept.remove(found.at);
    with_choice(alloc, kept, found.joined)
}

// The first of some choices that is one choice with another one.
fn joining(alloc: Global, choices: &[Choice], choice: &Choice) -> Result<Option<Found>, AllocError>
    ensures there { IfOk result (λ found. IfSome found (λ it. it.at < length choices.now)) }
    ensures both { IfOk result (λ found. IfSome found (λ it. (call : Record) → holds_choice it.joined call
        ≡ (holds_choice (slice_index_or choices.now it.at choice.now) call && holds_choice choice.now call))) }
{
    for (at, other) in choices.iter().enumerate() {
        if let Some(joined) = within(alloc, &other.terms, &choice.terms)? {
            return Ok(Some(Found { at, joined }));
        }
    }
    Ok(None)
}

// Where a choice stands among others: they are in the order of the registers.
fn place_of(choices: &[Choice], choice: &Choice) -> usize
    ensures within { result ≤ length choices.now }
{
    for (at, other) in choices.iter().enumerate() {
        if precedes(&choice.terms, &other.terms) {
            return at;
        }
    }
    choices.len()
}

fn precedes(one: &[Term], other: &[Term]) -> bool {
    match (one.first(), other.first()) {
        (Some(term), Some(another)) => term.precedes(another),
        _ => false,
    }
}
