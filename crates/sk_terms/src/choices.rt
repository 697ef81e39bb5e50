//! Terms of which one has to hold: the ranges in which the number of some bits may lie.
ghost use Rattle.std.specs.Prelude.{◌≡◌, ◌<◌, ◌≤◌, ◌&&◌, ◌||◌, true, length, slice_index_or, IfOk, IfSome, IsTrue, OnOk};
ghost use Rattle.std.specs.List.{list_any};
ghost use Rattle.sk_insn.specs.declared.record.Record.{Record};
ghost use Rattle.sk_terms.specs.Terms.{holds_term, holds_joined};
ghost use Rattle.sk_terms.specs.Lines.{holds_choice, meets_choices, holds_one};

use crate::blocks::lifted;
use crate::joining::{Joined, both, either};
use crate::term::Term;
use std::alloc::{AllocError, Global};

/// Terms of which one has to hold.
#[derive(Drop)]
pub struct Choice {
    pub terms: Vec<Term>,
}

/// A place in a list of terms, and the term that holds where the one there does or another one.
#[derive(Clone, Copy, Debug)]
struct Neighbour {
    at: usize,
    joined: Term,
}

/// The ranges in which a term holds: where it leaves a range out, those below and above it.
pub fn ranges_of(alloc: Global, term: Term) -> Result<Choice, AllocError>
    ensures holds { IfOk result (λ choice. (call : Record) → holds_choice choice call ≡ holds_term term call) }
{
    let mut terms = Vec::new(alloc);
    if term.inside {
        terms.push(term)?;
        return Ok(Choice { terms });
    }
    if 0 < term.first {
        terms.push(Term {
            first: 0,
            last: term.first - 1,
            inside: true,
            ..term
        })?;
    }
    if term.last < term.mask {
        terms.push(Term {
            first: term.last + 1,
            last: term.mask,
            inside: true,
            ..term
        })?;
    }
    Ok(Choice { terms })
}

/// The ranges that lie in one of some terms and in one of others, if it is seen of each two.
pub fn within(alloc: Global, one: &[Term], other: &[Term]) -> Result<Option<Choice>, AllocError>
    ensures both { IfOk result (λ found. IfSome found (λ it. (call : Record) → holds_choice it call ≡ (holds_one one.now call && holds_one other.now call))) }
{
    let mut terms = Vec::new(alloc);
    for term in one {
        if !add_within(&mut terms, *term, other)? {
            return Ok(None);
        }
    }
    Ok(Some(Choice { terms }))
}

// Adds the ranges of one term that lie in one of others, unless it is not seen.
fn add_within(terms: &mut Vec<Term>, term: Term, others: &[Term]) -> Result<bool, AllocError>
    ensures added { IfOk result (λ seen. IsTrue seen → (call : Record) → holds_one terms.new.items call
        ≡ (holds_one terms.old.items call || (holds_term term call && holds_one others.now call))) }
{
    for other in others {
        let Some(joined) = both(term, *other) else {
            return Ok(false);
        };
        add_joined(terms, joined)?;
    }
    Ok(true)
}

fn add_joined(terms: &mut Vec<Term>, joined: Joined) -> Result<(), AllocError>
    ensures added { OnOk result ((call : Record) → holds_one terms.new.items call ≡ (holds_one terms.old.items call || holds_joined joined call)) }
{
    if let Joined::One(term) = joined {
        terms.push(term)?;
    }
    Ok(())
}

/// The ranges of both lists, on these bits where that can be.
pub fn united(alloc: Global, one: &[Term], other: &[Term], mask: u64) -> Result<Choice, AllocError>
    ensures either { IfOk result (λ it. (call : Record) → holds_choice it call ≡ (holds_one one.now call || holds_one other.now call)) }
{
    let mut both = on_bits(alloc, one, mask)?;
    for term in other {
        both = with_either(both.terms, on_bits_of(*term, mask))?;
    }
    Ok(both)
}

/// The same ranges on these bits, where that can be.
pub fn on_bits(alloc: Global, ranges: &[Term], mask: u64) -> Result<Choice, AllocError>
    ensures holds { IfOk result (λ it. (call : Record) → holds_choice it call ≡ holds_one ranges.now call) }
{
    let mut terms = Vec::with_capacity(alloc, ranges.len())?;
    for term in ranges {
        terms.push(on_bits_of(*term, mask))?;
    }
    Ok(Choice { terms })
}

// A term on these bits, where that can be.
fn on_bits_of(term: Term, mask: u64) -> Term
    ensures holds { (call : Record) → holds_term result call ≡ holds_term term call }
{
    lifted(term, mask).unwrap_or(term)
}

/// Whether all terms can be told on these bits.
pub fn can_be_on(choice: &Choice, mask: u64) -> bool {
    choice
        .terms
        .iter()
        .all(|term| term.inside && lifted(*term, mask).is_some())
}

/// Whether one of the terms holds on every call.
pub fn is_any(terms: &[Term]) -> bool
    ensures any { IsTrue result → (call : Record) → holds_one terms.now call ≡ true }
{
    for term in terms {
        if term.is_any() {
            return true;
        }
    }
    false
}

// One term more, put together with one that it is one term with.
fn with_either(terms: Vec<Term>, term: Term) -> Result<Choice, AllocError>
    ensures holds { IfOk result (λ choice. (call : Record) → holds_choice choice call ≡ (holds_one terms.items call || holds_term term call)) }
{
    let mut kept = terms;
    let Some(found) = next_to(&kept, term) else {
        kept.insert(place_of(&kept, term), term)?;
        return Ok(Choice { terms: kept });
    };
    let _other = kept.remove(found.at);
    with_either(kept, found.joined)
}

// The first of some terms that is one term with a term.
fn next_to(terms: &[Term], term: Term) -> Option<Neighbour>
    ensures there { IfSome result (λ found. found.at < length terms.now) }
    ensures either { IfSome result (λ found. (call : Record) → holds_term found.joined call ≡ (holds_term (slice_index_or terms.now found.at term) call || holds_term term call)) }
{
    for (at, other) in terms.iter().enumerate() {
        if are_apart(*other, term) {
            continue;
        }
        if let Some(joined) = either(*other, term) {
            return Some(Neighbour { at, joined });
        }
    }
    None
}

// Whether two ranges of the same bits do not touch: most of a long list do not.
fn are_apart(one: Term, other: Term) -> bool {
    one.mask == other.mask
        && one.inside
        && other.inside
        && (one.last.saturating_add(1) < other.first || other.last.saturating_add(1) < one.first)
}

// Where a term stands among others: they are in the order of the registers.
fn place_of(terms: &[Term], term: Term) -> usize
    ensures within { result ≤ length terms.now }
{
    for (at, other) in terms.iter().enumerate() {
        if term.precedes(other) {
            return at;
        }
    }
    terms.len()
}
