//! A tree of terms, in which neighbouring terms are put together.
ghost use Rattle.std.specs.Prelude.{◌≡◌, ℕ, not, if◌then◌else◌, List, filter, IfOk, IsTrue};
ghost use Rattle.std.specs.List.{All};
ghost use Rattle.sk_insn.specs.declared.record.Record.{Record};
ghost use Rattle.sk_insn.specs.Record.{IsNative};
ghost use Rattle.sk_terms.specs.Terms.{holds_term};
ghost use Rattle.sk_conditions.specs.Followed.{TellsAll};
ghost use Rattle.sk_conditions.specs.Meeting.{EachEndIsMet};
ghost use Rattle.sk_terms.specs.Decisions.{decided, decided_branching, DecidesAs, DecidesAll, BranchesAll, EachEndIsMetBy, EachBranchIsMetBy};

use crate::joining::{as_one, either};
use crate::meaning::{Meant, mean};
use crate::term::Term;
use sk_conditions::Tree;
use std::alloc::{AllocError, Global};

/// A value that depends on terms.
#[derive(Drop)]
pub enum Decision {
    /// This value.
    Is(u32),
    /// It is not told.
    Untold,
    /// That of the first tree where the term holds, else that of the second.
    Ask(Term, Box<Decision>, Box<Decision>),
}

/// A tree that begins with a term.
#[derive(Drop)]
struct Branching {
    term: Term,
    held: Box<Decision>,
    failed: Box<Decision>,
}

impl Branching {
    // The same as a tree.
    fn whole(self) -> Decision
        ensures same { (call : Record) → decided result call ≡ decided_branching self call }
        ensures all { BranchesAll self → DecidesAll result }
        ensures met { (calls : List Record) → EachBranchIsMetBy calls self → EachEndIsMetBy calls result }
    {
        Decision::Ask(self.term, self.held, self.failed)
    }
}

/// A tree of tests as one of terms.
pub fn decide(alloc: Global, tree: &Tree) -> Result<Decision, AllocError>
    ensures decides { IfOk result (λ decision. DecidesAs decision tree.now) }
    ensures all { IfOk result (λ decision. TellsAll tree.now → DecidesAll decision) }
    ensures met { IfOk result (λ decision. (calls : List Record) → All IsNative calls → EachEndIsMet calls tree.now → EachEndIsMetBy calls decision) }
{
    match tree {
        Tree::Is(value) => Ok(Decision::Is(*value)),
        Tree::Untold => Ok(Decision::Untold),
        Tree::Ask(test, held, failed) => match mean(*test) {
            None => Ok(Decision::Untold),
            Some(Meant::Always(true)) => decide(alloc, held),
            Some(Meant::Always(false)) => decide(alloc, failed),
            Some(Meant::Term(term)) => {
                let held = decide(alloc, held)?;
                let failed = decide(alloc, failed)?;
                asked(alloc, term, held, failed)
            }
        },
    }
}

// A term of two trees, or one tree where both tell the same. A first term of theirs is put together with it where it leads
// to the same tree.
fn asked(
    alloc: Global,
    term: Term,
    held: Decision,
    failed: Decision,
) -> Result<Decision, AllocError>
    ensures decided { IfOk result (λ it. (call : Record) → decided it call ≡ if holds_term term call then decided held call else decided failed call) }
    ensures all { IfOk result (λ it. DecidesAll held → DecidesAll failed → DecidesAll it) }
    ensures met { IfOk result (λ it. (calls : List Record) → EachEndIsMetBy (filter (λ call. holds_term term call) calls) held
        → EachEndIsMetBy (filter (λ call. not (holds_term term call)) calls) failed → EachEndIsMetBy calls it) }
{
    if same(&held, &failed) {
        return Ok(held);
    }
    match failed {
        Decision::Ask(next, up, down) => {
            let further = Branching {
                term: next,
                held: up,
                failed: down,
            };
            asked_then(alloc, term, held, further)
        }
        failed => asked_first(alloc, term, held, failed),
    }
}

// The same where the second tree begins with a term.
fn asked_then(
    alloc: Global,
    term: Term,
    held: Decision,
    failed: Branching,
) -> Result<Decision, AllocError>
    ensures decided { IfOk result (λ it. (call : Record) → decided it call ≡ if holds_term term call then decided held call else decided_branching failed call) }
    ensures all { IfOk result (λ it. DecidesAll held → BranchesAll failed → DecidesAll it) }
    ensures met { IfOk result (λ it. (calls : List Record) → EachEndIsMetBy (filter (λ call. holds_term term call) calls) held
        → EachBranchIsMetBy (filter (λ call. not (holds_term term call)) calls) failed → EachEndIsMetBy calls it) }
{
    if same(&held, &failed.held) {
        if let Some(joined) = either(term, failed.term) {
            return fork(alloc, joined, held, Box::into_inner(failed.failed));
        }
    }
    let end: &Decision = &failed.failed;
    let ends_as_held = same(&held, end);
    if ends_as_held {
        if let Some(joined) = either(term, failed.term.negated()) {
            return fork(alloc, joined, held, Box::into_inner(failed.held));
        }
    }
    asked_first(alloc, term, held, failed.whole())
}

// The same, where the first tree may begin with a term.
fn asked_first(
    alloc: Global,
    term: Term,
    held: Decision,
    failed: Decision,
) -> Result<Decision, AllocError>
    ensures decided { IfOk result (λ it. (call : Record) → decided it call ≡ if holds_term term call then decided held call else decided failed call) }
    ensures all { IfOk result (λ it. DecidesAll held → DecidesAll failed → DecidesAll it) }
    ensures met { IfOk result (λ it. (calls : List Record) → EachEndIsMetBy (filter (λ call. holds_term term call) calls) held
        → EachEndIsMetBy (filter (λ call. not (holds_term term call)) calls) failed → EachEndIsMetBy calls it) }
{
    match held {
        Decision::Ask(next, up, down) => {
            let further = Branching {
                term: next,
                held: up,
                failed: down,
            };
            asked_both(alloc, term, further, failed)
        }
        held => fork(alloc, term, held, failed),
    }
}

// The same where the first tree begins with a term.
fn asked_both(
    alloc: Global,
    term: Term,
    held: Branching,
    failed: Decision,
) -> Result<Decision, AllocError>
    ensures decided { IfOk result (λ it. (call : Record) → decided it call ≡ if holds_term term call then decided_branching held call else decided failed call) }
    ensures all { IfOk result (λ it. BranchesAll held → DecidesAll failed → DecidesAll it) }
    ensures met { IfOk result (λ it. (calls : List Record) → EachBranchIsMetBy (filter (λ call. holds_term term call) calls) held
        → EachEndIsMetBy (filter (λ call. not (holds_term term call)) calls) failed → EachEndIsMetBy calls it) }
{
    if same(&failed, &held.failed) {
        if let Some(joined) = as_one(term, held.term) {
            return fork(alloc, joined, Box::into_inner(held.held), failed);
        }
    }
    let beginning: &Decision = &held.held;
    let begins_as_failed = same(&failed, beginning);
    if begins_as_failed {
        if let Some(joined) = as_one(term, held.term.negated()) {
            return fork(alloc, joined, Box::into_inner(held.failed), failed);
        }
    }
    fork(alloc, term, held.whole(), failed)
}

// A term of two trees.
fn fork(alloc: Global, term: Term, held: Decision, failed: Decision) -> Result<Decision, AllocError>
    ensures decided { IfOk result (λ it. (call : Record) → decided it call ≡ if holds_term term call then decided held call else decided failed call) }
    ensures all { IfOk result (λ it. DecidesAll held → DecidesAll failed → DecidesAll it) }
    ensures met { IfOk result (λ it. (calls : List Record) → EachEndIsMetBy (filter (λ call. holds_term term call) calls) held
        → EachEndIsMetBy (filter (λ call. not (holds_term term call)) calls) failed → EachEndIsMetBy calls it) }
{
    Ok(Decision::Ask(term, Box::new(alloc, held)?, Box::new(alloc, failed)?))
}

fn same(one: &Decision, other: &Decision) -> bool
    ensures same { IsTrue result → (call : Record) → decided one.now call ≡ decided other.now call }
{
    match (one, other) {
        (Decision::Is(value), Decision::Is(another)) => *value == *another,
        (Decision::Untold, Decision::Untold) => true,
        (Decision::Ask(term, held, failed), Decision::Ask(another, up, down)) => {
            *term == *another && same(held, up) && same(failed, down)
        }
        _ => false,
    }
}
