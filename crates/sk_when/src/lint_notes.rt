//! Notes on tests of arguments that say little.
ghost use Rattle.std.specs.Prelude.{◌≡◌, ◌++◌, ◌^◌, List, ℕ, false, IfOk, OnOk, string_bytes, flat_map};
ghost use Rattle.sk_conditions.specs.Steps.{NeverPart};
ghost use Rattle.sk_when.specs.LintNotes.{AreNotes, AreNotesOf, IsNotedTree, address_or, argument_name_text, argument_notes, calls_for, decided_text, is_of_zero, is_pointer, looks_at, note_by, note_of, note_text, noted_text, notes_of, said_text, tree_calls_for};

use crate::concern::{ARGUMENTS, named_by};
use crate::diff_text::push_head;
use sk_arguments::{Kind, decided_by, kind_of};
use sk_conditions::{Budgets, Numbers, Test, Tree, chain_tree};
use sk_filter::Chain;
use std::alloc::{AllocError, Global};
use std::fmt::Write;

/// What is noted of an argument that a filter tests.
#[derive(Clone, Copy, Debug, PartialEq, Eq)]
pub enum Note {
    /// The call has no such argument.
    Absent,
    /// Another argument, at this place, decides whether or as what Linux reads it.
    Decided(usize),
    /// It is an address: what stands there is not looked at.
    Pointer,
}

/// The notes on the chain's tests of calls with some numbers, in their order.
pub fn lint_notes(
    alloc: Global,
    numbers: &[u32],
    chain: &Chain,
    budgets: &mut Budgets,
) -> Result<String, AllocError>
    ensures notes { IfOk result (λ text. AreNotes chain.now budgets.new.is_spent numbers.now (string_bytes text)) }
    ensures spent { budgets.new.is_spent ≡ false → budgets.old.is_spent ≡ false }
    ensures one_way { NeverPart 0 (2 ^ 32) chain.now → budgets.old.is_spent ≡ false → budgets.new.is_spent ≡ false }
{
    let mut text = String::new(alloc);
    for nr in numbers {
        push_number_notes(alloc, &mut text, chain, *nr, budgets)?;
    }
    Ok(text)
}

fn push_number_notes(
    alloc: Global,
    text: &mut String,
    chain: &Chain,
    nr: u32,
    budgets: &mut Budgets,
) -> Result<(), AllocError>
    ensures notes { OnOk result ((first : List ℕ) × AreNotesOf chain.now budgets.new.is_spent nr first × (string_bytes text.new ≡ string_bytes text.old ++ first)) }
    ensures spent { budgets.new.is_spent ≡ false → budgets.old.is_spent ≡ false }
    ensures one_way { NeverPart 0 (2 ^ 32) chain.now → budgets.old.is_spent ≡ false → budgets.new.is_spent ≡ false }
{
    let tree = number_tree(alloc, chain, nr, budgets)?;
    push_notes(text, nr, &tree)?;
    Ok(())
}

// The tree of the chain's verdicts on the calls with a number.
fn number_tree(
    alloc: Global,
    chain: &Chain,
    nr: u32,
    budgets: &mut Budgets,
) -> Result<Tree, AllocError>
    ensures tells { IfOk result (IsNotedTree chain.now budgets.new.is_spent nr) }
    ensures spent { budgets.new.is_spent ≡ false → budgets.old.is_spent ≡ false }
    ensures one_way { NeverPart 0 (2 ^ 32) chain.now → budgets.old.is_spent ≡ false → budgets.new.is_spent ≡ false }
{
    let numbers = Numbers {
        first: nr,
        last: nr,
    };
    // A step for each instruction, and one that is left.
    let mut left = budgets.row(u64::from(chain.cost()) + 1);
    let tree = chain_tree(alloc, chain, numbers, &mut left)?;
    budgets.put_back(left);
    Ok(tree)
}

#[tactic(auto, unfolding(crate::specs::LintNotes::notes_of))]
fn push_notes(text: &mut String, nr: u32, tree: &Tree) -> Result<(), AllocError>
    ensures text { OnOk result (string_bytes text.new ≡ string_bytes text.old ++ notes_of nr tree.now) }
{
    push_each(text, nr, tree, &ARGUMENTS)
}

// The notes on some arguments.
fn push_each(text: &mut String, nr: u32, tree: &Tree, places: &[usize]) -> Result<(), AllocError>
    ensures text { OnOk result (string_bytes text.new ≡ string_bytes text.old ++ flat_map (argument_notes nr tree.now) places.now) }
{
    for i in places {
        push_argument_notes(text, nr, tree, *i)?;
    }
    Ok(())
}

#[tactic(auto, unfolding(crate::specs::LintNotes::argument_notes))]
fn push_argument_notes(text: &mut String, nr: u32, tree: &Tree, i: usize) -> Result<(), AllocError>
    ensures text { OnOk result (string_bytes text.new ≡ string_bytes text.old ++ argument_notes nr tree.now i) }
{
    match note_of(nr, i) {
        Some(note) => push_noted(text, nr, tree, i, note),
        None => Ok(()),
    }
}

fn push_noted(
    text: &mut String,
    nr: u32,
    tree: &Tree,
    i: usize,
    note: Note,
) -> Result<(), AllocError>
    ensures text { OnOk result (string_bytes text.new ≡ string_bytes text.old ++ noted_text nr tree.now i note) }
{
    if tree_calls_for(tree, note, i) {
        push_note(text, nr, i, note)
    } else {
        Ok(())
    }
}

fn note_of(nr: u32, i: usize) -> Option<Note>
    ensures note { result ≡ note_of nr i }
{
    note_by(kind_of(nr, i), decided_by(nr, i))
}

fn note_by(kind: Kind, decider: Option<usize>) -> Option<Note>
    ensures note { result ≡ note_by kind decider }
{
    match kind {
        Kind::Absent => Some(Note::Absent),
        Kind::Pointer => Some(address_or(decider)),
        _ => decider.map(Note::Decided),
    }
}

fn address_or(decider: Option<usize>) -> Note
    ensures note { result ≡ address_or decider }
{
    match decider {
        Some(decider) => Note::Decided(decider),
        None => Note::Pointer,
    }
}

// Whether some test of a tree calls for a note.
fn tree_calls_for(tree: &Tree, note: Note, i: usize) -> bool
    ensures calls { result ≡ tree_calls_for note i tree.now }
{
    match tree {
        Tree::Is(_) | Tree::Untold => false,
        Tree::Ask(test, held, failed) => {
            calls_for(*test, note, i)
                || tree_calls_for(held, note, i)
                || tree_calls_for(failed, note, i)
        }
    }
}

fn calls_for(test: Test, note: Note, i: usize) -> bool
    ensures calls { result ≡ calls_for note i test }
{
    looks_at(test, i) && !(is_pointer(note) && is_of_zero(test))
}

// Whether a test looks at a word of an argument.
fn looks_at(test: Test, i: usize) -> bool
    ensures looks { result ≡ looks_at i test }
{
    let place = u64::from(test.place);
    let first = (i as u64).saturating_mul(8).saturating_add(16);
    place == first || place == first.saturating_add(4)
}

// Whether it compares all bits of a word with 0.
fn is_of_zero(test: Test) -> bool
    ensures zero { result ≡ is_of_zero test }
{
    test.mask == u32::MAX && test.k == 0
}

fn is_pointer(note: Note) -> bool
    ensures pointer { result ≡ is_pointer note }
{
    matches!(note, Note::Pointer)
}

#[tactic(auto, unfolding(crate::specs::LintNotes::note_text))]
fn push_note(text: &mut String, nr: u32, i: usize, note: Note) -> Result<(), AllocError>
    ensures text { OnOk result (string_bytes text.new ≡ string_bytes text.old ++ note_text nr i note) }
{
    let numbers = Numbers {
        first: nr,
        last: nr,
    };
    push_head(text, named_by(nr), numbers)?;
    text.push_str(": ")?;
    push_argument_name(text, i)?;
    push_said(text, note)
}

fn push_said(text: &mut String, note: Note) -> Result<(), AllocError>
    ensures text { OnOk result (string_bytes text.new ≡ string_bytes text.old ++ said_text note) }
{
    match note {
        Note::Absent => text.push_str(" is no argument\n"),
        Note::Pointer => text.push_str(" is a pointer: what it points to is not looked at\n"),
        Note::Decided(decider) => push_decided(text, decider),
    }
}

fn push_decided(text: &mut String, decider: usize) -> Result<(), AllocError>
    ensures text { OnOk result (string_bytes text.new ≡ string_bytes text.old ++ decided_text decider) }
{
    text.push_str(" is read for some values of ")?;
    push_argument_name(text, decider)?;
    text.push_str(" alone\n")?;
    Ok(())
}

#[tactic(auto, unfolding(crate::specs::LintNotes::argument_name_text))]
fn push_argument_name(text: &mut String, i: usize) -> Result<(), AllocError>
    ensures text { OnOk result (string_bytes text.new ≡ string_bytes text.old ++ argument_name_text i) }
{
    write!(text, "args[{i}]")
}
