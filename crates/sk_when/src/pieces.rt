//! All numbers of calls, in pieces that are compared one by one.
ghost use Rattle.std.specs.Prelude.{ℕ, List, [], ◌∷◌, ◌++◌, ◌≡◌, ◌+◌, ◌^◌, ◌≤◌, ◌↔◌, true, false, is_some, IfOk, OnOk, IsTrue};
ghost use Rattle.std.specs.List.{All};
ghost use Rattle.std.specs.List.Sorted.{IsNonDecreasing};
ghost use Rattle.sk_insn.specs.declared.insn.Insn.{Insn};
ghost use Rattle.sk_names.specs.Names.{name_on};
ghost use Rattle.sk_survey.specs.Cutting.{IsCutRound};
ghost use Rattle.sk_conditions.specs.declared.standing.Relation.{Relation};
ghost use Rattle.sk_conditions.specs.Comparing.{is_reflexive};
ghost use Rattle.sk_conditions.specs.Followed.{AreFollowed};
ghost use Rattle.sk_conditions.specs.Steps.{BothGoOneWay, NeverPart};
ghost use Rattle.sk_when.specs.Pieces.{AreCompared, Holds, ArePartsOfOne, AreAlike, AreDecided, IsNamed, NamedAreAlone, NamedAreAloneIn};

use crate::parts::piece_of;
use crate::piece::{Calls, Outcome, Part, Piece};
use crate::same_filters::have_same_filters;
use crate::showing::STEPS_A_LOOK;
use sk_conditions::{Budgets, Comparing, Numbers, Relation, is_reflexive};
use sk_filter::Chain;
use sk_names::{Architecture, name, numbers};
use sk_survey::cuts::cuts;
use std::alloc::{AllocError, Global};

/// Compares two chains on the calls of all numbers. One with a name on the architecture has a piece by itself.
pub fn pieces(
    alloc: Global,
    architecture: Architecture,
    relation: Relation,
    old: &Chain,
    new: &Chain,
    budgets: &mut Budgets,
) -> Result<Vec<Piece>, AllocError>
    ensures compared { IfOk result (λ pieces. AreCompared relation old.now new.now 0 (2 ^ 32) pieces.items) }
    ensures alone { IfOk result (λ pieces. All (NamedAreAloneIn architecture) pieces.items) }
    ensures decided { IfOk result (λ pieces. All AreFollowed old.now → All AreFollowed new.now → budgets.new.is_spent ≡ false
        → All AreDecided pieces.items) }
    ensures same { IfOk result (λ pieces. is_reflexive relation ≡ true → old.now ≡ new.now → All AreDecided pieces.items) }
    ensures one_way { NeverPart 0 (2 ^ 32) old.now → NeverPart 0 (2 ^ 32) new.now → budgets.old.is_spent ≡ false → budgets.new.is_spent ≡ false }
{
    let are_same = hold_alike(relation, old, new);
    let beginnings = beginnings(alloc, architecture, old, new)?;
    let last = u32::MAX;
    let all = Comparing {
        relation,
        old,
        new,
        numbers: Numbers { first: 0, last },
    };
    let mut pieces = Vec::new(alloc);
    let first = push_pieces(
        alloc,
        &mut pieces,
        architecture,
        all,
        are_same,
        &beginnings,
        budgets,
    )?;
    let behind = Comparing {
        numbers: Numbers { first, last },
        ..all
    };
    push_piece(alloc, &mut pieces, architecture, behind, are_same, budgets)?;
    Ok(pieces)
}

// Whether the relation holds on every call since both chains have the same filters.
fn hold_alike(relation: Relation, old: &Chain, new: &Chain) -> bool
    ensures same { IsTrue result ↔ ((is_reflexive relation ≡ true) × (old.now ≡ new.now)) }
{
    is_reflexive(relation) && have_same_filters(old, new)
}

// Compares the chains on the calls of the numbers below the last beginning, and tells the first number behind them.
fn push_pieces(
    alloc: Global,
    pieces: &mut Vec<Piece>,
    architecture: Architecture,
    chains: Comparing<'_>,
    are_same: bool,
    beginnings: &[u32],
    budgets: &mut Budgets,
) -> Result<u32, AllocError>
    requires same { IsTrue are_same → (is_reflexive chains.relation ≡ true) × (chains.old.now ≡ chains.new.now) }
    requires none { pieces.old.items ≡ [] }
    requires rising { IsNonDecreasing beginnings.now }
    requires round { (nr : ℕ) → IsTrue (is_some (name_on architecture nr)) → IsCutRound beginnings.now nr }
    ensures compared { IfOk result (λ first. AreCompared chains.entry.relation chains.entry.old.now chains.entry.new.now 0 first pieces.new.items) }
    ensures alone { IfOk result (λ first. All (NamedAreAloneIn architecture) pieces.new.items) }
    ensures decided { IfOk result (λ first. All AreFollowed chains.entry.old.now → All AreFollowed chains.entry.new.now → budgets.new.is_spent ≡ false
        → All AreDecided pieces.new.items) }
    ensures same { IfOk result (λ first. IsTrue are_same → All AreDecided pieces.new.items) }
    ensures one_way { NeverPart 0 (2 ^ 32) chains.entry.old.now → NeverPart 0 (2 ^ 32) chains.entry.new.now → budgets.old.is_spent ≡ false
        → budgets.new.is_spent ≡ false }
    ensures passed { IfOk result (λ first. All (λ beginning. beginning ≤ first) beginnings.now) }
{
    let mut first = 0u32;
    for beginning in beginnings {
        if first < *beginning {
            let last = *beginning - 1;
            let next = Comparing {
                numbers: Numbers { first, last },
                ..chains
            };
            push_piece(alloc, pieces, architecture, next, are_same, budgets)?;
            first = *beginning;
        }
    }
    Ok(first)
}

// Compares the chains on the calls of some numbers, behind the others.
fn push_piece(
    alloc: Global,
    pieces: &mut Vec<Piece>,
    architecture: Architecture,
    chains: Comparing<'_>,
    are_same: bool,
    budgets: &mut Budgets,
) -> Result<(), AllocError>
    requires range { chains.numbers.first ≤ chains.numbers.last }
    requires same { IsTrue are_same → (is_reflexive chains.relation ≡ true) × (chains.old.now ≡ chains.new.now) }
    ensures compared { OnOk result ((from : ℕ)
        → AreCompared chains.entry.relation chains.entry.old.now chains.entry.new.now from chains.entry.numbers.first pieces.old.items
        → AreCompared chains.entry.relation chains.entry.old.now chains.entry.new.now from (chains.entry.numbers.last + 1) pieces.new.items) }
    ensures alone { OnOk result ((from : ℕ)
        → AreCompared chains.entry.relation chains.entry.old.now chains.entry.new.now from chains.entry.numbers.first pieces.old.items
        → All (NamedAreAloneIn architecture) pieces.old.items → NamedAreAlone architecture chains.entry.numbers
        → All (NamedAreAloneIn architecture) pieces.new.items) }
    ensures decided { OnOk result (All AreFollowed chains.entry.old.now → All AreFollowed chains.entry.new.now
        → (budgets.old.is_spent ≡ false → All AreDecided pieces.old.items) → budgets.new.is_spent ≡ false
        → All AreDecided pieces.new.items) }
    ensures same { OnOk result (IsTrue are_same → All AreDecided pieces.old.items → All AreDecided pieces.new.items) }
    ensures one_way { BothGoOneWay chains.entry → budgets.old.is_spent ≡ false → budgets.new.is_spent ≡ false }
{
    let piece = next_piece(alloc, chains, are_same, budgets)?;
    push(pieces, architecture, piece)
}

/// The piece of some numbers. Of a chain beside itself nothing has to be followed, where each verdict stands so to itself.
pub fn next_piece(
    alloc: Global,
    chains: Comparing<'_>,
    are_same: bool,
    budgets: &mut Budgets,
) -> Result<Piece, AllocError>
    requires range { chains.numbers.first ≤ chains.numbers.last }
    requires same { IsTrue are_same → (is_reflexive chains.relation ≡ true) × (chains.old.now ≡ chains.new.now) }
    ensures numbers { IfOk result (λ piece. piece.numbers ≡ chains.entry.numbers) }
    ensures holds { IfOk result (Holds chains.entry.relation chains.entry.old.now chains.entry.new.now) }
    ensures decided { IfOk result (λ piece. All AreFollowed chains.entry.old.now → All AreFollowed chains.entry.new.now
        → budgets.new.is_spent ≡ false → AreDecided piece) }
    ensures same { IfOk result (λ piece. IsTrue are_same → AreDecided piece) }
    ensures spent { budgets.new.is_spent ≡ false → budgets.old.is_spent ≡ false }
    ensures one_way { BothGoOneWay chains.entry → budgets.old.is_spent ≡ false → budgets.new.is_spent ≡ false }
{
    if are_same {
        return Ok(without_parts(alloc, chains.numbers));
    }
    // A step to compare, one look, and a step that is left.
    let least = u64::from(chains.old.cost()) + u64::from(chains.new.cost()) + STEPS_A_LOOK + 2;
    let mut left = budgets.row(least);
    let piece = piece_of(alloc, chains, &mut left)?;
    budgets.put_back(left);
    Ok(piece)
}

// What is said of some numbers where both chains have the same filters, and each verdict stands so to itself.
fn without_parts(alloc: Global, numbers: Numbers) -> Piece
    ensures numbers { result.numbers ≡ numbers }
    ensures holds { (relation : Relation) (programs : List (List Insn)) → is_reflexive relation ≡ true → Holds relation programs programs result }
    ensures decided { AreDecided result }
{
    Piece {
        numbers,
        parts: Vec::new(alloc),
    }
}

// Adds a piece behind the others, or to the last one where both say one thing.
fn push(pieces: &mut Vec<Piece>, architecture: Architecture, piece: Piece) -> Result<(), AllocError>
    requires range { piece.numbers.first ≤ piece.numbers.last }
    ensures compared { OnOk result ((relation : Relation) (old new : List (List Insn)) (from : ℕ)
        → AreCompared relation old new from piece.numbers.first pieces.old.items → Holds relation old new piece
        → AreCompared relation old new from (piece.numbers.last + 1) pieces.new.items) }
    ensures alone { OnOk result ((relation : Relation) (old new : List (List Insn)) (from : ℕ)
        → AreCompared relation old new from piece.numbers.first pieces.old.items → All (NamedAreAloneIn architecture) pieces.old.items
        → NamedAreAloneIn architecture piece → All (NamedAreAloneIn architecture) pieces.new.items) }
    ensures decided { OnOk result (All AreDecided pieces.old.items → AreDecided piece → All AreDecided pieces.new.items) }
{
    let Some(last) = pieces.pop() else {
        pieces.push(piece)?;
        return Ok(());
    };
    if are_one(architecture, &last, &piece) {
        push_joined(pieces, last, piece)?;
        return Ok(());
    }
    push_both(pieces, last, piece)?;
    Ok(())
}

// Adds both.
fn push_both(pieces: &mut Vec<Piece>, last: Piece, piece: Piece) -> Result<(), AllocError>
    ensures added { OnOk result (pieces.new.items ≡ (pieces.old.items ++ last ∷ []) ++ piece ∷ []) }
{
    pieces.push(last)?;
    pieces.push(piece)?;
    Ok(())
}

// Adds one with the numbers of both, which says what the first one says.
fn push_joined(pieces: &mut Vec<Piece>, last: Piece, piece: Piece) -> Result<(), AllocError>
    ensures added { OnOk result (pieces.new.items ≡ pieces.old.items
        ++ record { numbers = record { first = last.numbers.first; last = piece.numbers.last }; parts = last.parts } ∷ []) }
{
    pieces.push(Piece {
        numbers: Numbers {
            first: last.numbers.first,
            last: piece.numbers.last,
        },
        parts: last.parts,
    })?;
    Ok(())
}

// Whether two pieces say one thing of numbers without a name.
fn are_one(architecture: Architecture, one: &Piece, other: &Piece) -> bool
    ensures one { IsTrue result → ArePartsOfOne one.now.parts.items other.now.parts.items }
    ensures unnamed { IsTrue result → (IsNamed architecture one.now.numbers → ⊥) × (IsNamed architecture other.now.numbers → ⊥) }
{
    !is_named(architecture, one.numbers)
        && !is_named(architecture, other.numbers)
        && say_the_same(&one.parts, &other.parts)
}

fn is_named(architecture: Architecture, numbers: Numbers) -> bool
    ensures named { IsNamed architecture numbers → IsTrue result }
{
    numbers.first == numbers.last && name(architecture, numbers.first).is_some()
}

// Whether each is one part of all calls, with the same verdicts, or none.
fn say_the_same(parts: &[Part], others: &[Part]) -> bool
    ensures one { IsTrue result → ArePartsOfOne parts.now others.now }
{
    match (parts, others) {
        ([], []) => true,
        ([part], [other]) => {
            is_every(&part.calls)
                && is_every(&other.calls)
                && are_alike(part.outcome, other.outcome)
        }
        _ => false,
    }
}

fn are_alike(one: Outcome, other: Outcome) -> bool
    ensures alike { IsTrue result → AreAlike one other }
{
    match (one, other) {
        (Outcome::Undecided, Outcome::Undecided) => true,
        (Outcome::Apart(pair, _), Outcome::Apart(another, _)) => pair == another,
        _ => false,
    }
}

fn is_every(calls: &Calls) -> bool
    ensures every { IsTrue result → calls.now ≡ Calls.Every }
{
    matches!(calls, Calls::Every)
}

// The numbers at which the tests of either chain can change their answers, and those round each number with a name, in
// rising order. They decide in which pieces the numbers are told, and never what is found of them.
fn beginnings(
    alloc: Global,
    architecture: Architecture,
    old: &Chain,
    new: &Chain,
) -> Result<Vec<u32>, AllocError>
    ensures rising { IfOk result (λ beginnings. IsNonDecreasing beginnings.items) }
    ensures round { IfOk result (λ beginnings. (nr : ℕ) → IsTrue (is_some (name_on architecture nr)) → IsCutRound beginnings.items nr) }
{
    let named = numbers(alloc, architecture)?;
    let mut beginnings = cuts(alloc, old, &named)?;
    beginnings.extend_from_slice(&cuts(alloc, new, &[])?)?;
    beginnings.sort_unstable();
    Ok(beginnings)
}
