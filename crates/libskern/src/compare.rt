//! Two chains compared on every call of x86-64.
ghost use Rattle.std.specs.Prelude.{ℕ, List, ◌≡◌, ◌≢◌, ◌≤◌, ◌<◌, ◌+◌, ◌^◌, true, false, length, IfOk, IfNone, IfSome};
ghost use Rattle.std.specs.List.{All};
ghost use Rattle.sk_insn.specs.declared.insn.Insn.{Insn};
ghost use Rattle.sk_filter.specs.PathLimit.{cost_of};
ghost use Rattle.sk_survey.specs.Answers.{IsCallOf};
ghost use Rattle.sk_conditions.specs.declared.standing.Relation.{Relation};
ghost use Rattle.sk_conditions.specs.Differing.{TellsDifferences};
ghost use Rattle.sk_conditions.specs.Followed.{AreFollowed, TellsAll};
ghost use Rattle.sk_conditions.specs.Meeting.{EachEndIsMet};
ghost use Rattle.sk_conditions.specs.Steps.{BothGoOneWay, NeverPart};
ghost use Rattle.libskern.specs.Comparing.{IsFound, IsDifference, end_stands, relation_asked, stands_on, tree_stands};

use crate::Call;
use sk_conditions::{
    Budget, Budgets, Comparing, Differences, Numbers, Relation, Tree, Verdicts, differ, stands,
};
use sk_filter::Chain;
use sk_insn::Record;
use sk_survey::cuts::cuts;
use std::alloc::{AllocError, Global};

/// A call to which two chains answer otherwise than is asked, and the verdict of each.
#[repr(C)]
#[derive(Clone, Copy, Debug, PartialEq, Eq)]
pub struct Difference {
    pub call: Call,
    pub old_verdict: u32,
    pub new_verdict: u32,
}

/// What was found of a relation between two chains.
#[derive(Clone, Copy, Debug)]
pub enum Found {
    /// It holds on each of the calls.
    Holds,
    /// It fails on this one.
    Fails(Difference),
    /// It was not seen to fail, and may.
    Open,
}

/// What a relation is that a caller asks for.
pub(crate) fn relation_asked(stricter: bool) -> Relation
    ensures relation { result ≡ relation_asked stricter }
{
    if stricter {
        Relation::AsStrict
    } else {
        Relation::Same
    }
}

/// Compares a new chain with an old one on every call, row by row of numbers, up to the first row with a call on which the
/// relation fails.
pub(crate) fn compared(
    alloc: Global,
    relation: Relation,
    old: &Chain,
    new: &Chain,
    budgets: &mut Budgets,
) -> Result<Found, AllocError>
    ensures found { IfOk result (IsFound relation old.now new.now 0 (2 ^ 32)) }

    // Where the filters are followed, and the steps of no row were used up, it is known.
    ensures decided { IfOk result (λ found. All AreFollowed old.now → All AreFollowed new.now
        → budgets.new.is_spent ≡ false → found ≢ Found.Open) }

    // Where all calls of each row go one way through each filter, they are not.
    ensures one_way { NeverPart 0 (2 ^ 32) old.now → NeverPart 0 (2 ^ 32) new.now → budgets.old.is_spent ≡ false → budgets.new.is_spent ≡ false }
{
    let beginnings = beginnings(alloc, old, new)?;
    let last = u32::MAX;
    let all = Comparing {
        relation,
        old,
        new,
        numbers: Numbers { first: 0, last },
    };
    let mut found = Found::Holds;
    let mut first = 0u32;
    for beginning in beginnings.iter() {
        if first < *beginning {
            let last = *beginning - 1;
            let row = Comparing {
                numbers: Numbers { first, last },
                ..all
            };
            found = with_row(alloc, row, found, budgets)?;
            if let Found::Fails(it) = found {
                return Ok(Found::Fails(it));
            }
            first = *beginning;
        }
    }
    let behind = Comparing {
        numbers: Numbers { first, last },
        ..all
    };
    with_row(alloc, behind, found, budgets)
}

// The numbers at which the tests of either chain can change their answers, in rising order. They decide in which rows the
// numbers are compared, and never what is found.
fn beginnings(alloc: Global, old: &Chain, new: &Chain) -> Result<Vec<u32>, AllocError> {
    let mut beginnings = cuts(alloc, old, &[])?;
    beginnings.extend_from_slice(&cuts(alloc, new, &[])?)?;
    beginnings.sort_unstable();
    Ok(beginnings)
}

// What is found with the calls of some numbers behind those below them.
fn with_row(
    alloc: Global,
    chains: Comparing<'_>,
    found: Found,
    budgets: &mut Budgets,
) -> Result<Found, AllocError>
    requires range { chains.numbers.first ≤ chains.numbers.last }
    requires found { IsFound chains.relation chains.old.now chains.new.now 0 chains.numbers.first found }
    ensures found { IfOk result
        (IsFound chains.entry.relation chains.entry.old.now chains.entry.new.now 0 (chains.entry.numbers.last + 1)) }
    ensures decided { found ≢ Found.Open → IfOk result (λ found. All AreFollowed chains.entry.old.now → All AreFollowed chains.entry.new.now
        → budgets.new.is_spent ≡ false → found ≢ Found.Open) }
    ensures spent { budgets.new.is_spent ≡ false → budgets.old.is_spent ≡ false }
    ensures one_way { BothGoOneWay chains.entry → budgets.old.is_spent ≡ false → budgets.new.is_spent ≡ false }
{
    let row = row_found(alloc, chains, budgets)?;
    Ok(joined(found, row))
}

// What was found of neighbouring numbers together.
fn joined(found: Found, behind: Found) -> Found
    ensures joined { (relation : Relation) (old new : List (List Insn)) (from middle end : ℕ)
        → IsFound relation old new from middle found → IsFound relation old new middle end behind
        → IsFound relation old new from end result }
    ensures decided { found ≢ Found.Open → behind ≢ Found.Open → result ≢ Found.Open }
{
    match found {
        Found::Fails(it) => Found::Fails(it),
        Found::Holds => behind,
        Found::Open => match behind {
            Found::Fails(it) => Found::Fails(it),
            Found::Holds | Found::Open => Found::Open,
        },
    }
}

// Compares two chains on the calls of some numbers.
fn row_found(
    alloc: Global,
    chains: Comparing<'_>,
    budgets: &mut Budgets,
) -> Result<Found, AllocError>
    requires range { chains.numbers.first ≤ chains.numbers.last }
    ensures found { IfOk result
        (IsFound chains.entry.relation chains.entry.old.now chains.entry.new.now chains.entry.numbers.first (chains.entry.numbers.last + 1)) }
    ensures decided { IfOk result (λ found. All AreFollowed chains.entry.old.now → All AreFollowed chains.entry.new.now
        → budgets.new.is_spent ≡ false → found ≢ Found.Open) }
    ensures spent { budgets.new.is_spent ≡ false → budgets.old.is_spent ≡ false }
    ensures one_way { BothGoOneWay chains.entry → budgets.old.is_spent ≡ false → budgets.new.is_spent ≡ false }
{
    // A step to compare, one call, and a step that is left.
    let least = 2 * most_steps(chains) + 2;
    let mut budget = budgets.row(least);
    let differences = differ(alloc, chains, &mut budget)?;
    let found = found_by(chains, &differences, &mut budget);
    budgets.put_back(budget);
    Ok(found)
}

// The most instructions that one call has both chains execute.
fn most_steps(chains: Comparing<'_>) -> u64
    ensures few { result < 2 ^ 33 }
    ensures cost { result ≡ cost_of chains.entry.old.now + cost_of chains.entry.new.now }
{
    u64::from(chains.old.cost()) + u64::from(chains.new.cost())
}

// What was found, by how the verdicts differ.
fn found_by(chains: Comparing<'_>, differences: &Differences, budget: &mut Budget) -> Found
    requires tells { TellsDifferences chains differences.now }
    requires within { All (IsCallOf chains.numbers.first chains.numbers.last) differences.now.calls.items }
    ensures found { IsFound chains.entry.relation chains.entry.old.now chains.entry.new.now
        chains.entry.numbers.first (chains.entry.numbers.last + 1) result }
    ensures decided { TellsAll differences.now.tree → EachEndIsMet differences.now.calls.items differences.now.tree
        → 0 < budget.new.steps → result ≢ Found.Open }
    ensures left { budget.new.steps ≤ budget.old.steps }
    ensures few { length differences.now.calls.items ≤ 1
        → budget.old.steps ≤ budget.new.steps + (cost_of chains.entry.old.now + cost_of chains.entry.new.now) }
{
    if tree_stands(chains.relation, &differences.pairs, &differences.tree) {
        return Found::Holds;
    }
    match first_difference(chains, &differences.calls, budget) {
        Some(it) => Found::Fails(it),
        None => Found::Open,
    }
}

// The first of some calls on which the relation fails, as far as the budget lets look.
fn first_difference(
    chains: Comparing<'_>,
    calls: &[Record],
    budget: &mut Budget,
) -> Option<Difference>
    requires within { All (IsCallOf chains.numbers.first chains.numbers.last) calls.now }
    ensures shown { IfSome result (IsDifference chains.entry.relation chains.entry.old.now chains.entry.new.now) }
    ensures none { 0 < budget.new.steps → IfNone result (All (λ call.
        stands_on chains.entry.relation chains.entry.old.now chains.entry.new.now call ≡ true) calls.now) }
    ensures left { budget.new.steps ≤ budget.old.steps }
    ensures few { length calls.now ≤ 1
        → budget.old.steps ≤ budget.new.steps + (cost_of chains.entry.old.now + cost_of chains.entry.new.now) }
{
    for call in calls {
        if !budget.take(most_steps(chains)) {
            return None;
        }
        if let Some(difference) = shown_by(chains, call) {
            return Some(difference);
        }
    }
    None
}

// The difference that a call shows, if it shows one.
fn shown_by(chains: Comparing<'_>, call: &Record) -> Option<Difference>
    requires within { IsCallOf chains.numbers.first chains.numbers.last call.now }
    ensures shown { IfSome result (IsDifference chains.entry.relation chains.entry.old.now chains.entry.new.now) }
    ensures none { IfNone result (stands_on chains.entry.relation chains.entry.old.now chains.entry.new.now call.now ≡ true) }
{
    let old_verdict = chains.old.verdict(call);
    let new_verdict = chains.new.verdict(call);
    if stands(chains.relation, old_verdict, new_verdict) {
        return None;
    }
    Some(Difference {
        call: Call::of(call),
        old_verdict,
        new_verdict,
    })
}

// Whether each end of a tree of differences says that the relation holds.
fn tree_stands(relation: Relation, pairs: &[Verdicts], tree: &Tree) -> bool
    ensures stands { result ≡ tree_stands relation pairs.now tree.now }
{
    match tree {
        Tree::Is(number) => end_stands(relation, pairs, *number),
        Tree::Untold => false,
        Tree::Ask(_, held, failed) => {
            tree_stands(relation, pairs, held) && tree_stands(relation, pairs, failed)
        }
    }
}

fn end_stands(relation: Relation, pairs: &[Verdicts], number: u32) -> bool
    ensures stands { result ≡ end_stands relation pairs.now number }
{
    let Some(index) = number.checked_sub(1) else {
        return true;
    };
    match pairs.get(index as usize) {
        Some(pair) => stands(relation, pair.old, pair.new),
        None => false,
    }
}
