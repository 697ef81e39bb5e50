//! `ask filter --smaller`: one filter in place of those of a chain, where it has fewer instructions than they have together.
ghost use Rattle.std.specs.Prelude.{◌≡◌, ◌++◌, ℕ, false, IfOk, IfErr, Ok, length, string_bytes};
ghost use Rattle.sk_filter.specs.Chains.{IsWithinLimit};
ghost use Rattle.sk_ask.specs.Counts.{CountsReads};
ghost use Rattle.sk_ask.specs.Endings.{ComesTo, answered, ending_of};
ghost use Rattle.sk_ask.specs.Smaller.{HasNone, IsInPlaceOf, SmallerOf, counted, ending_with, ending_without, in_place_text, saved_line, size_of, unsaved, unsaved_line};
ghost use Rattle.sk_ask.specs.Targets.{written_text};

use crate::analysis::Analysis;
use crate::answer::Answer;
use crate::target::{Target, written};
use crate::{Filters, Trouble, of_word};
use sk_filter::Chain;
use sk_insn::Insn;
use sk_policy_when::OneFilterFault;
use sk_when::Budgets;
use std::alloc::{AllocError, Global};

/// How many rows may take all the steps of a row, as where their conditions are told.
const MOST_ROWS: u32 = 2;

/// The answer with one filter in place of these, which is smaller.
pub fn smaller<A: Analysis>(
    alloc: Global,
    analysis: &A,
    target: Target,
    filters: Filters,
) -> Result<Answer, Trouble>
    ensures told { SmallerOf (A.may_spend analysis.now) target filters.chain filters.notes.items (ending_of result) }
    ensures unread { (reads : ℕ) → CountsReads result reads reads }
{
    let Filters { chain, notes, .. } = filters;
    match in_place_of(alloc, analysis, &chain) {
        Ok(insns) => with(alloc, target, &insns, &chain, notes),
        Err(fault) => without(alloc, fault),
    }
}

// One filter that answers as the chain does.
fn in_place_of<A: Analysis>(
    alloc: Global,
    analysis: &A,
    chain: &Chain,
) -> Result<Vec<Insn>, OneFilterFault>
    requires limited { IsWithinLimit chain.now }
    ensures found { IfOk result (λ insns. IsInPlaceOf chain.now insns.items) }
    ensures none { IfErr result (HasNone (A.may_spend analysis.now) chain.now) }
{
    let mut budgets = Budgets::of_rows(MOST_ROWS);
    analysis.one_filter(alloc, chain, &mut budgets)
}

// How many instructions the filters of a chain have together.
#[tactic(auto, using(crate::proofs::Sizes::cost_is))]
fn size_of(chain: &Chain) -> usize
    ensures size { result ≡ size_of chain.now }
{
    chain.cost() as usize - 4 * chain.len()
}

// The answer, where these instructions are one filter in place of those of a chain.
fn with(
    alloc: Global,
    target: Target,
    insns: &[Insn],
    chain: &Chain,
    notes: Vec<u8>,
) -> Result<Answer, Trouble>
    ensures told { ComesTo (ending_with target insns.now chain.now notes.items) (ending_of result) }
    ensures unread { (reads : ℕ) → CountsReads result reads reads }
{
    let (count, all) = (insns.len(), size_of(chain));
    if count < all {
        let line = saved_line(alloc, count, all)?;
        return Ok(noted(alloc, target, insns, notes, &line)?);
    }
    unsaved(alloc, target, count, chain, notes)
}

// Where it is no smaller.
fn unsaved(
    alloc: Global,
    target: Target,
    count: usize,
    chain: &Chain,
    notes: Vec<u8>,
) -> Result<Answer, Trouble>
    ensures told { ComesTo (unsaved target count chain.now notes.items) (ending_of result) }
    ensures unread { (reads : ℕ) → CountsReads result reads reads }
{
    let mut programs = chain.programs();
    match (programs.next(), programs.next()) {
        (Some(program), None) => Ok(as_it_is(alloc, target, program.insns(), notes)?),
        _ => Err(Trouble::Refused(several_line(alloc, count, chain)?)),
    }
}

// The answer with a single filter, in whose place none is.
fn as_it_is(
    alloc: Global,
    target: Target,
    insns: &[Insn],
    notes: Vec<u8>,
) -> Result<Answer, AllocError>
    ensures answer { IfOk result (λ it. ending_of (Ok it) ≡ answered (notes.items ++ unsaved_line (counted (length insns.now))) (written_text target insns.now) false) }
{
    let line = unsaved_line(alloc, &counted(alloc, insns.len())?)?;
    noted(alloc, target, insns, notes, &line)
}

// The line that says that several filters are not larger than one.
fn several_line(alloc: Global, count: usize, chain: &Chain) -> Result<Vec<u8>, AllocError>
    ensures line { IfOk result (λ line. line.items ≡ unsaved_line (in_place_text count (size_of chain.now))) }
{
    let what = in_place_text(alloc, count, size_of(chain))?;
    unsaved_line(alloc, &what)
}

// The answer with this filter, of which a line is noted beside the others.
fn noted(
    alloc: Global,
    target: Target,
    insns: &[Insn],
    mut notes: Vec<u8>,
    line: &[u8],
) -> Result<Answer, AllocError>
    ensures answer { IfOk result (λ it. ending_of (Ok it) ≡ answered (notes.items ++ line.now) (written_text target insns.now) false) }
{
    notes.extend_from_slice(line)?;
    Ok(Answer {
        text: written(alloc, target, insns)?,
        notes,
        denies: false,
    })
}

/// So many instructions, in words.
pub(crate) fn counted(alloc: Global, count: usize) -> Result<String, AllocError>
    ensures text { IfOk result (λ text. string_bytes text ≡ counted count) }
{
    let noun = if count == 1 {
        " instruction"
    } else {
        " instructions"
    };
    format!(in alloc; "{count}{noun}")
}

fn in_place_text(alloc: Global, count: usize, all: usize) -> Result<String, AllocError>
    ensures text { IfOk result (λ text. string_bytes text ≡ in_place_text count all) }
{
    let counted = counted(alloc, count)?;
    format!(in alloc; "{counted} in place of {all}")
}

fn saved_line(alloc: Global, count: usize, all: usize) -> Result<Vec<u8>, AllocError>
    ensures line { IfOk result (λ line. line.items ≡ saved_line count all) }
{
    let what = in_place_text(alloc, count, all)?;
    of_word(alloc, &format!(in alloc; "filter: {what}")?, b"")
}

fn unsaved_line(alloc: Global, what: &str) -> Result<Vec<u8>, AllocError>
    ensures line { IfOk result (λ line. line.items ≡ unsaved_line what.now) }
{
    of_word(
        alloc,
        &format!(in alloc; "filter: no smaller one was found: {what}")?,
        b"",
    )
}

// The trouble, where there is no such filter.
fn without(alloc: Global, fault: OneFilterFault) -> Result<Answer, Trouble>
    ensures told { ComesTo (ending_without fault) (ending_of result) }
    ensures unread { (reads : ℕ) → CountsReads result reads reads }
{
    let what = match fault {
        OneFilterFault::Untold => "filter: the filters could not be followed",
        OneFilterFault::SeveralOthers => {
            "filter: calls of other architectures get several verdicts: expected one"
        }
        OneFilterFault::UnknownOthers => {
            "filter: which verdict calls of other architectures get is not known"
        }
        OneFilterFault::TooLong => "filter: one filter would have more than 4096 instructions",
        OneFilterFault::Memory => return Err(Trouble::Memory),
    };
    Err(Trouble::Refused(of_word(alloc, what, b"")?))
}
