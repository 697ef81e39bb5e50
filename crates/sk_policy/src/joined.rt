//! The instructions of a choice of numbers for the same bits: each word is loaded once for all of them.
ghost use Rattle.std.specs.Prelude.{◌≡◌, ◌+◌, ◌<◌, ◌≤◌, ◌++◌, length, OnOk, IfErr};
ghost use Rattle.std.specs.List.{list_all};
ghost use Rattle.sk_insn.specs.declared.operation.Comparison.TheVariants.{Equal};
ghost use Rattle.sk_profile.specs.Code.{branch};
ghost use Rattle.sk_profile.specs.Sayings.{low};
ghost use Rattle.sk_policy.specs.declared.fault.CodeFault.TheVariants.{TooLong};
ghost use Rattle.sk_policy.specs.Code.{is_alike, are_joined, equals_code, joined_code};

use crate::backward::Backward;
use crate::fault::CodeFault;
use crate::term::bits_of;
use crate::test::{WORD, high_place, is_narrow, low_place, put_word};
use sk_insn::{Comparison, Insn, MOST_INSNS};
use sk_profile::instructions::branch;
use sk_terms::Term;
use std::alloc::AllocError;

/// How far it goes on, its comparisons counted: conditional jumps reach 255 instructions, and a few that load stand before these.
const NEAR: usize = 200;

// Whether a term asks, as the first one does, whether the bits are a number, and the numbers have one upper half.
fn is_alike(first: &Term, term: &Term) -> bool
    ensures alike { result ≡ is_alike first.now term.now }
{
    term.is_equality()
        && low_place(term.register) == low_place(first.register)
        && term.mask == first.mask
        && term.first / WORD == first.first / WORD
}

// Whether each term is so.
fn all_alike(first: &Term, terms: &[Term]) -> bool
    ensures alike { result ≡ list_all (is_alike first.now) terms.now }
{
    terms.iter().all(|term| is_alike(first, term))
}

/// Whether some terms ask for numbers of the same bits, and go on near enough.
pub fn are_joined(first: &Term, terms: &[Term], held: usize, failed: usize) -> bool
    requires far { held ≤ 4096 }
    requires far_too { failed ≤ 4096 }
    ensures joined { result ≡ are_joined first.now terms.now held failed }
{
    (!is_narrow(bits_of(first)) || first.first / WORD == 0)
        && terms.len() >= 2
        && held + terms.len() <= NEAR
        && failed + terms.len() <= NEAR
        && all_alike(first, terms)
}

// Compares A with the lower half of a term's number.
fn is_number(term: &Term, held: usize, failed: usize) -> Insn
    requires near { held ≤ 255 }
    requires near_too { failed ≤ 255 }
    ensures insn { result ≡ branch Equal (low term.now.first) held failed }
{
    branch(
        Comparison::Equal,
        (term.first % WORD) as u32,
        held as u8,
        failed as u8,
    )
}

// Compares A with the lower halves of the numbers.
fn put_equals(
    code: &mut Backward,
    terms: &[Term],
    held: usize,
    failed: usize,
) -> Result<(), AllocError>
    requires near { held + length terms.now ≤ 200 }
    requires near_too { failed ≤ 200 }
    ensures code { OnOk result (code.new ≡ equals_code terms.now held failed ++ code.old) }
    ensures count { OnOk result (length code.new ≡ length code.old + length terms.now) }
{
    let Some((last, before)) = terms.split_last() else {
        return Ok(());
    };
    let end = code.len();
    code.put(is_number(last, held, failed))?;
    let mut left = before;
    while let Some((term, others)) = left.split_last() {
        let behind = code.len() - end;
        code.put(is_number(term, behind + held, 0))?;
        left = others;
    }
    Ok(())
}

// Compares the upper half, which the numbers have in common, and then the lower one.
#[tactic(auto, unfolding(crate::specs::Code::joined_code))]
fn put_words(
    code: &mut Backward,
    first: &Term,
    terms: &[Term],
    held: usize,
    failed: usize,
) -> Result<(), AllocError>
    requires near { held + length terms.now ≤ 200 }
    requires near_too { failed + length terms.now ≤ 200 }
    ensures code { OnOk result (code.new ≡ joined_code first.now terms.now held failed ++ code.old) }
{
    let before = code.len();
    put_equals(code, terms, held, failed)?;
    put_word(code, low_place(first.register), (first.mask % WORD) as u32)?;
    if is_narrow(bits_of(first)) {
        return Ok(());
    }
    let behind = (code.len() - before) as u8;
    let high = (first.first / WORD) as u32;
    code.put(branch(Comparison::Equal, high, 0, behind + failed as u8))?;
    put_word(code, high_place(first.register), (first.mask / WORD) as u32)
}

/// Asks whether the bits are one of the numbers, and goes on so many instructions further where they are, and where they are not.
pub fn put_joined(
    code: &mut Backward,
    first: &Term,
    terms: &[Term],
    held: usize,
    failed: usize,
) -> Result<(), CodeFault>
    requires near { held + length terms.now ≤ 200 }
    requires near_too { failed + length terms.now ≤ 200 }
    ensures code { OnOk result (code.new ≡ joined_code first.now terms.now held failed ++ code.old) }
    ensures few { OnOk result (length code.new ≤ 4096) }
    ensures long { IfErr result (λ fault. fault ≡ TooLong → 4096 < length (joined_code first.now terms.now held failed ++ code.old)) }
{
    put_words(code, first, terms, held, failed)?;
    if code.len() > MOST_INSNS {
        return Err(CodeFault::TooLong);
    }
    Ok(())
}
