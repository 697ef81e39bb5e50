//! A number, and as many rows of four decimals.
ghost use Rattle.std.specs.Prelude.{◌≡◌, IfOk};
ghost use Rattle.std.specs.List.{list_all};
ghost use Rattle.std.specs.Option.{option_map};
ghost use Rattle.sk_forms.specs.Rows.{ends_row};
ghost use Rattle.sk_forms.specs.Decimals.{counted, decimals, fours, is_miscounted, is_nearly_decimals};

use crate::first::decimal_at;
use crate::rows::{Form, ends_row, rows};
use crate::token::{Token, tokens_in};
use sk_insn::Insn;
use std::alloc::{AllocError, Global};

fn all_end_rows(tokens: &[Token]) -> bool
    ensures every { result ≡ list_all ends_row tokens.now }
{
    tokens.iter().all(|token| ends_row(*token))
}

// So many rows, and nothing behind them but ends of rows.
#[tactic(auto, unfolding(crate::specs::Decimals::counted))]
fn counted(alloc: Global, count: usize, tokens: &[Token]) -> Result<Option<Vec<Insn>>, AllocError>
    ensures exact { IfOk result (λ it. option_map (λ insns. insns.items) it ≡ counted count tokens.now) }
{
    if count == 0 {
        return Ok(None);
    }
    match rows(alloc, Form::Decimals, count, tokens)? {
        Some((insns, rest)) if all_end_rows(rest) => Ok(Some(insns)),
        _ => Ok(None),
    }
}

/// The instructions of the rows behind their number.
#[tactic(auto, unfolding(crate::specs::Decimals::decimals))]
pub(crate) fn decimals(alloc: Global, tokens: &[Token]) -> Result<Option<Vec<Insn>>, AllocError>
    ensures exact { IfOk result (λ it. option_map (λ insns. insns.items) it ≡ decimals tokens.now) }
{
    match decimal_at(0xffff_ffff, tokens) {
        Some((count, rest)) => counted(alloc, count as usize, rest),
        None => Ok(None),
    }
}

// How many rows there are words for.
fn fours(tokens: &[Token]) -> usize
    ensures count { result ≡ fours tokens.now }
{
    let words = tokens.iter().filter(|token| !ends_row(**token)).count();
    words / 4
}

#[tactic(auto, unfolding(crate::specs::Decimals::is_miscounted))]
fn is_miscounted(alloc: Global, tokens: &[Token]) -> Result<bool, AllocError>
    ensures exact { IfOk result (λ it. it ≡ is_miscounted tokens.now) }
{
    let Some((count, rest)) = decimal_at(0xffff_ffff, tokens) else {
        return Ok(false);
    };
    let there = fours(rest);
    if there == count as usize {
        return Ok(false);
    }
    let insns = counted(alloc, there, rest)?;
    Ok(insns.is_some())
}

/// Whether a text is a number and rows of four decimals as bpf_asm and `tcpdump -ddd` write them, but not as many rows.
pub fn is_nearly_decimals(alloc: Global, text: &[u8]) -> Result<bool, AllocError>
    ensures exact { IfOk result (λ it. it ≡ is_nearly_decimals text.now) }
{
    let tokens = tokens_in(alloc, text)?;
    is_miscounted(alloc, &tokens)
}
