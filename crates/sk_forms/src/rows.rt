//! Rows of the forms, each an instruction.
ghost use Rattle.std.specs.Prelude.{◌≡◌, IfOk};
ghost use Rattle.std.specs.Option.{option_map};
ghost use Rattle.sk_forms.specs.Rows.{begins_instruction, behind_end, between, braces, ends_row, four, instruction, jump, row, rows, statement};

use crate::first::{behind, behind_word, decimal_at};
use crate::names::Word;
use crate::token::{Token, is_sign, is_word};
use crate::values::value_at;
use sk_insn::Insn;
use std::alloc::{AllocError, Global};

/// How rows are written.
#[derive(Clone, Copy, Debug, PartialEq, Eq)]
pub enum Form {
    /// Four values in braces, `BPF_STMT(..)` or `BPF_JUMP(..)`, as in an array of C.
    Array,
    /// Four decimals.
    Decimals,
}

#[tactic(auto, unfolding(crate::specs::Rows::braces))]
fn braces(tokens: &[Token]) -> Option<(Insn, &[Token])>
    ensures braces { option_map (λ it. (it.0, it.1.now)) result ≡ braces tokens.now }
{
    let inside = behind(b'{', tokens)?;
    let (code, rest) = value_at(0xffff, inside)?;
    let first = behind(b',', rest)?;
    let (jt, rest) = value_at(0xff, first)?;
    let second = behind(b',', rest)?;
    let (jf, rest) = value_at(0xff, second)?;
    let third = behind(b',', rest)?;
    let (k, rest) = value_at(0xffff_ffff, third)?;
    let rest = behind(b'}', rest)?;
    let insn = Insn {
        code: code as u16,
        jt: jt as u8,
        jf: jf as u8,
        k,
    };
    Some((insn, rest))
}

#[tactic(auto, unfolding(crate::specs::Rows::statement))]
fn statement(tokens: &[Token]) -> Option<(Insn, &[Token])>
    ensures statement { option_map (λ it. (it.0, it.1.now)) result ≡ statement tokens.now }
{
    let called = behind_word(Word::Statement, tokens)?;
    let inside = behind(b'(', called)?;
    let (code, rest) = value_at(0xffff, inside)?;
    let first = behind(b',', rest)?;
    let (k, rest) = value_at(0xffff_ffff, first)?;
    let rest = behind(b')', rest)?;
    let insn = Insn {
        code: code as u16,
        jt: 0,
        jf: 0,
        k,
    };
    Some((insn, rest))
}

#[tactic(auto, unfolding(crate::specs::Rows::jump))]
fn jump(tokens: &[Token]) -> Option<(Insn, &[Token])>
    ensures jump { option_map (λ it. (it.0, it.1.now)) result ≡ jump tokens.now }
{
    let called = behind_word(Word::Jump, tokens)?;
    let inside = behind(b'(', called)?;
    let (code, rest) = value_at(0xffff, inside)?;
    let first = behind(b',', rest)?;
    let (k, rest) = value_at(0xffff_ffff, first)?;
    let second = behind(b',', rest)?;
    let (jt, rest) = value_at(0xff, second)?;
    let third = behind(b',', rest)?;
    let (jf, rest) = value_at(0xff, third)?;
    let rest = behind(b')', rest)?;
    let insn = Insn {
        code: code as u16,
        jt: jt as u8,
        jf: jf as u8,
        k,
    };
    Some((insn, rest))
}

#[tactic(auto, unfolding(crate::specs::Rows::instruction))]
fn instruction(tokens: &[Token]) -> Option<(Insn, &[Token])>
    ensures instruction { option_map (λ it. (it.0, it.1.now)) result ≡ instruction tokens.now }
{
    if let Some(row) = braces(tokens) {
        return Some(row);
    }
    if let Some(row) = statement(tokens) {
        return Some(row);
    }
    jump(tokens)
}

/// Whether an instruction in C begins with a token.
pub(crate) fn begins_instruction(token: Token) -> bool
    ensures begins { result ≡ begins_instruction token }
{
    is_sign(token, b'{') || is_word(token, Word::Statement) || is_word(token, Word::Jump)
}

// What stands behind the comma before a row, which the first one lacks.
#[tactic(auto, unfolding(crate::specs::Rows::between))]
fn between(place: usize, tokens: &[Token]) -> Option<&[Token]>
    ensures between { option_map (λ rest. rest.now) result ≡ between place tokens.now }
{
    if place == 0 {
        Some(tokens)
    } else {
        behind(b',', tokens)
    }
}

/// Whether a token ends a row of decimals.
pub(crate) fn ends_row(token: Token) -> bool
    ensures ends { result ≡ ends_row token }
{
    is_sign(token, b',') || is_sign(token, b'\n')
}

#[tactic(auto, unfolding(crate::specs::Rows::behind_end))]
fn behind_end(tokens: &[Token]) -> Option<&[Token]>
    ensures behind { option_map (λ rest. rest.now) result ≡ behind_end tokens.now }
{
    let (token, rest) = tokens.split_first()?;
    if ends_row(*token) { Some(rest) } else { None }
}

// Four decimals.
#[tactic(auto, unfolding(crate::specs::Rows::four))]
fn four(tokens: &[Token]) -> Option<(Insn, &[Token])>
    ensures four { option_map (λ it. (it.0, it.1.now)) result ≡ four tokens.now }
{
    let (code, rest) = decimal_at(0xffff, tokens)?;
    let (jt, rest) = decimal_at(0xff, rest)?;
    let (jf, rest) = decimal_at(0xff, rest)?;
    let (k, rest) = decimal_at(0xffff_ffff, rest)?;
    let insn = Insn {
        code: code as u16,
        jt: jt as u8,
        jf: jf as u8,
        k,
    };
    Some((insn, rest))
}

// The row of a place, and what stands behind it.
#[tactic(auto, unfolding(crate::specs::Rows::row))]
fn row(form: Form, place: usize, tokens: &[Token]) -> Option<(Insn, &[Token])>
    ensures row { option_map (λ it. (it.0, it.1.now)) result ≡ row form place tokens.now }
{
    match form {
        Form::Array => {
            let begun = between(place, tokens)?;
            instruction(begun)
        }
        Form::Decimals => {
            let begun = behind_end(tokens)?;
            four(begun)
        }
    }
}

/// So many rows, and what stands behind them.
pub(crate) fn rows(
    alloc: Global,
    form: Form,
    count: usize,
    tokens: &[Token],
) -> Result<Option<(Vec<Insn>, &[Token])>, AllocError>
    ensures exact { IfOk result (λ it. option_map (λ given. (given.0.items, given.1.now)) it ≡ rows form 0 count tokens.now) }
{
    let mut insns = Vec::new(alloc);
    let mut rest = tokens;
    for place in 0..count {
        let Some((insn, next)) = row(form, place, rest) else {
            return Ok(None);
        };
        insns.push(insn)?;
        rest = next;
    }
    Ok(Some((insns, rest)))
}
