//! Arrays of C.
ghost use Rattle.std.specs.Prelude.{◌≡◌, IfOk, filter, not};
ghost use Rattle.std.specs.List.{count_by, list_all};
ghost use Rattle.std.specs.Option.{option_map};
ghost use Rattle.sk_forms.specs.Rows.{begins_instruction};
ghost use Rattle.sk_forms.specs.Arrays.{array, bare, closes, declared, declares, ends, ends_program, filter_alone, filter_at, in_braces, in_one_line, length_at, list_at, program, rows_there};

use crate::first::{behind, behind_word, cut_at, number_at, past};
use crate::names::Word;
use crate::rows::{Form, begins_instruction, rows};
use crate::token::{Token, is_sign};
use sk_insn::Insn;
use std::alloc::{AllocError, Global};

/// The tokens without the line ends.
pub(crate) fn in_one_line(alloc: Global, tokens: &[Token]) -> Result<Vec<Token>, AllocError>
    ensures exact { IfOk result (λ line. line.items ≡ in_one_line tokens.now) }
{
    tokens
        .iter()
        .copied()
        .filter(|token| !is_sign(*token, b'\n'))
        .collect(alloc)
}

fn count_of(tokens: &[Token]) -> usize
    ensures count { result ≡ count_by begins_instruction tokens.now }
{
    tokens
        .iter()
        .filter(|token| begins_instruction(**token))
        .count()
}

// As many rows as tokens that begin one, and what stands behind them.
#[tactic(auto, unfolding(crate::specs::Arrays::rows_there))]
fn rows_there(alloc: Global, tokens: &[Token]) -> Result<Option<(Vec<Insn>, &[Token])>, AllocError>
    ensures exact { IfOk result (λ it. option_map (λ given. (given.0.items, given.1.now)) it ≡ rows_there tokens.now) }
{
    let count = count_of(tokens);
    if count == 0 {
        return Ok(None);
    }
    rows(alloc, Form::Array, count, tokens)
}

// Whether nothing stands there but a comma.
#[tactic(auto, unfolding(crate::specs::Arrays::ends))]
fn ends(tokens: &[Token]) -> bool
    ensures ends { result ≡ ends tokens.now }
{
    past(b',', tokens).is_empty()
}

#[tactic(auto, unfolding(crate::specs::Arrays::bare))]
fn bare(alloc: Global, tokens: &[Token]) -> Result<Option<Vec<Insn>>, AllocError>
    ensures exact { IfOk result (λ it. option_map (λ insns. insns.items) it ≡ bare tokens.now) }
{
    match rows_there(alloc, tokens)? {
        Some((insns, rest)) if ends(rest) => Ok(Some(insns)),
        _ => Ok(None),
    }
}

// Whether only the brace that closes stands there, with or without a comma before it and a semicolon behind it.
#[tactic(auto, unfolding(crate::specs::Arrays::closes))]
fn closes(tokens: &[Token]) -> bool
    ensures closes { result ≡ closes tokens.now }
{
    match behind(b'}', past(b',', tokens)) {
        Some(rest) => past(b';', rest).is_empty(),
        None => false,
    }
}

#[tactic(auto, unfolding(crate::specs::Arrays::in_braces))]
fn in_braces(alloc: Global, tokens: &[Token]) -> Result<Option<Vec<Insn>>, AllocError>
    ensures exact { IfOk result (λ it. option_map (λ insns. insns.items) it ≡ in_braces tokens.now) }
{
    let Some(inside) = behind(b'{', tokens) else {
        return Ok(None);
    };
    match rows_there(alloc, inside)? {
        Some((insns, rest)) if closes(rest) => Ok(Some(insns)),
        _ => Ok(None),
    }
}

fn declares(token: Token) -> bool
    ensures declares { result ≡ declares token }
{
    match token {
        Token::Name(_) | Token::Decimal(_) => true,
        Token::Sign(byte) => byte == b'[' || byte == b']',
        _ => false,
    }
}

/// Whether tokens may declare an array.
pub(crate) fn all_declare(tokens: &[Token]) -> bool
    ensures every { result ≡ list_all declares tokens.now }
{
    tokens.iter().all(|token| declares(*token))
}

#[tactic(auto, unfolding(crate::specs::Arrays::declared))]
fn declared(alloc: Global, tokens: &[Token]) -> Result<Option<Vec<Insn>>, AllocError>
    ensures exact { IfOk result (λ it. option_map (λ insns. insns.items) it ≡ declared tokens.now) }
{
    let (head, body) = cut_at(b'=', tokens);
    if all_declare(head) {
        in_braces(alloc, body)
    } else {
        Ok(None)
    }
}

// The rows of a list that strace writes, and what stands behind them.
#[tactic(auto, unfolding(crate::specs::Arrays::filter_at))]
fn filter_at(alloc: Global, tokens: &[Token]) -> Result<Option<(Vec<Insn>, &[Token])>, AllocError>
    ensures exact { IfOk result (λ it. option_map (λ given. (given.0.items, given.1.now)) it ≡ filter_at tokens.now) }
{
    let Some(inside) = list_at(tokens) else {
        return Ok(None);
    };
    let Some((insns, rest)) = rows_there(alloc, inside)? else {
        return Ok(None);
    };
    match behind(b']', rest) {
        Some(rest) => Ok(Some((insns, rest))),
        None => Ok(None),
    }
}

#[tactic(auto, unfolding(crate::specs::Arrays::list_at))]
fn list_at(tokens: &[Token]) -> Option<&[Token]>
    ensures list { option_map (λ rest. rest.now) result ≡ list_at tokens.now }
{
    let named = behind_word(Word::Filter, tokens)?;
    let list = behind(b'=', named)?;
    behind(b'[', list)
}

#[tactic(auto, unfolding(crate::specs::Arrays::filter_alone))]
fn filter_alone(alloc: Global, tokens: &[Token]) -> Result<Option<Vec<Insn>>, AllocError>
    ensures exact { IfOk result (λ it. option_map (λ insns. insns.items) it ≡ filter_alone tokens.now) }
{
    match filter_at(alloc, tokens)? {
        Some((insns, rest)) if rest.is_empty() => Ok(Some(insns)),
        _ => Ok(None),
    }
}

// The number of rows that strace writes before them, and what stands behind it.
#[tactic(auto, unfolding(crate::specs::Arrays::length_at))]
fn length_at(tokens: &[Token]) -> Option<(u32, &[Token])>
    ensures number { option_map (λ it. (it.0, it.1.now)) result ≡ length_at tokens.now }
{
    let inside = behind(b'{', tokens)?;
    let named = behind_word(Word::Length, inside)?;
    let number = behind(b'=', named)?;
    let (count, rest) = number_at(0xffff, number)?;
    let rest = behind(b',', rest)?;
    Some((count, rest))
}

#[tactic(auto, unfolding(crate::specs::Arrays::ends_program))]
fn ends_program(tokens: &[Token]) -> bool
    ensures ends { result ≡ ends_program tokens.now }
{
    match behind(b'}', tokens) {
        Some(rest) => rest.is_empty(),
        None => false,
    }
}

#[tactic(auto, unfolding(crate::specs::Arrays::program))]
fn program(alloc: Global, tokens: &[Token]) -> Result<Option<Vec<Insn>>, AllocError>
    ensures exact { IfOk result (λ it. option_map (λ insns. insns.items) it ≡ program tokens.now) }
{
    let Some((count, more)) = length_at(tokens) else {
        return Ok(None);
    };
    match filter_at(alloc, more)? {
        Some((insns, rest)) if insns.len() == count as usize && ends_program(rest) => {
            Ok(Some(insns))
        }
        _ => Ok(None),
    }
}

/// The instructions of an array, with or without what stands around them.
#[tactic(auto, unfolding(crate::specs::Arrays::array))]
pub(crate) fn array(alloc: Global, tokens: &[Token]) -> Result<Option<Vec<Insn>>, AllocError>
    ensures exact { IfOk result (λ it. option_map (λ insns. insns.items) it ≡ array tokens.now) }
{
    if let Some(insns) = bare(alloc, tokens)? {
        return Ok(Some(insns));
    }
    if let Some(insns) = in_braces(alloc, tokens)? {
        return Ok(Some(insns));
    }
    if let Some(insns) = declared(alloc, tokens)? {
        return Ok(Some(insns));
    }
    if let Some(insns) = filter_alone(alloc, tokens)? {
        return Ok(Some(insns));
    }
    program(alloc, tokens)
}
