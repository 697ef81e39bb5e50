//! Tables with a row for each instruction.
ghost use Rattle.std.specs.Prelude.{◌≡◌, ◌==◌, ◌||◌, IfOk};
ghost use Rattle.std.specs.List.{list_all};
ghost use Rattle.std.specs.Option.{option_map};
ghost use Rattle.sk_text.specs.Lines.{lines_of};
ghost use Rattle.sk_forms.specs.Words.{is_blank, is_word_byte};
ghost use Rattle.sk_forms.specs.Tables.{behind_head, behind_place, is_head, is_rule, some_rows, table, table_row, table_rows};

use crate::cutting::{is_blank, is_word_byte};
use crate::first::{behind, number_at};
use crate::token::{Token, place_in, tokens_of};
use sk_insn::Insn;
use sk_text::{Lines, cut};
use std::alloc::{AllocError, Global};

// What stands behind the number of a row.
#[tactic(auto, unfolding(crate::specs::Tables::behind_place))]
fn behind_place(place: usize, tokens: &[Token]) -> Option<&[Token]>
    ensures behind { option_map (λ rest. rest.now) result ≡ behind_place place tokens.now }
{
    let (token, rest) = tokens.split_first()?;
    let number = place_in(*token)?;
    if number as usize == place {
        Some(rest)
    } else {
        None
    }
}

#[tactic(auto, unfolding(crate::specs::Tables::table_row))]
fn table_row(place: usize, tokens: &[Token]) -> Option<Insn>
    ensures row { result ≡ table_row place tokens.now }
{
    let colon = behind_place(place, tokens)?;
    let fields = behind(b':', colon)?;
    let (code, rest) = number_at(0xffff, fields)?;
    let (jt, rest) = number_at(0xff, rest)?;
    let (jf, rest) = number_at(0xff, rest)?;
    let (k, _rest) = number_at(0xffff_ffff, rest)?;
    Some(Insn {
        code: code as u16,
        jt: jt as u8,
        jf: jf as u8,
        k,
    })
}

// The rows of a text, each with its number.
fn table_rows(alloc: Global, text: &[u8]) -> Result<Option<Vec<Insn>>, AllocError>
    ensures exact { IfOk result (λ it. option_map (λ insns. insns.items) it ≡ table_rows 0 (lines_of text.now)) }
{
    let mut insns = Vec::new(alloc);
    for line in Lines(text) {
        let tokens = tokens_of(alloc, line)?;
        if !tokens.is_empty() {
            let Some(insn) = table_row(insns.len(), &tokens) else {
                return Ok(None);
            };
            insns.push(insn)?;
        }
    }
    Ok(Some(insns))
}

#[tactic(auto, unfolding(crate::specs::Tables::is_head))]
fn is_head(line: &[u8]) -> bool
    ensures every { result ≡ is_head line.now }
{
    line.iter()
        .all(|byte| is_word_byte(*byte) || is_blank(*byte))
}

fn all_of_rule(line: &[u8]) -> bool
    ensures every { result ≡ list_all (λ byte. byte == 61 || is_blank byte) line.now }
{
    line.iter().all(|byte| *byte == b'=' || is_blank(*byte))
}

#[tactic(auto, unfolding(crate::specs::Tables::is_rule))]
fn is_rule(line: &[u8]) -> bool
    ensures rule { result ≡ is_rule line.now }
{
    all_of_rule(line) && line.contains(&b'=')
}

// The text without the names of its columns.
#[tactic(auto, unfolding(crate::specs::Tables::behind_head))]
fn behind_head(text: &[u8]) -> &[u8]
    ensures rest { result.now ≡ behind_head text.now }
{
    let (first, behind_first) = cut(text, b'\n');
    let (second, behind_second) = cut(behind_first, b'\n');
    if is_head(first) && is_rule(second) {
        behind_second
    } else {
        text
    }
}

/// The instructions of a table, with or without its head.
#[tactic(auto, unfolding(crate::specs::Tables::table))]
pub(crate) fn table(alloc: Global, text: &[u8]) -> Result<Option<Vec<Insn>>, AllocError>
    ensures exact { IfOk result (λ it. option_map (λ insns. insns.items) it ≡ table text.now) }
{
    let rows = table_rows(alloc, behind_head(text))?;
    Ok(some_rows(rows))
}

fn some_rows(rows: Option<Vec<Insn>>) -> Option<Vec<Insn>>
    ensures some { option_map (λ insns. insns.items) result ≡ some_rows (option_map (λ insns. insns.items) rows) }
{
    match rows {
        Some(insns) if !insns.is_empty() => Some(insns),
        _ => None,
    }
}
