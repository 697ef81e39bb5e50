//! Values: numbers, several of them with `|` between, and the bits that a register is masked by.
ghost use Rattle.std.specs.Prelude.{◌≡◌, ◌<◌, length, IfErr, IfOk};
ghost use Rattle.sk_policy_text.specs.ConditionsReading.{ReadsValue, NoValue, ReadsNumbers, NoNumbers, ReadsFactor, NoFactor, ReadsMask, NoMask, Refuses};

use crate::condition_stop::ConditionStop;
use crate::first::{behind, expect, number_at};
use crate::token::Token;

// Numbers with `|` between them, up to the bracket that closes.
fn read_numbers(tokens: &[Token]) -> Result<(u64, &[Token]), ConditionStop>
    ensures reads { IfOk result (λ read. ReadsNumbers tokens.now read.0 read.1.now) }
    ensures shorter { IfOk result (λ read. length read.1.now < length tokens.now) }
    ensures none { IfErr result (λ stop. Refuses stop tokens.now (NoNumbers tokens.now)) }
{
    let (mut bits, mut rest) = number_at(tokens)?;
    while let Some(more) = behind(rest, Token::BitOr) {
        let (number, next) = number_at(more)?;
        bits |= number;
        rest = next;
    }
    let end = expect(rest, Token::Close)?;
    Ok((bits, end))
}

/// A number, or several in brackets, and what stands behind.
pub(crate) fn read_value(tokens: &[Token]) -> Result<(u64, &[Token]), ConditionStop>
    ensures reads { IfOk result (λ read. ReadsValue tokens.now read.0 read.1.now) }
    ensures shorter { IfOk result (λ read. length read.1.now < length tokens.now) }
    ensures none { IfErr result (λ stop. Refuses stop tokens.now (NoValue tokens.now)) }
{
    match behind(tokens, Token::Open) {
        Some(inside) => read_numbers(inside),
        None => number_at(tokens),
    }
}

// A value, or the complement of one that has no bit above the lowest 31.
fn read_factor(tokens: &[Token]) -> Result<(u64, &[Token]), ConditionStop>
    ensures reads { IfOk result (λ read. ReadsFactor tokens.now read.0 read.1.now) }
    ensures shorter { IfOk result (λ read. length read.1.now < length tokens.now) }
    ensures none { IfErr result (λ stop. Refuses stop tokens.now (NoFactor tokens.now)) }
{
    let Some(inside) = behind(tokens, Token::BitNot) else {
        return read_value(tokens);
    };
    let (value, rest) = read_value(inside)?;
    if value < 0x8000_0000 {
        Ok((u64::MAX - value, rest))
    } else {
        Err(ConditionStop::NotUnderstood(inside.len()))
    }
}

/// The bits that `& A & B)` leaves, and what stands behind.
pub(crate) fn read_mask(tokens: &[Token]) -> Result<(u64, &[Token]), ConditionStop>
    ensures reads { IfOk result (λ read. ReadsMask tokens.now read.0 read.1.now) }
    ensures shorter { IfOk result (λ read. length read.1.now < length tokens.now) }
    ensures none { IfErr result (λ stop. Refuses stop tokens.now (NoMask tokens.now)) }
{
    let first = expect(tokens, Token::BitAnd)?;
    let (mut mask, mut rest) = read_factor(first)?;
    while let Some(more) = behind(rest, Token::BitAnd) {
        let (factor, next) = read_factor(more)?;
        mask &= factor;
        rest = next;
    }
    let end = expect(rest, Token::Close)?;
    Ok((mask, end))
}
