//! Comparisons of some bits of a register with a value.
ghost use Rattle.std.specs.Prelude.{◌≡◌, ◌<◌, length, true, false, IfErr, IfNone, IfOk, IfSome};
ghost use Rattle.sk_terms.specs.Expressions.{all_bits};
ghost use Rattle.sk_policy_text.specs.ConditionsReading.{ReadsMasked, NoMasked, ReadsBits, NoBits, BeginsWithRegister, NoRegister, ReadsComparison, NoBitsFirst, NoValueFirst, NoComparison, Refuses, related, term_of, turned};

use crate::condition_stop::ConditionStop;
use crate::first::{behind, expect, register_at, register_first, relation_at};
use crate::token::{Relation, Token};
use crate::values::{read_mask, read_value};
use sk_terms::{Register, Term};

/// Some bits of a register.
#[derive(Clone, Copy, Debug, PartialEq, Eq)]
pub(crate) struct Bits {
    pub(crate) register: Register,
    pub(crate) mask: u64,
}

/// A comparison of bits with a number.
#[derive(Clone, Copy, Debug, PartialEq, Eq)]
pub(crate) struct Compared {
    pub(crate) bits: Bits,
    /// Between what is written first and what is written second.
    pub(crate) relation: Relation,
    pub(crate) number: u64,
    /// Whether the number is written before the bits.
    pub(crate) number_first: bool,
}

fn all_bits(register: Register) -> u64
    ensures all { result ≡ all_bits register }
{
    match register {
        Register::Number => 0xffff_ffff,
        Register::Pointer => u64::MAX,
        Register::Argument(_) => u64::MAX,
    }
}

// The relation that holds between two numbers where this one does between them the other way round.
fn turned(relation: Relation) -> Relation
    ensures turned { result ≡ turned relation }
{
    match relation {
        Relation::Is => Relation::Is,
        Relation::IsNot => Relation::IsNot,
        Relation::Below => Relation::Above,
        Relation::AtMost => Relation::AtLeast,
        Relation::Above => Relation::Below,
        Relation::AtLeast => Relation::AtMost,
    }
}

// The bits are in such a relation to a number.
fn related(bits: Bits, relation: Relation, number: u64) -> Term
    ensures term { result ≡ related bits relation number }
{
    let (first, last, inside) = match relation {
        Relation::Is => (number, number, true),
        Relation::IsNot => (number, number, false),
        Relation::Below => (number, u64::MAX, false),
        Relation::AtMost => (0, number, true),
        Relation::Above => (0, number, false),
        Relation::AtLeast => (number, u64::MAX, true),
    };
    Term {
        register: bits.register,
        mask: bits.mask,
        first,
        last,
        inside,
    }
}

/// The term that holds where the comparison does.
pub(crate) fn term_of(compared: Compared) -> Term
    ensures term { result ≡ term_of compared }
{
    if compared.number_first {
        related(compared.bits, turned(compared.relation), compared.number)
    } else {
        related(compared.bits, compared.relation, compared.number)
    }
}

// Some bits of a register, behind the bracket that opens.
fn read_masked(tokens: &[Token]) -> Result<(Bits, &[Token]), ConditionStop>
    ensures reads { IfOk result (λ read. ReadsMasked tokens.now read.0 read.1.now) }
    ensures shorter { IfOk result (λ read. length read.1.now < length tokens.now) }
    ensures none { IfErr result (λ stop. Refuses stop tokens.now (NoMasked tokens.now)) }
{
    let (register, behind_it) = register_at(tokens)?;
    let (mask, rest) = read_mask(behind_it)?;
    Ok((Bits { register, mask }, rest))
}

// A register, or some bits of it in brackets.
fn read_bits(tokens: &[Token]) -> Result<(Bits, &[Token]), ConditionStop>
    ensures reads { IfOk result (λ read. ReadsBits tokens.now read.0 read.1.now) }
    ensures shorter { IfOk result (λ read. length read.1.now < length tokens.now) }
    ensures none { IfErr result (λ stop. Refuses stop tokens.now (NoBits tokens.now)) }
{
    if let Some(inside) = behind(tokens, Token::Open) {
        return read_masked(inside);
    }
    let (register, rest) = register_at(tokens)?;
    let mask = all_bits(register);
    Ok((Bits { register, mask }, rest))
}

// A comparison of a number with bits.
fn read_number_first(tokens: &[Token]) -> Result<(Compared, &[Token]), ConditionStop>
    ensures reads { IfOk result (λ read. ReadsComparison tokens.now read.0 read.1.now) }
    ensures shorter { IfOk result (λ read. length read.1.now < length tokens.now) }
    ensures none { IfErr result (λ stop. Refuses stop tokens.now (NoValueFirst tokens.now)) }
{
    let (number, behind_it) = read_value(tokens)?;
    let (relation, side) = relation_at(behind_it)?;
    let (bits, rest) = read_bits(side)?;
    let compared = Compared {
        bits,
        relation,
        number,
        number_first: true,
    };
    Ok((compared, rest))
}

// A comparison of bits with a number.
fn read_bits_first(tokens: &[Token]) -> Result<(Compared, &[Token]), ConditionStop>
    ensures reads { IfOk result (λ read. ReadsComparison tokens.now read.0 read.1.now) }
    ensures shorter { IfOk result (λ read. length read.1.now < length tokens.now) }
    ensures none { IfErr result (λ stop. Refuses stop tokens.now (NoBitsFirst tokens.now)) }
{
    let (bits, behind_it) = read_bits(tokens)?;
    let (relation, side) = relation_at(behind_it)?;
    let (number, rest) = read_value(side)?;
    let compared = Compared {
        bits,
        relation,
        number,
        number_first: false,
    };
    Ok((compared, rest))
}

fn begins_with_register(tokens: &[Token]) -> bool
    ensures held { result ≡ true → BeginsWithRegister tokens.now }
    ensures failed { result ≡ false → NoRegister tokens.now }
{
    register_first(tokens).is_some()
}

// Whether bits are written first, if a comparison is.
fn begins_with_bits(tokens: &[Token]) -> bool
    ensures held { result ≡ true → NoValueFirst tokens.now }
    ensures failed { result ≡ false → NoBitsFirst tokens.now }
{
    match behind(tokens, Token::Open) {
        Some(inside) => begins_with_register(inside),
        None => begins_with_register(tokens),
    }
}

/// A comparison of bits with a value, either way round, and what stands behind.
pub(crate) fn read_comparison(tokens: &[Token]) -> Result<(Compared, &[Token]), ConditionStop>
    ensures reads { IfOk result (λ read. ReadsComparison tokens.now read.0 read.1.now) }
    ensures shorter { IfOk result (λ read. length read.1.now < length tokens.now) }
    ensures none { IfErr result (λ stop. Refuses stop tokens.now (NoComparison tokens.now)) }
{
    if begins_with_bits(tokens) {
        read_bits_first(tokens)
    } else {
        read_number_first(tokens)
    }
}
