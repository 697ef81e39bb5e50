//! Alternatives: comparisons, ranges in brackets, and alternatives in brackets, with `||` between them.
ghost use Rattle.std.specs.Prelude.{◌≡◌, ◌<◌, length, true, false, IfErr, IfNone, IfOk, IfSome};
ghost use Rattle.sk_policy_text.specs.ConditionsReading.{ranged, BeginsMask, NoMaskThere, BeginsNumbers, NoNumbersThere, NoBrackets, NoComparison, StartsRange, NoStart, MakesRange, ReadsRange, NoRange, ReadsOne, NoAlternative, ReadsSome, NoAlternatives, Refuses, Stops};

use crate::comparison::{Compared, read_comparison, term_of};
use crate::condition_stop::ConditionStop;
use crate::first::{behind, expect, number_first, register_first};
use crate::token::{Relation, Token};
use sk_terms::Term;

// Whether these are the brackets of masked bits, behind the one that opens.
fn begins_mask(inside: &[Token]) -> bool
    ensures held { result ≡ true → BeginsMask inside.now }
    ensures failed { result ≡ false → NoMaskThere inside.now }
{
    match register_first(inside) {
        Some((_register, rest)) => behind(rest, Token::BitAnd).is_some(),
        None => false,
    }
}

// Whether these are the brackets of a value.
fn begins_numbers(inside: &[Token]) -> bool
    ensures held { result ≡ true → BeginsNumbers inside.now }
    ensures failed { result ≡ false → NoNumbersThere inside.now }
{
    match number_first(inside) {
        Some((_number, rest)) => {
            behind(rest, Token::BitOr).is_some() || behind(rest, Token::Close).is_some()
        }
        None => false,
    }
}

// Whether a comparison begins, if an alternative does.
fn starts_comparison(tokens: &[Token]) -> bool
    ensures held { result ≡ true → NoBrackets tokens.now }
    ensures failed { result ≡ false → NoComparison tokens.now }
{
    match behind(tokens, Token::Open) {
        Some(inside) => begins_mask(inside) || begins_numbers(inside),
        None => true,
    }
}

// Whether a comparison stands there and `&&` behind it: in brackets only a range begins so.
fn starts_range(inside: &[Token]) -> bool
    ensures held { result ≡ true → StartsRange inside.now }
    ensures failed { result ≡ false → NoStart inside.now }
{
    match read_comparison(inside) {
        Ok((_compared, rest)) => behind(rest, Token::And).is_some(),
        Err(_stop) => false,
    }
}

// The range that two comparisons make together: `FIRST <= BITS`, `BITS <= LAST`.
fn range_of(one: Compared, other: Compared) -> Option<Term>
    ensures range { IfSome result (λ term. MakesRange one other × (term ≡ ranged one.bits one.number other.number true)) }
    ensures none { IfNone result (MakesRange one other → ⊥) }
{
    let is_bounded = one.relation == Relation::AtMost && other.relation == Relation::AtMost;
    if is_bounded && one.number_first && !other.number_first && one.bits == other.bits {
        Some(Term {
            register: one.bits.register,
            mask: one.bits.mask,
            first: one.number,
            last: other.number,
            inside: true,
        })
    } else {
        None
    }
}

// `FIRST <= BITS && BITS <= LAST)`: what stands behind the bracket of a range.
fn read_range(inside: &[Token]) -> Result<(Term, &[Token]), ConditionStop>
    ensures reads { IfOk result (λ read. ReadsRange inside.now read.0 read.1.now) }
    ensures shorter { IfOk result (λ read. length read.1.now < length inside.now) }
    ensures none { IfErr result (λ stop. Refuses stop inside.now (NoRange inside.now)) }
{
    let (one, middle) = read_comparison(inside)?;
    let again = expect(middle, Token::And)?;
    let (other, end) = read_comparison(again)?;
    let rest = expect(end, Token::Close)?;
    match range_of(one, other) {
        Some(term) => Ok((term, rest)),
        None => Err(ConditionStop::NotUnderstood(inside.len())),
    }
}

/// One alternative, whose terms it puts behind others, and what stands behind it. So many brackets may be open in it.
#[cycle(alternatives)]
pub(crate) fn read_alternative<'a>(
    tokens: &'a [Token],
    terms: &mut Vec<Term>,
    room: usize,
) -> Result<&'a [Token], ConditionStop>
    ensures reads { IfOk result (λ rest. ReadsOne tokens.now terms.old.items terms.new.items rest.now) }
    ensures shorter { IfOk result (λ rest. length rest.now < length tokens.now) }
    ensures none { IfErr result (λ stop. Stops stop room tokens.now (NoAlternative tokens.now)) }
{
    if starts_comparison(tokens) {
        let (compared, rest) = read_comparison(tokens)?;
        terms.push(term_of(compared))?;
        return Ok(rest);
    }
    let inside = expect(tokens, Token::Open)?;
    if room == 0 {
        return Err(ConditionStop::TooDeep(tokens.len()));
    }
    if starts_range(inside) {
        let (term, rest) = read_range(inside)?;
        terms.push(term)?;
        return Ok(rest);
    }
    let end = read_alternatives(inside, terms, room - 1)?;
    let behind_it = expect(end, Token::Close)?;
    Ok(behind_it)
}

/// Alternatives with `||` between them, whose terms it puts behind others, and what stands behind the last.
#[cycle(alternatives)]
pub(crate) fn read_alternatives<'a>(
    tokens: &'a [Token],
    terms: &mut Vec<Term>,
    room: usize,
) -> Result<&'a [Token], ConditionStop>
    ensures reads { IfOk result (λ rest. ReadsSome tokens.now terms.old.items terms.new.items rest.now) }
    ensures shorter { IfOk result (λ rest. length rest.now < length tokens.now) }
    ensures none { IfErr result (λ stop. Stops stop room tokens.now (NoAlternatives tokens.now)) }
{
    let mut rest = read_alternative(tokens, terms, room)?;
    while let Some(more) = behind(rest, Token::Or) {
        let next = read_alternative(more, terms, room)?;
        rest = next;
    }
    Ok(rest)
}
