//! Values as headers and strace write them.
ghost use Rattle.std.specs.Prelude.{◌≡◌, ◌≤◌, IfSome, length};
ghost use Rattle.std.specs.Option.{option_map};
ghost use Rattle.sk_forms.specs.Values.{bits_at, bits_from, bracketed, element, masked, offset, operand, place_at, plain, sum_at, sum_from, value_at};

use crate::first::{behind, behind_word, field_at, number_at, small};
use crate::names::Word;
use crate::token::Token;

// The place of an element of the field at a place, where an index stands there.
#[tactic(auto, unfolding(crate::specs::Values::element))]
fn element(place: u32, tokens: &[Token]) -> Option<(u32, &[Token])>
    requires low { place ≤ 16 }
    ensures element { option_map (λ it. (it.0, it.1.now)) result ≡ element place tokens.now }
{
    match behind(b'[', tokens) {
        None => Some((place, tokens)),
        Some(inside) => {
            let (index, rest) = number_at(5, inside)?;
            let rest = behind(b']', rest)?;
            Some((place + 8 * index, rest))
        }
    }
}

#[tactic(auto, unfolding(crate::specs::Values::place_at))]
fn place_at(tokens: &[Token]) -> Option<(u32, &[Token])>
    ensures place { option_map (λ it. (it.0, it.1.now)) result ≡ place_at tokens.now }
{
    let (place, rest) = field_at(tokens)?;
    if place == 16 {
        element(place, rest)
    } else {
        Some((place, rest))
    }
}

#[tactic(auto, unfolding(crate::specs::Values::offset))]
fn offset(tokens: &[Token]) -> Option<(u32, &[Token])>
    ensures offset { option_map (λ it. (it.0, it.1.now)) result ≡ offset tokens.now }
{
    let called = behind_word(Word::Offset, tokens)?;
    let inside = behind(b'(', called)?;
    let kind = behind_word(Word::Struct, inside)?;
    let of = behind_word(Word::Data, kind)?;
    let field = behind(b',', of)?;
    let (place, rest) = place_at(field)?;
    let rest = behind(b')', rest)?;
    Some((place, rest))
}

#[tactic(auto, unfolding(crate::specs::Values::plain))]
fn plain(tokens: &[Token]) -> Option<(u32, &[Token])>
    ensures plain { option_map (λ it. (it.0, it.1.now)) result ≡ plain tokens.now }
{
    match number_at(0xffff_ffff, tokens) {
        Some(number) => Some(number),
        None => offset(tokens),
    }
}

// A number, or what a mask behind it leaves of it.
#[tactic(auto, unfolding(crate::specs::Values::masked))]
fn masked(number: u32, tokens: &[Token]) -> Option<(u32, &[Token])>
    ensures masked { option_map (λ it. (it.0, it.1.now)) result ≡ masked number tokens.now }
{
    match behind(b'&', tokens) {
        None => Some((number, tokens)),
        Some(next) => {
            let (mask, rest) = plain(next)?;
            Some((number & mask, rest))
        }
    }
}

#[tactic(auto, unfolding(crate::specs::Values::bracketed))]
fn bracketed(tokens: &[Token]) -> Option<(u32, &[Token])>
    ensures bracketed { option_map (λ it. (it.0, it.1.now)) result ≡ bracketed tokens.now }
{
    let inside = behind(b'(', tokens)?;
    let (first, rest) = plain(inside)?;
    let (both, rest) = masked(first, rest)?;
    let rest = behind(b')', rest)?;
    Some((both, rest))
}

#[tactic(auto, unfolding(crate::specs::Values::operand))]
fn operand(tokens: &[Token]) -> Option<(u32, &[Token])>
    ensures operand { option_map (λ it. (it.0, it.1.now)) result ≡ operand tokens.now }
{
    match plain(tokens) {
        Some(number) => Some(number),
        None => bracketed(tokens),
    }
}

// Operands with `+` between them.
#[tactic(auto, unfolding(crate::specs::Values::sum_at))]
fn sum_at(tokens: &[Token]) -> Option<(u32, &[Token])>
    ensures sum { option_map (λ it. (it.0, it.1.now)) result ≡ sum_at tokens.now }
{
    let (first, rest) = operand(tokens)?;
    sum_from(first, rest)
}

fn sum_from<'a>(first: u32, tokens: &'a [Token]) -> Option<(u32, &'a [Token])>
    ensures sum { option_map (λ it. (it.0, it.1.now)) result ≡ sum_from (length tokens.now) first tokens.now }
{
    let mut sum = first;
    let mut rest = tokens;
    for _turn in 0..tokens.len() {
        let Some(next) = behind(b'+', rest) else {
            return Some((sum, rest));
        };
        let (more, after) = operand(next)?;
        sum = sum.checked_add(more)?;
        rest = after;
    }
    Some((sum, rest))
}

// Sums with `|` between them.
#[tactic(auto, unfolding(crate::specs::Values::bits_at))]
fn bits_at(tokens: &[Token]) -> Option<(u32, &[Token])>
    ensures bits { option_map (λ it. (it.0, it.1.now)) result ≡ bits_at tokens.now }
{
    let (first, rest) = sum_at(tokens)?;
    bits_from(first, rest)
}

fn bits_from<'a>(first: u32, tokens: &'a [Token]) -> Option<(u32, &'a [Token])>
    ensures bits { option_map (λ it. (it.0, it.1.now)) result ≡ bits_from (length tokens.now) first tokens.now }
{
    let mut bits = first;
    let mut rest = tokens;
    for _turn in 0..tokens.len() {
        let Some(next) = behind(b'|', rest) else {
            return Some((bits, rest));
        };
        let (more, after) = sum_at(next)?;
        bits |= more;
        rest = after;
    }
    Some((bits, rest))
}

/// The value that the tokens begin with, where it is at most so large, and what stands behind it.
#[tactic(auto, unfolding(crate::specs::Values::value_at))]
pub(crate) fn value_at(most: u32, tokens: &[Token]) -> Option<(u32, &[Token])>
    ensures value { option_map (λ it. (it.0, it.1.now)) result ≡ value_at most tokens.now }
    ensures bound { IfSome result (λ it. it.0 ≤ most) }
{
    let (bits, rest) = bits_at(tokens)?;
    let value = small(most, Some(bits))?;
    Some((value, rest))
}
