//! What tokens begin with, and what stands behind it.
ghost use Rattle.std.specs.Prelude.{◌≡◌, ◌==◌, ◌≤◌, length, IfSome};
ghost use Rattle.std.specs.List.{before_first, after_first, position_or_len};
ghost use Rattle.std.specs.Option.{option_map};
ghost use Rattle.sk_forms.specs.Tokens.{is_sign};
ghost use Rattle.sk_forms.specs.Grammar.{behind, behind_word, decimal_at, field_at, number_at, past, small};

use crate::names::Word;
use crate::token::{Token, decimal_in, field_in, is_sign, is_word, number_in};

/// What stands behind a sign, where the tokens begin with it.
#[tactic(auto, unfolding(crate::specs::Grammar::behind))]
pub(crate) fn behind(sign: u8, tokens: &[Token]) -> Option<&[Token]>
    ensures behind { option_map (λ rest. rest.now) result ≡ behind sign tokens.now }
{
    let (token, rest) = tokens.split_first()?;
    if is_sign(*token, sign) {
        Some(rest)
    } else {
        None
    }
}

/// What stands behind a sign, which may be missing.
#[tactic(auto, unfolding(crate::specs::Grammar::past))]
pub(crate) fn past(sign: u8, tokens: &[Token]) -> &[Token]
    ensures past { result.now ≡ past sign tokens.now }
{
    match behind(sign, tokens) {
        Some(rest) => rest,
        None => tokens,
    }
}

/// What stands behind a word, where the tokens begin with it.
#[tactic(auto, unfolding(crate::specs::Grammar::behind_word))]
pub(crate) fn behind_word(word: Word, tokens: &[Token]) -> Option<&[Token]>
    ensures behind { option_map (λ rest. rest.now) result ≡ behind_word word tokens.now }
{
    let (token, rest) = tokens.split_first()?;
    if is_word(*token, word) {
        Some(rest)
    } else {
        None
    }
}

/// The field of `struct seccomp_data` that the tokens begin with, and what stands behind it.
#[tactic(auto, unfolding(crate::specs::Grammar::field_at))]
pub(crate) fn field_at(tokens: &[Token]) -> Option<(u32, &[Token])>
    ensures field { option_map (λ it. (it.0, it.1.now)) result ≡ field_at tokens.now }
{
    let (token, rest) = tokens.split_first()?;
    let place = field_in(*token)?;
    Some((place, rest))
}

/// A number that is there, and at most so large.
pub(crate) fn small(most: u32, number: Option<u32>) -> Option<u32>
    ensures small { result ≡ small most number }
    ensures bound { IfSome result (λ number. number ≤ most) }
{
    let number = number?;
    if number <= most { Some(number) } else { None }
}

/// The number that the tokens begin with, and what stands behind it.
#[tactic(auto, unfolding(crate::specs::Grammar::number_at))]
pub(crate) fn number_at(most: u32, tokens: &[Token]) -> Option<(u32, &[Token])>
    ensures number { option_map (λ it. (it.0, it.1.now)) result ≡ number_at most tokens.now }
    ensures bound { IfSome result (λ it. it.0 ≤ most) }
{
    let (token, rest) = tokens.split_first()?;
    let number = small(most, number_in(*token))?;
    Some((number, rest))
}

/// The same of a number in decimal digits.
#[tactic(auto, unfolding(crate::specs::Grammar::decimal_at))]
pub(crate) fn decimal_at(most: u32, tokens: &[Token]) -> Option<(u32, &[Token])>
    ensures number { option_map (λ it. (it.0, it.1.now)) result ≡ decimal_at most tokens.now }
    ensures bound { IfSome result (λ it. it.0 ≤ most) }
{
    let (token, rest) = tokens.split_first()?;
    let number = small(most, decimal_in(*token))?;
    Some((number, rest))
}

/// What stands before the first such sign, and what stands behind it; all and nothing where there is none.
pub(crate) fn cut_at(sign: u8, tokens: &[Token]) -> (&[Token], &[Token])
    ensures front { result.0.now ≡ before_first (is_sign sign) tokens.now }
    ensures back { result.1.now ≡ after_first (is_sign sign) tokens.now }
{
    let at = place_of(sign, tokens);
    if at < tokens.len() {
        (&tokens[..at], &tokens[at + 1..])
    } else {
        (tokens, &[])
    }
}

// The place of the first such sign, or the length where there is none.
fn place_of(sign: u8, tokens: &[Token]) -> usize
    ensures within { result ≤ length tokens.now }
    ensures first { result ≡ position_or_len (is_sign sign) tokens.now }
{
    for (at, token) in tokens.iter().enumerate() {
        if is_sign(*token, sign) {
            return at;
        }
    }
    tokens.len()
}
