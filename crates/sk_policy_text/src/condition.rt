//! Conditions: alternatives, or alternatives that all hold.
ghost use Rattle.std.specs.Prelude.{◌≡◌, ◌∷◌, [], length, IfErr, IfNone, IfOk, IfSome, OnOk};
ghost use Rattle.sk_policy_text.specs.declared.token.Token.TheVariants as word;
ghost use Rattle.sk_policy_text.specs.ConditionsTokens.{tokens_of};
ghost use Rattle.sk_policy_text.specs.ConditionsRead.{NoCondition, ReadsCondition, IsRefused, IsWithin, IsTooDeep};
ghost use Rattle.sk_policy_text.specs.ConditionsReading.{fault_of, lists_of, NotAlone, IsCondition, NoWritten, ReadsOthers, NoOthers, ReadsEach, NoEach, Stops};

use crate::alternatives::{read_alternative, read_alternatives};
use crate::condition_stop::ConditionStop;
use crate::first::{behind, number_first};
use crate::token::{Token, tokens_of};
use crate::word::Word;
use sk_terms::{Choice, Term};
use std::alloc::{AllocError, AllocFailed, Global};

/// The most brackets that may be open at once: what reads them calls itself for each.
const MOST_OPEN: usize = 64;

/// Why words are no condition, with how many of them stand before the one where it is seen: all of them at the end.
#[derive(Clone, Copy, Debug, PartialEq, Eq)]
pub enum ConditionFault {
    /// They are not written so.
    NotUnderstood(usize),
    /// A bracket opens, and 64 are open.
    TooDeep(usize),
    /// Memory was refused.
    Memory,
}

impl From<AllocError> for ConditionFault {
    ghost use Rattle.std.specs.Prelude.{◌≡◌};
    ghost use Rattle.sk_policy_text.specs.declared.condition.ConditionFault.TheVariants.{Memory};

    ghost from_gives = { λ _ fault. fault ≡ Memory };

    fn from(_refused: AllocError) -> ConditionFault {
        ConditionFault::Memory
    }
}

impl<T: Drop> From<AllocFailed<T>> for ConditionFault {
    ghost use Rattle.std.specs.Prelude.{◌≡◌};
    ghost use Rattle.sk_policy_text.specs.declared.condition.ConditionFault.TheVariants.{Memory};

    ghost from_gives = { λ _ fault. fault ≡ Memory };

    fn from(_refused: AllocFailed<T>) -> ConditionFault {
        ConditionFault::Memory
    }
}

// Why words are refused, of so many.
fn fault_of(stop: ConditionStop, words: usize) -> ConditionFault
    ensures fault { result ≡ fault_of stop words }
{
    match stop {
        ConditionStop::NotUnderstood(left) => ConditionFault::NotUnderstood(words.saturating_sub(
            left,
        )),
        ConditionStop::TooDeep(left) => ConditionFault::TooDeep(words.saturating_sub(left)),
        ConditionStop::Memory => ConditionFault::Memory,
    }
}

// The number that stands there alone.
fn alone(tokens: &[Token]) -> Option<u64>
    ensures alone { IfSome result (λ n. tokens.now ≡ word.Number n ∷ []) }
    ensures none { IfNone result (NotAlone tokens.now) }
{
    let (number, rest) = number_first(tokens)?;
    if rest.is_empty() { Some(number) } else { None }
}

// One choice of terms.
fn one_choice(alloc: Global, terms: Vec<Term>) -> Result<Vec<Choice>, AllocFailed<Choice>>
    ensures one { IfOk result (λ choices. lists_of choices.items ≡ terms.items ∷ []) }
{
    let mut choices = Vec::new(alloc);
    choices.push(Choice { terms })?;
    Ok(choices)
}

// The alternatives behind the first one, up to the end.
fn read_others(
    alloc: Global,
    tokens: &[Token],
    mut terms: Vec<Term>,
) -> Result<Vec<Choice>, ConditionStop>
    ensures reads { IfOk result (λ choices. ReadsOthers tokens.now terms.items choices.items) }
    ensures none { IfErr result (λ stop. Stops stop 64 tokens.now (NoOthers tokens.now)) }
{
    let end = read_alternatives(tokens, &mut terms, MOST_OPEN)?;
    if !end.is_empty() {
        return Err(ConditionStop::NotUnderstood(end.len()));
    }
    let choices = one_choice(alloc, terms)?;
    Ok(choices)
}

// Alternatives that have to hold too, each behind `&&`, up to the end.
fn read_each(
    alloc: Global,
    tokens: &[Token],
    choices: &mut Vec<Choice>,
) -> Result<(), ConditionStop>
    ensures reads { OnOk result (ReadsEach tokens.now choices.old.items choices.new.items) }
    ensures none { IfErr result (λ stop. Stops stop 64 tokens.now (NoEach tokens.now)) }
{
    let mut rest = tokens;
    while let Some(more) = behind(rest, Token::And) {
        let mut terms = Vec::new(alloc);
        rest = read_alternative(more, &mut terms, MOST_OPEN)?;
        choices.push(Choice { terms })?;
    }
    if rest.is_empty() {
        Ok(())
    } else {
        Err(ConditionStop::NotUnderstood(rest.len()))
    }
}

// A condition that is no number alone.
fn read_written(alloc: Global, tokens: &[Token]) -> Result<Vec<Choice>, ConditionStop>
    ensures reads { IfOk result (λ choices. IsCondition tokens.now choices.items) }
    ensures none { IfErr result (λ stop. Stops stop 64 tokens.now (NoWritten tokens.now)) }
{
    let mut terms = Vec::new(alloc);
    let rest = read_alternative(tokens, &mut terms, MOST_OPEN)?;
    if let Some(more) = behind(rest, Token::Or) {
        return read_others(alloc, more, terms);
    }
    let mut choices = one_choice(alloc, terms)?;
    read_each(alloc, rest, &mut choices)?;
    Ok(choices)
}

// A condition.
fn read_condition(alloc: Global, tokens: &[Token]) -> Result<Vec<Choice>, ConditionStop>
    ensures reads { IfOk result (λ choices. IsCondition tokens.now choices.items) }
    ensures none { IfErr result (λ stop. Stops stop 64 tokens.now (NoCondition tokens.now)) }
{
    match alone(tokens) {
        Some(1) => Ok(Vec::new(alloc)),
        Some(0) => {
            let choices = one_choice(alloc, Vec::new(alloc))?;
            Ok(choices)
        }
        Some(_number) => Err(ConditionStop::NotUnderstood(tokens.len())),
        None => read_written(alloc, tokens),
    }
}

/// The choices that a condition stands for: a call meets it where of each choice one term holds. All numbers are unsigned and of
/// 64 bits. A fault tells how many words stand before the one where it is seen, and an error of memory comes whatever the words.
pub fn condition_of(alloc: Global, words: &[Word<'_>]) -> Result<Vec<Choice>, ConditionFault>
    ensures reads { IfOk result (λ choices. ReadsCondition (tokens_of words.now) choices.items) }
    ensures none { IfErr result (λ fault. IsRefused fault (tokens_of words.now)) }
    ensures within { IfErr result (λ fault. IsWithin fault (length words.now)) }
    ensures deep { IfErr result (λ fault. IsTooDeep fault (tokens_of words.now)) }
{
    let tokens = tokens_of(alloc, words)?;
    match read_condition(alloc, tokens.as_slice()) {
        Ok(choices) => Ok(choices),
        Err(stop) => Err(fault_of(stop, words.len())),
    }
}
