//! The first of some tokens.
ghost use Rattle.std.specs.Prelude.{◌≡◌, ◌∷◌, ◌↔◌, IfErr, IfNone, IfOk, IfSome, IsTrue};
ghost use Rattle.sk_policy.specs.Policies.{IsThere};
ghost use Rattle.sk_policy_text.specs.declared.token.Token.TheVariants as word;
ghost use Rattle.sk_policy_text.specs.ConditionsReading.{number_in, relation_in, register_of_token, BeginsNot, NoNumber, NoRelation, NoRegister, Refuses};

use crate::condition_stop::ConditionStop;
use crate::token::{Relation, Token};
use sk_terms::Register;

/// What stands behind this token.
pub(crate) fn behind(tokens: &[Token], token: Token) -> Option<&[Token]>
    ensures first { IfSome result (λ rest. tokens.now ≡ token ∷ rest.now) }
    ensures none { IfNone result (BeginsNot token tokens.now) }
{
    let (first, rest) = tokens.split_first()?;
    if *first == token { Some(rest) } else { None }
}

/// What stands behind this token, which has to be the first.
pub(crate) fn expect(tokens: &[Token], token: Token) -> Result<&[Token], ConditionStop>
    ensures first { IfOk result (λ rest. tokens.now ≡ token ∷ rest.now) }
    ensures none { IfErr result (λ stop. Refuses stop tokens.now (BeginsNot token tokens.now)) }
{
    match behind(tokens, token) {
        Some(rest) => Ok(rest),
        None => Err(ConditionStop::NotUnderstood(tokens.len())),
    }
}

fn number_in(token: Token) -> Option<u64>
    ensures number { result ≡ number_in token }
{
    match token {
        Token::Number(number) => Some(number),
        _ => None,
    }
}

fn relation_in(token: Token) -> Option<Relation>
    ensures relation { result ≡ relation_in token }
{
    match token {
        Token::Compare(relation) => Some(relation),
        _ => None,
    }
}

fn register_in(token: Token) -> Option<Register>
    ensures register { result ≡ register_of_token token }
{
    match token {
        Token::Register(register) => Some(register),
        _ => None,
    }
}

// Whether a call has the register.
fn is_there(register: Register) -> bool
    ensures there { IsTrue result ↔ IsThere register }
{
    match register {
        Register::Number => true,
        Register::Pointer => true,
        Register::Argument(i) => i < 6,
    }
}

/// A number, and what stands behind it.
pub(crate) fn number_first(tokens: &[Token]) -> Option<(u64, &[Token])>
    ensures first { IfSome result (λ read. tokens.now ≡ word.Number read.0 ∷ read.1.now) }
    ensures none { IfNone result (NoNumber tokens.now) }
{
    let (first, rest) = tokens.split_first()?;
    let number = number_in(*first)?;
    Some((number, rest))
}

fn relation_first(tokens: &[Token]) -> Option<(Relation, &[Token])>
    ensures first { IfSome result (λ read. tokens.now ≡ word.Compare read.0 ∷ read.1.now) }
    ensures none { IfNone result (NoRelation tokens.now) }
{
    let (first, rest) = tokens.split_first()?;
    let relation = relation_in(*first)?;
    Some((relation, rest))
}

/// A register that a call has, and what stands behind it.
pub(crate) fn register_first(tokens: &[Token]) -> Option<(Register, &[Token])>
    ensures first { IfSome result (λ read. tokens.now ≡ word.Register read.0 ∷ read.1.now) }
    ensures there { IfSome result (λ read. IsThere read.0) }
    ensures none { IfNone result (NoRegister tokens.now) }
{
    let (first, rest) = tokens.split_first()?;
    let register = register_in(*first)?;
    if is_there(register) {
        Some((register, rest))
    } else {
        None
    }
}

/// A number, which has to be the first, and what stands behind it.
pub(crate) fn number_at(tokens: &[Token]) -> Result<(u64, &[Token]), ConditionStop>
    ensures first { IfOk result (λ read. tokens.now ≡ word.Number read.0 ∷ read.1.now) }
    ensures none { IfErr result (λ stop. Refuses stop tokens.now (NoNumber tokens.now)) }
{
    match number_first(tokens) {
        Some(read) => Ok(read),
        None => Err(ConditionStop::NotUnderstood(tokens.len())),
    }
}

/// A relation, which has to be the first, and what stands behind it.
pub(crate) fn relation_at(tokens: &[Token]) -> Result<(Relation, &[Token]), ConditionStop>
    ensures first { IfOk result (λ read. tokens.now ≡ word.Compare read.0 ∷ read.1.now) }
    ensures none { IfErr result (λ stop. Refuses stop tokens.now (NoRelation tokens.now)) }
{
    match relation_first(tokens) {
        Some(read) => Ok(read),
        None => Err(ConditionStop::NotUnderstood(tokens.len())),
    }
}

/// A register, which has to be the first, and what stands behind it.
pub(crate) fn register_at(tokens: &[Token]) -> Result<(Register, &[Token]), ConditionStop>
    ensures first { IfOk result (λ read. tokens.now ≡ word.Register read.0 ∷ read.1.now) }
    ensures there { IfOk result (λ read. IsThere read.0) }
    ensures none { IfErr result (λ stop. Refuses stop tokens.now (NoRegister tokens.now)) }
{
    match register_first(tokens) {
        Some(read) => Ok(read),
        None => Err(ConditionStop::NotUnderstood(tokens.len())),
    }
}
