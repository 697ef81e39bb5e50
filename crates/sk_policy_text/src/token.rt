//! The words that conditions are made of.
ghost use Rattle.std.specs.Prelude.{◌≡◌, IfOk};
ghost use Rattle.sk_policy_text.specs.ConditionsTokens.{relation_named, operator_named, register_named, token_of, tokens_of};

use crate::word::Word;
use sk_replay::number_or_constant;
use sk_terms::Register;
use sk_text::is_same;
use std::alloc::{AllocFailed, Global};

/// How two numbers are compared.
#[derive(Clone, Copy, Debug, PartialEq, Eq)]
pub enum Relation {
    /// `==`
    Is,
    /// `!=`
    IsNot,
    /// `<`
    Below,
    /// `<=`
    AtMost,
    /// `>`
    Above,
    /// `>=`
    AtLeast,
}

/// A word of a condition.
#[derive(Clone, Copy, Debug, PartialEq, Eq)]
pub enum Token {
    /// `(`
    Open,
    /// `)`
    Close,
    /// `&&`
    And,
    /// `||`
    Or,
    /// `&`
    BitAnd,
    /// `|`
    BitOr,
    /// `~`
    BitNot,
    Compare(Relation),
    /// `nr`, `ip`, or `args[0]` to `args[5]`
    Register(Register),
    /// A number, or a constant of Linux's headers.
    Number(u64),
    /// What stands in no condition.
    Other,
}

// The relation that a word is.
#[tactic(auto, unfolding(crate::specs::ConditionsTokens::relation_named))]
fn relation_named(word: &[u8]) -> Option<Token>
    ensures named { result ≡ relation_named word.now }
{
    let relation = if is_same(word, b"==") {
        Relation::Is
    } else if is_same(word, b"!=") {
        Relation::IsNot
    } else if is_same(word, b"<") {
        Relation::Below
    } else if is_same(word, b"<=") {
        Relation::AtMost
    } else if is_same(word, b">") {
        Relation::Above
    } else if is_same(word, b">=") {
        Relation::AtLeast
    } else {
        return None;
    };
    Some(Token::Compare(relation))
}

// The operator that a word is, or the bracket.
#[tactic(auto, unfolding(crate::specs::ConditionsTokens::operator_named))]
fn operator_named(word: &[u8]) -> Option<Token>
    ensures named { result ≡ operator_named word.now }
{
    if is_same(word, b"(") {
        Some(Token::Open)
    } else if is_same(word, b")") {
        Some(Token::Close)
    } else if is_same(word, b"&&") {
        Some(Token::And)
    } else if is_same(word, b"||") {
        Some(Token::Or)
    } else if is_same(word, b"&") {
        Some(Token::BitAnd)
    } else if is_same(word, b"|") {
        Some(Token::BitOr)
    } else if is_same(word, b"~") {
        Some(Token::BitNot)
    } else {
        relation_named(word)
    }
}

#[tactic(auto, unfolding(crate::specs::ConditionsTokens::register_named))]
fn register_named(word: &[u8]) -> Option<Register>
    ensures named { result ≡ register_named word.now }
{
    if is_same(word, b"nr") {
        Some(Register::Number)
    } else if is_same(word, b"ip") {
        Some(Register::Pointer)
    } else if is_same(word, b"args[0]") {
        Some(Register::Argument(0))
    } else if is_same(word, b"args[1]") {
        Some(Register::Argument(1))
    } else if is_same(word, b"args[2]") {
        Some(Register::Argument(2))
    } else if is_same(word, b"args[3]") {
        Some(Register::Argument(3))
    } else if is_same(word, b"args[4]") {
        Some(Register::Argument(4))
    } else if is_same(word, b"args[5]") {
        Some(Register::Argument(5))
    } else {
        None
    }
}

/// What a word stands for in a condition.
#[tactic(auto, unfolding(crate::specs::ConditionsTokens::token_of))]
pub(crate) fn token_of(word: &[u8]) -> Token
    ensures token { result ≡ token_of word.now }
{
    if let Some(operator) = operator_named(word) {
        return operator;
    }
    if let Some(register) = register_named(word) {
        return Token::Register(register);
    }
    match number_or_constant(word) {
        Some(number) => Token::Number(number),
        None => Token::Other,
    }
}

/// What words stand for.
pub(crate) fn tokens_of(alloc: Global, words: &[Word<'_>]) -> Result<Vec<Token>, AllocFailed<Token>>
    ensures tokens { IfOk result (λ tokens. tokens.items ≡ tokens_of words.now) }
{
    let mut tokens = Vec::new(alloc);
    for word in words {
        tokens.push(token_of(word.text))?;
    }
    Ok(tokens)
}
