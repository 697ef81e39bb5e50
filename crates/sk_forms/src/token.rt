//! What the words of a text stand for.
ghost use Rattle.std.specs.Prelude.{◌≡◌, IfOk};
ghost use Rattle.sk_forms.specs.Comments.{uncommented};
ghost use Rattle.sk_forms.specs.Tokens.{place_in, field_in, is_word, decimal, hexadecimal, is_letter_behind, is_sign, decimal_in, number_token, number_in, padded, token_of, tokens_in, tokens_of, without_letter};

use crate::comments::uncommented;
use crate::cutting::TextWords;
use crate::names::{Name, Word, name_of, same_word};
use sk_text::number_up_to;
use std::alloc::{AllocError, Global};

/// A word of a published filter.
#[derive(Clone, Copy, Debug, PartialEq, Eq)]
pub enum Token {
    /// A number in decimal digits, of which the first is no 0 where there are more.
    Decimal(u32),
    /// A number in hexadecimal digits, behind `0x`.
    Hexadecimal(u32),
    /// A number in decimal digits behind a 0, which C takes for an octal one.
    Padded(u32),
    /// A name.
    Name(Name),
    /// A byte that stands in no name and in no number.
    Sign(u8),
    /// A number that is too large, or none.
    Other,
}

#[tactic(auto, unfolding(crate::specs::Tokens::is_letter_behind))]
fn is_letter_behind(byte: u8) -> bool
    ensures kind { result ≡ is_letter_behind byte }
{
    matches!(byte, b'u' | b'U' | b'l' | b'L')
}

// A number without the letter of C's suffixes that may end it.
#[tactic(auto, unfolding(crate::specs::Tokens::without_letter))]
fn without_letter(word: &[u8]) -> &[u8]
    ensures rest { result.now ≡ without_letter word.now }
{
    match word.last() {
        Some(last) if is_letter_behind(*last) => &word[..word.len() - 1],
        _ => word,
    }
}

#[tactic(auto, unfolding(crate::specs::Tokens::hexadecimal))]
fn hexadecimal(digits: &[u8]) -> Token
    ensures token { result ≡ hexadecimal digits.now }
{
    match number_up_to(digits, 0xffff_ffff) {
        Some(number) => Token::Hexadecimal(number as u32),
        None => Token::Other,
    }
}

#[tactic(auto, unfolding(crate::specs::Tokens::padded))]
fn padded(digits: &[u8]) -> Token
    ensures token { result ≡ padded digits.now }
{
    match number_up_to(digits, 0xffff_ffff) {
        Some(number) => Token::Padded(number as u32),
        None => Token::Other,
    }
}

#[tactic(auto, unfolding(crate::specs::Tokens::decimal))]
fn decimal(digits: &[u8]) -> Token
    ensures token { result ≡ decimal digits.now }
{
    match number_up_to(digits, 0xffff_ffff) {
        Some(number) => Token::Decimal(number as u32),
        None => Token::Other,
    }
}

#[tactic(auto, unfolding(crate::specs::Tokens::number_token))]
fn number_token(word: &[u8]) -> Token
    ensures token { result ≡ number_token word.now }
{
    let digits = without_letter(without_letter(without_letter(word)));
    if digits.starts_with(b"0x") {
        hexadecimal(digits)
    } else if digits.len() > 1 && digits.first() == Some(&b'0') {
        padded(digits)
    } else {
        decimal(digits)
    }
}

/// What a word stands for.
#[tactic(auto, unfolding(crate::specs::Tokens::token_of))]
fn token_of(word: &[u8]) -> Token
    ensures token { result ≡ token_of word.now }
{
    match word.first() {
        Some(b'0'..=b'9') => number_token(word),
        Some(b'a'..=b'z' | b'A'..=b'Z' | b'_') => Token::Name(name_of(word)),
        Some(byte) => Token::Sign(*byte),
        None => Token::Other,
    }
}

/// What the words of a text stand for.
pub(crate) fn tokens_of(alloc: Global, text: &[u8]) -> Result<Vec<Token>, AllocError>
    ensures exact { IfOk result (λ tokens. tokens.items ≡ tokens_of text.now) }
{
    let mut tokens = Vec::new(alloc);
    for word in TextWords(text) {
        tokens.push(token_of(word))?;
    }
    Ok(tokens)
}

/// The same of a text with comments of C.
pub(crate) fn tokens_in(alloc: Global, text: &[u8]) -> Result<Vec<Token>, AllocError>
    ensures exact { IfOk result (λ tokens. tokens.items ≡ tokens_in text.now) }
{
    let code = uncommented(alloc, text)?;
    tokens_of(alloc, &code)
}

pub(crate) fn is_sign(token: Token, byte: u8) -> bool
    ensures sign { result ≡ is_sign byte token }
{
    match token {
        Token::Sign(sign) => sign == byte,
        _ => false,
    }
}

/// The number that a token is in C.
pub(crate) fn number_in(token: Token) -> Option<u32>
    ensures number { result ≡ number_in token }
{
    match token {
        Token::Decimal(number) | Token::Hexadecimal(number) => Some(number),
        Token::Padded(0) => Some(0),
        Token::Name(Name::Constant(number)) => Some(number),
        _ => None,
    }
}

/// The number that a token is in decimal digits.
pub(crate) fn decimal_in(token: Token) -> Option<u32>
    ensures number { result ≡ decimal_in token }
{
    match token {
        Token::Decimal(number) => Some(number),
        _ => None,
    }
}

/// Whether a token is this word.
pub(crate) fn is_word(token: Token, wanted: Word) -> bool
    ensures word { result ≡ is_word wanted token }
{
    match token {
        Token::Name(Name::Word(word)) => same_word(word, wanted),
        _ => false,
    }
}

/// The field of `struct seccomp_data` that a token names.
pub(crate) fn field_in(token: Token) -> Option<u32>
    ensures field { result ≡ field_in token }
{
    match token {
        Token::Name(Name::Field(place)) => Some(place),
        _ => None,
    }
}

/// The number of a row that a token is, in decimal digits.
pub(crate) fn place_in(token: Token) -> Option<u32>
    ensures number { result ≡ place_in token }
{
    match token {
        Token::Decimal(number) | Token::Padded(number) => Some(number),
        _ => None,
    }
}
