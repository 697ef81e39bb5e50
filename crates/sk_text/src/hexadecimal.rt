//! Hexadecimal digits: in input pairs that are bytes, in output without memory.
ghost use Rattle.std.specs.Prelude.{◌≡◌, ◌*◌, ℕ, List, Some, IfOk, filter, length, not};
ghost use Rattle.std.specs.List.{concat};
ghost use Rattle.std.specs.Str.{IsAscii};
ghost use Rattle.hex.specs.Hex.{encode_lower};
ghost use Rattle.sk_text.specs.Lines.{words_of};
ghost use Rattle.sk_text.specs.Hexadecimal.{Decodes, bytes_in, hex_bytes, hex_half, hex_text_bytes, hex_word, is_blank};
ghost use Rattle.sk_text.specs.declared.hexadecimal.HexFault.TheVariants.{Memory};

use crate::lines::{Words, cut};
use hex::FromHexError;
use std::alloc::{AllocError, Global};
use std::marker::Model;
use std::{fmt, str};

/// Why digits are no bytes.
#[derive(Clone, Copy, Debug, PartialEq, Eq)]
pub enum HexFault {
    /// A byte is no digit, or their number is odd.
    NotHexadecimal,
    /// Memory was refused.
    Memory,
}

impl From<AllocError> for HexFault {
    ghost from_gives = { λ _ fault. fault ≡ Memory };

    fn from(_refused: AllocError) -> HexFault {
        HexFault::Memory
    }
}

/// The bytes that the digits of these words are, joined. One word alone is read where it stands.
#[tactic(auto, using(crate::proofs::Cuts::joined_alone))]
pub fn bytes_of(alloc: Global, words: Words<'_>) -> Result<Vec<u8>, HexFault>
    ensures exact { Decodes (λ bytes. bytes.items) result (hex_bytes (words_of words.entry.0.now)) }
{
    let (word, rest) = cut(words.0, b' ');
    if rest.is_empty() {
        return decoded(alloc, word);
    }
    let digits = joined(alloc, words)?;
    decoded(alloc, digits.as_slice())
}

/// The bytes that the digits of a text are, wherever spaces and line ends part them.
pub fn bytes_of_text(alloc: Global, text: &[u8]) -> Result<Vec<u8>, HexFault>
    ensures exact { Decodes (λ bytes. bytes.items) result (hex_text_bytes text.now) }
{
    let digits = without_blanks(alloc, text)?;
    decoded(alloc, digits.as_slice())
}

// A piece between two spaces that is empty is no word, and has no digit.
fn joined(alloc: Global, words: Words<'_>) -> Result<Vec<u8>, AllocError>
    ensures all { IfOk result (λ digits. digits.items ≡ concat (words_of words.entry.0.now)) }
{
    let mut digits = Vec::new(alloc);
    let mut rest = words.0;
    while !rest.is_empty() {
        let (word, after) = cut(rest, b' ');
        digits.extend_from_slice(word)?;
        rest = after;
    }
    Ok(digits)
}

fn without_blanks(alloc: Global, text: &[u8]) -> Result<Vec<u8>, AllocError>
    ensures rest { IfOk result (λ digits. digits.items ≡ filter (λ byte. not (is_blank byte)) text.now) }
{
    text.iter()
        .copied()
        .filter(|byte| !matches!(*byte, b' ' | b'\n'))
        .collect(alloc)
}

#[tactic(auto, unfolding(crate::specs::Hexadecimal::bytes_in))]
fn decoded(alloc: Global, digits: &[u8]) -> Result<Vec<u8>, HexFault>
    ensures exact { Decodes (λ bytes. bytes.items) result (bytes_in digits.now) }
{
    match hex::decode(alloc, digits) {
        Ok(bytes) => Ok(bytes),
        Err(FromHexError::OutOfMemory) => Err(HexFault::Memory),
        Err(_) => Err(HexFault::NotHexadecimal),
    }
}

/// Bytes as `N` lower case hexadecimal digits, two for each.
#[derive(Drop)]
pub struct HexDigits<const N: usize> {
    digits: [u8; N],
}

impl<const N: usize> Model for HexDigits<N> {
    ghost Value = { List ℕ };

    ghost view = { λ text. text.digits };

    ghost invariant = { λ text. IsAscii text.digits };
}

impl<const N: usize> HexDigits<N> {
    /// The digits of these bytes.
    pub fn of(bytes: &[u8]) -> Self
        requires room { N ≡ 2 * length bytes.now }
        ensures digits { result ≡ encode_lower bytes.now }
    {
        let mut digits = [0; N];
        hex::encode_to_slice(bytes, &mut digits).unwrap();
        HexDigits { digits }
    }

    /// The digits as a text.
    pub fn as_str(&self) -> &str
        ensures same { result.now ≡ self.now }
    {
        str::from_utf8(&self.digits).unwrap()
    }
}

impl<const N: usize> fmt::Display for HexDigits<N> {
    ghost output = { λ text. Some text };

    fn fmt<W: fmt::Write>(&self, f: &mut fmt::Formatter<W>) -> fmt::Result {
        f.write_str(self.as_str())
    }
}

/// A number of 32 bits in 8 digits.
#[tactic(auto, unfolding(crate::specs::Hexadecimal::hex_word))]
pub fn hex_word(word: u32) -> HexDigits<8>
    ensures digits { result ≡ hex_word word }
{
    HexDigits::of(&word.to_be_bytes())
}

/// A number of 16 bits in 4 digits.
#[tactic(auto, unfolding(crate::specs::Hexadecimal::hex_half))]
pub fn hex_half(half: u16) -> HexDigits<4>
    ensures digits { result ≡ hex_half half }
{
    HexDigits::of(&half.to_be_bytes())
}
