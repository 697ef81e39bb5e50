//! Lines that say what is wrong.
ghost use Rattle.std.specs.Prelude.{◌≡◌, IfOk, string_bytes};
ghost use Rattle.sk_ask.specs.Complaints.{about, of_word, shown, shown_byte};

use std::alloc::{AllocError, Global};

/// The line that says what is wrong with the file of this name.
pub fn about(alloc: Global, name: &str, what: &str) -> Result<Vec<u8>, AllocError>
    ensures line { IfOk result (λ line. line.items ≡ about name.now what.now) }
{
    let mut line = Vec::new(alloc);
    line.extend_from_slice(b"ask: ")?;
    line.extend_from_slice(&shown(alloc, name.as_bytes())?)?;
    line.extend_from_slice(b": ")?;
    line.extend_from_slice(what.as_bytes())?;
    line.extend_from_slice(b"\n")?;
    Ok(line)
}

/// The line that says what is wrong, with the word that is meant at its end.
pub fn of_word(alloc: Global, what: &str, word: &[u8]) -> Result<Vec<u8>, AllocError>
    ensures line { IfOk result (λ line. line.items ≡ of_word what.now word.now) }
{
    let mut line = Vec::new(alloc);
    line.extend_from_slice(b"ask: ")?;
    line.extend_from_slice(what.as_bytes())?;
    line.extend_from_slice(&shown(alloc, word)?)?;
    line.extend_from_slice(b"\n")?;
    Ok(line)
}

/// A name as it is shown in an answer.
pub fn shown_name(alloc: Global, name: &str) -> Result<String, AllocError>
    ensures shown { IfOk result (λ text. string_bytes text ≡ shown name.now) }
{
    String::from_utf8_lossy(alloc, &shown(alloc, name.as_bytes())?)
}

/// A word with a question mark for each byte that would end the line or change how it is shown.
pub(crate) fn shown(alloc: Global, word: &[u8]) -> Result<Vec<u8>, AllocError>
    ensures bytes { IfOk result (λ bytes. bytes.items ≡ shown word.now) }
{
    word.iter().map(|byte| shown_byte(*byte)).collect(alloc)
}

#[tactic(auto, unfolding(crate::specs::Complaints::shown_byte))]
fn shown_byte(byte: u8) -> u8
    ensures byte { result ≡ shown_byte byte }
{
    if byte < 32 || byte == 127 { b'?' } else { byte }
}
