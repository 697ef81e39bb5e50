//! Words of a task that are numbers.
use crate::fault::Fault;
use sk_text::number_up_to;

/// The number that a word is.
pub fn number_of(word: Option<&[u8]>) -> Result<u32, Fault> {
    let word = word.ok_or(Fault::NotUnderstood)?;
    let number = number_up_to(word, 0xffff_ffff).ok_or(Fault::NotUnderstood)?;
    Ok(number as u32)
}
