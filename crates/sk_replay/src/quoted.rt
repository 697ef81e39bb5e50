//! Texts in double quotes.
ghost use Rattle.std.specs.Prelude.{◌≡◌, IfOk};
ghost use Rattle.std.specs.Option.{option_map};
ghost use Rattle.sk_replay.specs.CallWords.{plain_of};

use crate::cuts::cut_at;
use std::alloc::{AllocError, Global};

/// Where a text in double quotes lies: in an argument, neither half of which is 0.
const ADDRESS: &str = " 0x7fffffffe000 ";

/// A word with an address for each text in double quotes, where the last of these is closed.
pub fn plain_word(alloc: Global, word: &[u8]) -> Result<Option<Vec<u8>>, AllocError>
    ensures plain { IfOk result (λ it. option_map (λ plain. plain.items) it ≡ plain_of word.now) }
{
    let mut plain = Vec::new(alloc);
    let mut rest = word;
    while let Some((outside, behind)) = cut_at(rest, b'"') {
        let Some((_inside, after)) = cut_at(behind, b'"') else {
            return Ok(None);
        };
        plain.extend_from_slice(outside)?;
        plain.extend_from_slice(ADDRESS.as_bytes())?;
        rest = after;
    }
    plain.extend_from_slice(rest)?;
    Ok(Some(plain))
}
