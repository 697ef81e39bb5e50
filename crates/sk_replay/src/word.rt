//! The call that a word stands for.
ghost use Rattle.std.specs.Prelude.{◌≡◌};
ghost use Rattle.std.specs.Option.{option_map};
ghost use Rattle.sk_replay.specs.CallWords.{call_of, closed, inside_of, name_part, named_by};
ghost use Rattle.sk_replay.specs.Faults.{said};

use crate::argument::arguments;
use crate::cuts::cut_at;
use crate::fault::CallFault;
use crate::named::call_named;
use sk_insn::Record;
use sk_names::Architecture;
use sk_text::{Words, cut, no_word, one_word};

/// The call of an architecture that a word without double quotes stands for, as `openat(AT_FDCWD, 0x7f00, O_RDONLY)`, or the
/// first of its faults. The instruction pointer is 0. A number is taken as it is written: on x32 `read` has bit 30, and `0`
/// has not.
#[tactic(auto, unfolding(crate::specs::CallWords::call_of))]
pub fn call_in(architecture: Architecture, word: &[u8]) -> Result<Record, CallFault<'_>>
    ensures exact { said result ≡ call_of architecture word.now }
{
    let nr = named_by(architecture, word).ok_or(CallFault::NoCall)?;
    let inside = inside_of(word).ok_or(CallFault::Unclosed)?;
    let args = arguments(inside)?;
    Ok(Record {
        nr,
        arch: architecture.audit(),
        ip: 0,
        args,
    })
}

/// What a word has before its parentheses.
pub fn name_part(word: &[u8]) -> &[u8]
    ensures name { result.now ≡ name_part word.now }
{
    let (name, _arguments) = cut(word, b'(');
    name
}

#[tactic(auto, unfolding(crate::specs::CallWords::named_by))]
fn named_by(architecture: Architecture, word: &[u8]) -> Option<u32>
    ensures number { result ≡ named_by architecture word.now }
{
    call_named(architecture, one_word(Words(name_part(word)))?)
}

#[tactic(auto, unfolding(crate::specs::CallWords::inside_of))]
fn inside_of(word: &[u8]) -> Option<&[u8]>
    ensures inside { option_map (λ inside. inside.now) result ≡ inside_of word.now }
{
    match cut_at(word, b'(') {
        Some((_name, rest)) => closed(rest),
        None => Some(&[]),
    }
}

fn closed(text: &[u8]) -> Option<&[u8]>
    ensures inside { option_map (λ inside. inside.now) result ≡ closed text.now }
{
    let (inside, behind) = cut_at(text, b')')?;
    no_word(Words(behind))?;
    Some(inside)
}
