//! Whether all is there that a word of `ask` wants.
ghost use Rattle.std.specs.Prelude.{◌≡◌, ◌≤◌, ◌++◌, [], IfOk, codes, length, slice_get};
ghost use Rattle.std.specs.Option.{option_map};
ghost use Rattle.sk_ask.specs.Asking.{drawn, draws, tells_arguments, is_turned, turned_line, ended, complete, understood, named, none_missing, two_named, missing, wanted, word_name};
ghost use Rattle.sk_ask.specs.Complaints.{of_word};
ghost use Rattle.sk_ask.specs.Asked.{question_of, Asks, HasNames};

use crate::word::Word;
use crate::words::{Asked, expected_line};
use crate::{Trouble, of_word};
use sk_names::Architecture;
use std::alloc::{AllocError, Global};

// What was asked, where it is whole.
pub(crate) fn ended(alloc: Global, asked: Asked) -> Result<Asked, Trouble>
    ensures exact { Asks result (ended (question_of asked)) }
    ensures named { IfOk result HasNames }
{
    match asked.awaits {
        Some(option) => Err(Trouble::Refused(expected_line(alloc, asked.word, option)?)),
        None => complete(alloc, asked),
    }
}

// Whether all is there that is wanted.
fn complete(alloc: Global, asked: Asked) -> Result<Asked, Trouble>
    ensures exact { Asks result (complete (question_of asked)) }
    ensures named { IfOk result HasNames }
{
    if asked.help {
        return Ok(asked);
    }
    let asked = named(alloc, asked)?;
    drawn(alloc, asked)
}

// Whether a picture is asked of some call, and no document and no rows beside it.
fn drawn(alloc: Global, asked: Asked) -> Result<Asked, Trouble>
    requires named { HasNames asked }
    ensures exact { Asks result (drawn (question_of asked)) }
    ensures named { IfOk result HasNames }
{
    if draws(asked.word) && asked.json {
        let what = format!(in alloc; "{}: expected --dot or --json, not both", asked.word.name())?;
        return Err(Trouble::Refused(of_word(alloc, &what, b"")?));
    }
    if draws(asked.word) && !asked.only.is_empty() {
        let what = format!(in alloc; "{}: expected --dot or --only, not both", asked.word.name())?;
        return Err(Trouble::Refused(of_word(alloc, &what, b"")?));
    }
    if draws(asked.word) && asked.calls.is_empty() {
        let what = format!(in alloc; "{}: expected --call CALL beside ", asked.word.name())?;
        return Err(Trouble::Refused(of_word(alloc, &what, b"--dot")?));
    }
    understood(alloc, asked)
}

fn draws(word: Word) -> bool
    ensures draws { result ≡ draws word }
{
    matches!(word, Word::When { dot: true })
}

// Whether what is told of arguments can be told of the architecture.
fn understood(alloc: Global, asked: Asked) -> Result<Asked, Trouble>
    requires named { HasNames asked }
    ensures exact { Asks result (understood (question_of asked)) }
    ensures named { IfOk result HasNames }
{
    if is_turned(asked.arch) && tells_arguments(asked.word) {
        return Err(Trouble::Refused(turned_line(alloc, asked.word, b"--arch s390x")?));
    }
    Ok(asked)
}

// Whether its numbers have their highest byte first, where one is named.
pub(crate) fn is_turned(arch: Option<Architecture>) -> bool
    ensures turned { result ≡ is_turned arch }
{
    match arch {
        Some(arch) => arch.is_big_endian(),
        None => false,
    }
}

// The line that refuses what has its highest byte first.
pub(crate) fn turned_line(alloc: Global, word: Word, what: &[u8]) -> Result<Vec<u8>, AllocError>
    ensures line { IfOk result (λ line. line.items ≡ turned_line word what.now) }
{
    let refused = format!(in alloc;
        "{}: arguments with their highest byte first are not followed: ",
        word.name()
    )?;
    of_word(alloc, &refused, what)
}

fn tells_arguments(word: Word) -> bool
    ensures tells { result ≡ tells_arguments word }
{
    match word {
        Word::Calls { examples } => examples,
        Word::Show | Word::Check | Word::Allow(_) => false,
        _ => true,
    }
}

// Whether there are as many names as the word wants.
fn named(alloc: Global, asked: Asked) -> Result<Asked, Trouble>
    ensures exact { Asks result (named asked.word (question_of asked)) }
    ensures named { IfOk result HasNames }
{
    match asked.word {
        Word::Diff { .. } | Word::Page { compares: true } => two_named(alloc, asked),
        _ => none_missing(alloc, asked),
    }
}

fn two_named(alloc: Global, asked: Asked) -> Result<Asked, Trouble>
    requires two { length (wanted asked.word) ≤ 2 }
    ensures exact { Asks result (two_named (question_of asked)) }
    ensures named { IfOk result HasNames }
{
    if asked.names.len() == 2 {
        return Ok(asked);
    }
    Err(Trouble::Refused(two_wanted(alloc, asked.word)?))
}

// The line that says that a word wants two FILEs.
fn two_wanted(alloc: Global, word: Word) -> Result<Vec<u8>, AllocError>
    ensures line { IfOk result (λ line. line.items ≡ of_word (word_name word ++ codes ": expected two FILEs, OLD and NEW") []) }
{
    let what = format!(in alloc; "{}: expected two FILEs, OLD and NEW", word.name())?;
    of_word(alloc, &what, b"")
}

fn none_missing(alloc: Global, asked: Asked) -> Result<Asked, Trouble>
    ensures exact { Asks result (none_missing (question_of asked) (missing (question_of asked))) }
    ensures named { IfOk result HasNames }
{
    let Some(kind) = missing(asked.word, asked.names.len()) else {
        return Ok(asked);
    };
    let what = format!(in alloc; "{}: no {kind} is given", asked.word.name())?;
    Err(Trouble::Refused(of_word(alloc, &what, b"")?))
}

// What the first name stands for that is wanted behind so many.
fn missing(word: Word, count: usize) -> Option<&'static str>
    ensures kind { option_map (λ kind. kind.now) result ≡ slice_get (wanted word) count }
{
    match (word, count) {
        (Word::Diff { .. } | Word::Page { compares: true }, 0) => Some("OLD"),
        (Word::Diff { .. } | Word::Page { compares: true }, 1) => Some("NEW"),
        (Word::Expect, 0) => Some("POLICY"),
        (Word::Replay { .. } | Word::Allow(_), 0) => Some("LOG"),
        (Word::Why, 0) => Some("CALL"),
        (Word::Expect | Word::Replay { .. } | Word::Why, 1) | (_, 0) => Some("FILE"),
        _ => None,
    }
}
