//! The program over any files, analysis of filters and writers.
ghost use Rattle.std.specs.Prelude.{◌≡◌, ◌≤◌, false, [], IfOk, Ok, map, string_bytes};
ghost use Rattle.sk_ask.specs.Counts.{CountsReads};
ghost use Rattle.sk_ask.specs.Answering.{AnswersWords, AnswersAsked};
ghost use Rattle.sk_ask.specs.Asking.{asked_of, nothing_asked};
ghost use Rattle.sk_ask.specs.Endings.{Complains, answered, ending_of, wordless_line, written};
ghost use Rattle.sk_ask.specs.Telling.{Told};

use crate::analysis::Analysis;
use crate::answer::Answer;
use crate::help::{HELP, VERSION, word_help};
use crate::nearest::{SEE_HELP, of_unknown};
use crate::output::{complain, put};
use crate::table::asked_answer;
use crate::word::{NAMES, Word, asks_help, asks_version};
use crate::words::asked_in;
use crate::{Shelf, Trouble};
use sk_text::Sink;
use std::alloc::{AllocError, Global};

/// Does what the words ask, which leave out the program's name, and gives the exit status: 0 where they are answered, 1
/// where that says no, and 2 for trouble. A read that fails is counted.
pub fn command<S: Shelf, A: Analysis, W: Sink, E: Sink>(
    alloc: Global,
    words: &[String],
    shelf: &S,
    analysis: &A,
    reads: &mut u64,
    out: &mut W,
    complaints: &mut E,
) -> u8
    ensures told { Told (S.held shelf.now) (A.may_spend analysis.now) (map string_bytes words.now) reads.old reads.new result
        (written (W.contents out.old) (W.failed out.old)) (written (W.contents out.new) (W.failed out.new))
        (written (E.contents complaints.old) (E.failed complaints.old)) (written (E.contents complaints.new) (E.failed complaints.new)) }
    ensures status { result ≤ 2 }
{
    let outcome = answer(alloc, words, shelf, analysis, reads);
    put(&outcome, out, complaints)
}

/// Tells why the words of the program are not there: memory was refused for them, or one of them is no text.
pub fn misused<E: Sink>(complaints: &mut E, memory: bool) -> u8
    ensures told { Complains (wordless_line memory) result
        (written (E.contents complaints.old) (E.failed complaints.old)) (written (E.contents complaints.new) (E.failed complaints.new)) }
{
    if memory {
        complain(complaints, b"ask: out of memory\n")
    } else {
        complain(complaints, b"ask: a word is not UTF-8\n")
    }
}

fn answer<S: Shelf, A: Analysis>(
    alloc: Global,
    words: &[String],
    shelf: &S,
    analysis: &A,
    reads: &mut u64,
) -> Result<Answer, Trouble>
    ensures told { AnswersWords (S.held shelf.now) (A.may_spend analysis.now) (map string_bytes words.now) (ending_of result) }
    ensures counted { CountsReads result reads.old reads.new }
{
    let Some((first, rest)) = words.split_first() else {
        return Err(Trouble::Refused(bytes_of(alloc, "ask: no word is given; see ask --help\n")?));
    };
    if asks_help(first.as_bytes()) {
        return Ok(said(alloc, HELP)?);
    }
    if asks_version(first.as_bytes()) {
        return Ok(said(alloc, VERSION)?);
    }
    match Word::named(first.as_bytes()) {
        Some(word) => word_answer(alloc, word, rest, shelf, analysis, reads),
        None => {
            let line = of_unknown(
                alloc,
                "no word is named ",
                first.as_bytes(),
                first.as_bytes(),
                &NAMES,
                SEE_HELP,
            )?;
            Err(Trouble::Refused(line))
        }
    }
}

fn word_answer<S: Shelf, A: Analysis>(
    alloc: Global,
    word: Word,
    words: &[String],
    shelf: &S,
    analysis: &A,
    reads: &mut u64,
) -> Result<Answer, Trouble>
    ensures told { AnswersAsked (S.held shelf.now) (A.may_spend analysis.now) (asked_of (nothing_asked word) (map string_bytes words.now)) (ending_of result) }
    ensures counted { CountsReads result reads.old reads.new }
{
    let asked = asked_in(alloc, word, words)?;
    if asked.help {
        return Ok(said(alloc, word_help(asked.word))?);
    }
    asked_answer(alloc, &asked, shelf, analysis, reads)
}

fn said(alloc: Global, text: &str) -> Result<Answer, AllocError>
    ensures answer { IfOk result (λ answer. ending_of (Ok answer) ≡ answered [] text.now false) }
{
    Ok(Answer {
        text: bytes_of(alloc, text)?,
        notes: Vec::new(alloc),
        denies: false,
    })
}

fn bytes_of(alloc: Global, text: &str) -> Result<Vec<u8>, AllocError>
    ensures bytes { IfOk result (λ bytes. bytes.items ≡ text.now) }
{
    text.as_bytes().to_vec(alloc)
}
