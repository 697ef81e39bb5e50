//! The filter commands over any reader and writer.
ghost use Rattle.std.specs.Prelude.{◌≡◌, ◌≤◌, IfNone, IfOk, IfSome, map, string_bytes};
ghost use Rattle.sk_text.specs.Reading.{ConsumesUpTo};
ghost use Rattle.sk_engines.specs.Engine.{Delivers, CountsReads, CountsWrites};
ghost use Rattle.sk_engines.specs.Program.{Ends, Works, device};
ghost use Rattle.sk_engines.specs.Words.{answer_by, answer_to, filter_word_of};

use crate::asm::Assemble;
use crate::check::Check;
use crate::engine::run;
use crate::eval::Eval;
use crate::list::List;
use crate::word::{FilterWord, Word, word_in};
use crate::{CommandFault, failed, tell_usage};
use sk_text::{Sink, Source};
use std::alloc::Global;

const USAGE: &str = "usage: skern check|eval|asm|list\n";

/// Does what the words say of filters, as `skern` does, and gives the exit status: 0 where the work is done, 1 where
/// the input is refused, 2 for other words, 3 where memory or a device failed. Every text goes to the writer.
pub fn command<R: Source, W: Sink>(
    alloc: Global,
    words: &[String],
    reader: &mut R,
    writer: &mut W,
) -> u8
    ensures ends { Ends (λ input. Delivers (answer_to (filter_word_of (map string_bytes words.now)) input)) result
        (device (R.remaining reader.old) (R.failed reader.old)) (device (R.remaining reader.new) (R.failed reader.new))
        (device (W.contents writer.old) (W.failed writer.old)) (device (W.contents writer.new) (W.failed writer.new)) }
    ensures limit { ConsumesUpTo 1048577 (R.remaining reader.old) (R.remaining reader.new) }
    ensures unread { IfNone (filter_word_of (map string_bytes words.now)) (reader.new ≡ reader.old) }
{
    match done(alloc, words, reader, writer) {
        Ok(status) => status,
        Err(fault) => failed(writer, fault),
    }
}

fn done<R: Source, W: Sink>(
    alloc: Global,
    words: &[String],
    reader: &mut R,
    writer: &mut W,
) -> Result<u8, CommandFault>
    ensures works { Works (λ input. Delivers (answer_to (filter_word_of (map string_bytes words.now)) input)) result
        (device (R.remaining reader.old) (R.failed reader.old)) (device (R.remaining reader.new) (R.failed reader.new))
        (device (W.contents writer.old) (W.failed writer.old)) (device (W.contents writer.new) (W.failed writer.new)) }
    ensures status { IfOk result (λ status. status ≤ 2) }
    ensures limit { ConsumesUpTo 1048577 (R.remaining reader.old) (R.remaining reader.new) }
    ensures unread { IfNone (filter_word_of (map string_bytes words.now)) (reader.new ≡ reader.old) }
{
    match word_in(alloc, words)? {
        Some(Word::Filters(word)) => filter_command(alloc, word, reader, writer),
        Some(Word::Run) | None => tell_usage(writer, USAGE),
    }
}

/// Does what the word says of filters, and gives the status: 0 where the work is done, 1 where the input is refused.
pub fn filter_command<R: Source, W: Sink>(
    alloc: Global,
    word: FilterWord,
    reader: &mut R,
    writer: &mut W,
) -> Result<u8, CommandFault>
    ensures told { IfSome (R.remaining reader.old) (λ input.
        Delivers (answer_by word input) result (W.contents writer.old) (W.contents writer.new)) }
    ensures status { IfOk result (λ status. status ≤ 1) }
    ensures limit { ConsumesUpTo 1048577 (R.remaining reader.old) (R.remaining reader.new) }
    ensures reads { CountsReads result (R.failed reader.old) (R.failed reader.new) }
    ensures writes { CountsWrites result (W.failed writer.old) (W.failed writer.new) }
{
    match word {
        FilterWord::Check => run::<Check, R, W>(alloc, reader, writer),
        FilterWord::Eval => run::<Eval, R, W>(alloc, reader, writer),
        FilterWord::Asm => run::<Assemble, R, W>(alloc, reader, writer),
        FilterWord::List => run::<List, R, W>(alloc, reader, writer),
    }
}
