//! The program over any reader and writer.
ghost use Rattle.std.specs.Prelude.{◌≡◌, ◌≢◌, ◌≤◌, Err, IfNone, IfOk, map, string_bytes};
ghost use Rattle.sk_text.specs.Reading.{ConsumesUpTo};
ghost use Rattle.sk_engines.specs.Engine.{Delivers, CountsWrites};
ghost use Rattle.sk_engines.specs.Program.{Ends, Works, device};
ghost use Rattle.sk_engines.specs.Words.{word_of};
ghost use Rattle.sk_run.specs.Running.{Does, Runs, scenario_answer};

use crate::{EngineFault, engine};
use sk_engines::{CommandFault, Reply, Word, deliver, failed, filter_command, tell_usage, word_in};
use sk_scenario::ScenarioFault;
use sk_text::{Sink, Source};
use std::alloc::Global;

const USAGE: &str = "usage: skern run|check|eval|asm|list\n";

/// Does what the words say, which leave out the program's name, and gives the exit status: 0 where
/// the work is done, 1 where the input is refused, 2 for words that say nothing, 3 where memory or a
/// device failed. Every text goes to the writer.
pub fn command<R: Source, W: Sink>(
    alloc: Global,
    words: &[String],
    reader: &mut R,
    writer: &mut W,
) -> u8
    ensures ends { Ends (Does (word_of (map string_bytes words.now))) result
        (device (R.remaining reader.old) (R.failed reader.old)) (device (R.remaining reader.new) (R.failed reader.new))
        (device (W.contents writer.old) (W.failed writer.old)) (device (W.contents writer.new) (W.failed writer.new)) }
    ensures limit { ConsumesUpTo 1048577 (R.remaining reader.old) (R.remaining reader.new) }
    ensures unread { IfNone (word_of (map string_bytes words.now)) (reader.new ≡ reader.old) }
{
    match done(alloc, words, reader, writer) {
        Ok(status) => status,
        Err(fault) => failed(writer, fault),
    }
}

fn done<R: Source, W: Sink>(
    alloc: Global,
    words: &[String],
    reader: &mut R,
    writer: &mut W,
) -> Result<u8, CommandFault>
    ensures works { Works (Does (word_of (map string_bytes words.now))) result
        (device (R.remaining reader.old) (R.failed reader.old)) (device (R.remaining reader.new) (R.failed reader.new))
        (device (W.contents writer.old) (W.failed writer.old)) (device (W.contents writer.new) (W.failed writer.new)) }
    ensures status { IfOk result (λ status. status ≤ 2) }
    ensures limit { ConsumesUpTo 1048577 (R.remaining reader.old) (R.remaining reader.new) }
    ensures unread { IfNone (word_of (map string_bytes words.now)) (reader.new ≡ reader.old) }
{
    match word_in(alloc, words)? {
        Some(Word::Run) => run(alloc, reader, writer),
        Some(Word::Filters(word)) => filter_command(alloc, word, reader, writer),
        None => tell_usage(writer, USAGE),
    }
}

// Runs a scenario. What is wrong with an input that is none is told here. It stays a function of its own: a scenario has
// some 30 KiB on the stack, which no other word need touch.
#[inline(never)]
fn run<R: Source, W: Sink>(
    alloc: Global,
    reader: &mut R,
    writer: &mut W,
) -> Result<u8, CommandFault>
    ensures works { Works Runs result
        (device (R.remaining reader.old) (R.failed reader.old)) (device (R.remaining reader.new) (R.failed reader.new))
        (device (W.contents writer.old) (W.failed writer.old)) (device (W.contents writer.new) (W.failed writer.new)) }
    ensures status { IfOk result (λ status. status ≤ 1) }
    ensures limit { ConsumesUpTo 1048577 (R.remaining reader.old) (R.remaining reader.new) }
{
    match engine(alloc, reader, writer) {
        Ok(_) => Ok(0),
        Err(EngineFault::Scenario(fault)) => refuse(writer, fault),
        Err(EngineFault::Read) => Err(CommandFault::Read),
        Err(EngineFault::Write) => Err(CommandFault::Write),
        Err(EngineFault::Memory { .. }) => Err(CommandFault::Memory),
    }
}

// Tells what is wrong with a scenario's line.
fn refuse<W: Sink>(writer: &mut W, fault: ScenarioFault) -> Result<u8, CommandFault>
    ensures told { Delivers (scenario_answer fault) result (W.contents writer.old) (W.contents writer.new) }
    ensures status { IfOk result (λ status. status ≤ 1) }
    ensures writes { CountsWrites result (W.failed writer.old) (W.failed writer.new) }
    ensures no_read { result ≢ Err CommandFault.Read }
{
    let (n, what) = match fault {
        ScenarioFault::Line { n } => (n, "not understood"),
        ScenarioFault::Unresolved { n } => (n, "no such name"),
        ScenarioFault::Limit { n } => (n, "over the limit"),
        ScenarioFault::Memory => return Err(CommandFault::Memory),
    };
    deliver(writer, &Reply::at_line(n, what))
}
