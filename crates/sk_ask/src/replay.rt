//! `ask replay`: the verdicts on the calls of a log.
ghost use Rattle.std.specs.Prelude.{◌≡◌, ◌≤◌, ◌++◌, IfOk, OnOk, length, map, string_bytes};
ghost use Rattle.sk_ask.specs.Counts.{CountsReads};
ghost use Rattle.sk_ask.specs.Endings.{ComesTo, ending_of};
ghost use Rattle.sk_ask.specs.Replays.{OfLog, replayed, unclear_note, unclear_notes};
ghost use Rattle.sk_ask.specs.Since.{OfJudged};
ghost use Rattle.sk_ask.specs.Troubles.{OfFiles, OfFirst};

use crate::analysis::Analysis;
use crate::answer::{Answer, Tells};
use crate::on::On;
use crate::printing::Printing;
use crate::since::judged;
use crate::words::first_name;
use crate::{Filters, MOST_LOG_BYTES, Reader, Shelf, Trouble, about, content};
use sk_document::replay_document;
use sk_names::Architecture;
use sk_replay::replay_text;
use std::alloc::{AllocError, Global};
use std::fmt::Write;

/// What is said of a log without a call.
pub const NO_CALL: &str =
    "holds no call: expected lines as strace -f writes them, or the kernel's with type=1326";

/// `ask replay`, behind the file of this name, which holds the log.
#[derive(Drop)]
pub struct Replay<'a> {
    pub printing: Printing,
    pub architecture: Architecture,
    pub name: &'a str,
    pub log: Vec<u8>,
}

impl Tells for Replay<'_> {
    ghost use Rattle.sk_ask.specs.Endings.{ComesTo};
    ghost use Rattle.sk_ask.specs.Replays.{replayed};

    ghost tells = { λ it read ending. ComesTo (replayed it.printing it.architecture it.name.now it.log.items read.chain read.notes) ending };

    fn told(self, alloc: Global, filters: Filters) -> Result<Answer, Trouble> {
        let replay = sk_replay::replay(alloc, self.architecture, &self.log, &filters.chain)?;
        if replay.rows.is_empty() {
            return Err(Trouble::Refused(about(alloc, self.name, NO_CALL)?));
        }
        let text = match self.printing {
            Printing::Text => replay_text(alloc, self.architecture, &replay)?.into_bytes(),
            Printing::Document => replay_document(alloc, self.architecture, &replay)?,
        };
        let mut notes = filters.notes;
        add_notes(alloc, &mut notes, self.name, &replay.unclear_lines)?;
        Ok(Answer {
            text,
            notes,
            denies: replay.denies(),
        })
    }
}

// Notes the lines with these numbers, which are not understood.
fn add_notes(
    alloc: Global,
    notes: &mut Vec<u8>,
    name: &str,
    numbers: &[u64],
) -> Result<(), AllocError>
    ensures noted { OnOk result (notes.new.items ≡ notes.old.items ++ unclear_notes name.now numbers.now) }
{
    for number in numbers {
        notes.extend_from_slice(&unclear_note(alloc, name, *number)?)?;
    }
    Ok(())
}

fn unclear_note(alloc: Global, name: &str, number: u64) -> Result<Vec<u8>, AllocError>
    ensures note { IfOk result (λ note. note.items ≡ unclear_note name.now number) }
{
    let mut text = String::new(alloc);
    write!(text, "line {number} is not understood")?;
    about(alloc, name, text.as_str())
}

/// The answer to the log in the file with the first of these names, or to what it has from under a filter, and to the filters of the
/// files behind it.
pub fn replay_answer<S: Shelf, A: Analysis>(
    alloc: Global,
    names: &[String],
    reader: &Reader<'_, S>,
    on: On<'_, A>,
    since: bool,
    reads: &mut u64,
) -> Result<Answer, Trouble>
    requires named { 1 ≤ length names.now }
    ensures told { OfFirst (map string_bytes names.now) (ending_of result) (λ name others. OfLog (S.held reader.now.shelf.now) name (ending_of result) (λ log.
        OfJudged since on.entry.architecture name log (ending_of result) (λ text.
        OfFiles reader.now.manner (S.held reader.now.shelf.now) reader.now.context.now others (ending_of result) (λ read.
        ComesTo (replayed on.entry.printing on.entry.architecture name text read.chain read.notes) (ending_of result))))) }
    ensures counted { CountsReads result reads.old reads.new }
{
    let (name, files) = first_name(names);
    let log = content(alloc, reader.shelf, reads, name, MOST_LOG_BYTES)?;
    let replay = Replay {
        printing: on.printing,
        architecture: on.architecture,
        name,
        log: judged(alloc, since, on.architecture, name, log)?,
    };
    reader.answer(alloc, reads, files, replay)
}
