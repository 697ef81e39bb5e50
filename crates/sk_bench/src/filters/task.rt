//! The text of a task: a line with the work's name and the number of rounds, then `record` and
//! `filter` lines as `skern eval` takes them.
ghost use Rattle.std.specs.Prelude.{◌≡◌};
ghost use Rattle.sk_insn.specs.Record.{record_of};

use crate::fault::Fault;
use crate::numbers::number_of;
use sk_insn::{RECORD_LEN, Record};
use sk_text::{Lines, Words, bytes_of};
use std::alloc::Global;

/// What is done in each round.
#[derive(Clone, Copy, Debug, PartialEq, Eq)]
pub enum Work {
    /// Each image is read.
    Read,
    /// Each image is read, and checked.
    Check,
    /// Each filter runs on each call.
    Run,
    /// The chain of all filters gives its verdict on each call.
    Verdict,
    /// A chain of all filters is made, with its table.
    Attach,
    /// Each number is looked up in the chain's table of those that are always allowed.
    Always,
}

impl Work {
    fn named(name: &[u8]) -> Option<Work> {
        match name {
            b"read" => Some(Work::Read),
            b"check" => Some(Work::Check),
            b"run" => Some(Work::Run),
            b"verdict" => Some(Work::Verdict),
            b"attach" => Some(Work::Attach),
            b"always" => Some(Work::Always),
            _ => None,
        }
    }
}

/// What is done, how often, and to what.
#[derive(Drop)]
pub struct Task {
    pub work: Work,
    pub rounds: u32,
    pub calls: Vec<Record>,
    /// The images of the filters, the oldest first.
    pub images: Vec<Vec<u8>>,
}

impl Task {
    /// The task of a text.
    pub fn of(alloc: Global, text: &[u8]) -> Result<Task, Fault> {
        let mut lines = Lines(text);
        let first = lines.next().ok_or(Fault::NotUnderstood)?;
        let mut task = Task::begun(alloc, first)?;
        for line in lines {
            task.take(alloc, line)?;
        }
        Ok(task)
    }

    fn begun(alloc: Global, line: &[u8]) -> Result<Task, Fault> {
        let mut words = Words(line);
        let name = words.next().ok_or(Fault::NotUnderstood)?;
        let work = Work::named(name).ok_or(Fault::NotUnderstood)?;
        let rounds = number_of(words.next())?;
        Ok(Task {
            work,
            rounds,
            calls: Vec::new(alloc),
            images: Vec::new(alloc),
        })
    }

    // Takes in one line more.
    fn take(&mut self, alloc: Global, line: &[u8]) -> Result<(), Fault> {
        let mut words = Words(line);
        let name = words.next().ok_or(Fault::NotUnderstood)?;
        let bytes = bytes_of(alloc, words)?;
        match name {
            b"record" => {
                let call = call_of(&bytes).ok_or(Fault::NotUnderstood)?;
                self.calls.push(call)?;
            }
            b"filter" => self.images.push(bytes)?,
            _ => return Err(Fault::NotUnderstood),
        }
        Ok(())
    }
}

#[tactic(auto, unfolding(sk_insn::specs::Record::record_of))]
fn call_of(bytes: &[u8]) -> Option<Record>
    ensures call { result ≡ record_of bytes.now }
{
    if bytes.len() != RECORD_LEN {
        return None;
    }
    let mut record = [0; RECORD_LEN];
    record.copy_from_slice(bytes);
    Record::of(&record)
}
