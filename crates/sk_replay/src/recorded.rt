//! Whether a line of a log is a record of the kernel.
ghost use Rattle.std.specs.Prelude.{◌≡◌};
ghost use Rattle.sk_text.specs.Lines.{words_of};
ghost use Rattle.sk_replay.specs.AuditRecords.{audited_call};
ghost use Rattle.sk_replay.specs.Lines.{begins_event, of_or, recorded_of};

use crate::audit::{audited_call, fields_in};
use crate::call::Call;
use crate::line::{is_event, is_mark};
use sk_names::Architecture;
use sk_text::{Words, cut};

/// What a line tells as a record of the kernel.
#[derive(Clone, Copy, Debug, PartialEq, Eq)]
pub enum Recorded {
    /// Nothing: it is no record.
    NoRecord,
    /// No call of the architecture, or none that is understood.
    Unclear,
    /// A call.
    Of(Call),
}

impl Recorded {
    /// What this line tells of a process of an architecture.
    #[tactic(auto, unfolding(crate::specs::Lines::recorded_of))]
    pub fn of(architecture: Architecture, line: &[u8]) -> Recorded
        ensures recorded { result ≡ recorded_of architecture line.now }
    {
        let (front, _behind) = cut(line, b'(');
        if begins_event(Words(front)) {
            return Recorded::NoRecord;
        }
        match fields_in(line) {
            Some(fields) => told_in(architecture, fields),
            None => Recorded::NoRecord,
        }
    }
}

// Whether the first word that is no mark begins what is no call.
#[tactic(auto, using(crate::proofs::Marks::event_unmarked, crate::proofs::Marks::event_marked))]
fn begins_event(mut words: Words<'_>) -> bool
    ensures event { result ≡ begins_event (words_of words.entry.0.now) }
{
    while let Some(word) = words.next() {
        if !is_mark(word) {
            return is_event(word);
        }
    }
    false
}

// What the fields of a record tell.
fn told_in(architecture: Architecture, fields: &[u8]) -> Recorded
    ensures told { result ≡ of_or (audited_call architecture (words_of fields.now)) }
{
    match audited_call(architecture, fields) {
        Some(call) => Recorded::Of(call),
        None => Recorded::Unclear,
    }
}
