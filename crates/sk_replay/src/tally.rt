//! How often each call of a log was made.
ghost use Rattle.std.specs.Prelude.{◌≡◌, ◌<◌, ◌-◌, ◌^◌, ◌++◌, [], if◌then◌else◌, IfOk, OnOk};
ghost use Rattle.std.specs.Map.{lookup, count_at};
ghost use Rattle.sk_text.specs.Lines.{lines_of};
ghost use Rattle.sk_replay.specs.declared.call.Call.{Call as TheCall};
ghost use Rattle.sk_replay.specs.Replaying.{calls_of, events_in, unclear_in, tallied, times_of, with_call, with_line, with_number, is_event, is_unclear, onto_numbers, unclear_lines};

use crate::call::Call;
use crate::line::LogLine;
use indexmap::IndexMap;
use sk_names::Architecture;
use sk_text::Lines;
use std::alloc::{AllocError, Global};

/// The calls of a log with how often each was made, in the order in which they first came; how many lines are no calls,
/// how many are not understood, and the numbers of the first of these.
#[derive(Drop)]
pub(crate) struct Tally {
    pub(crate) calls: IndexMap<Call, u64>,
    pub(crate) events: u64,
    pub(crate) unclear: u64,
    pub(crate) unclear_lines: Vec<u64>,
}

/// The most lines that are told by their numbers.
const MOST_TOLD: usize = 8;

impl Tally {
    /// The tally of the log of a process of an architecture.
    pub(crate) fn of(
        alloc: Global,
        architecture: Architecture,
        log: &[u8],
    ) -> Result<Tally, AllocError>
        ensures calls { IfOk result (λ tally. tally.calls.entries ≡ tallied (calls_of architecture (lines_of log.now))) }
        ensures events { IfOk result (λ tally. tally.events ≡ events_in architecture (lines_of log.now)) }
        ensures unclear { IfOk result (λ tally. tally.unclear ≡ unclear_in architecture (lines_of log.now)) }
        ensures lines { IfOk result (λ tally. tally.unclear_lines.items ≡ unclear_lines architecture (lines_of log.now)) }
    {
        let mut calls = IndexMap::new(alloc);
        let mut events = 0;
        let mut unclear = 0;
        let mut unclear_lines = Vec::new(alloc);
        let mut number = 0;
        for line in Lines(log) {
            number += 1;
            let said = LogLine::of(architecture, line);
            count(&mut calls, said)?;
            note(&mut unclear_lines, number, said)?;
            events += event_in(said);
            unclear += unclear_in(said);
        }
        Ok(Tally {
            calls,
            events,
            unclear,
            unclear_lines,
        })
    }
}

// Counts the call of a line, if it is one.
fn count(calls: &mut IndexMap<Call, u64>, line: LogLine) -> Result<(), AllocError>
    requires room { (call : TheCall) → times_of calls.old.entries call < 2 ^ 64 - 1 }
    ensures counted { OnOk result (calls.new.entries ≡ with_line line calls.old.entries) }
{
    match line {
        LogLine::Made(call) => add(calls, call),
        LogLine::Event | LogLine::Unclear => Ok(()),
    }
}

fn add(calls: &mut IndexMap<Call, u64>, call: Call) -> Result<(), AllocError>
    requires room { times_of calls.old.entries call < 2 ^ 64 - 1 }
    ensures counted { OnOk result (calls.new.entries ≡ with_call call calls.old.entries) }
{
    let times = calls.get(&call).copied().unwrap_or(0);
    calls.insert(call, times + 1)?;
    Ok(())
}

// Notes the number of a line that is not understood, if there are not enough.
fn note(numbers: &mut Vec<u64>, number: u64, line: LogLine) -> Result<(), AllocError>
    ensures noted { OnOk result (numbers.new.items ≡ with_number numbers.old.items number line) }
{
    if numbers.len() < MOST_TOLD {
        push_unclear(numbers, number, line)?;
    }
    Ok(())
}

fn push_unclear(numbers: &mut Vec<u64>, number: u64, line: LogLine) -> Result<(), AllocError>
    ensures pushed { OnOk result (numbers.new.items ≡ numbers.old.items ++ onto_numbers number line []) }
{
    match line {
        LogLine::Unclear => {
            numbers.push(number)?;
            Ok(())
        }
        LogLine::Made(_) | LogLine::Event => Ok(()),
    }
}

fn event_in(line: LogLine) -> u64
    ensures event { result ≡ if is_event line then 1 else 0 }
{
    match line {
        LogLine::Event => 1,
        LogLine::Made(_) | LogLine::Unclear => 0,
    }
}

fn unclear_in(line: LogLine) -> u64
    ensures unclear { result ≡ if is_unclear line then 1 else 0 }
{
    match line {
        LogLine::Unclear => 1,
        LogLine::Made(_) | LogLine::Event => 0,
    }
}
