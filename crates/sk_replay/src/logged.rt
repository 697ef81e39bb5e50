//! The numbers of the calls that logs have.
ghost use Rattle.std.specs.Prelude.{◌≡◌, ◌<◌, ◌-◌, ◌^◌, if◌then◌else◌, IfOk, OnOk};
ghost use Rattle.sk_text.specs.Lines.{lines_of};
ghost use Rattle.sk_replay.specs.Logged.{calls_in, is_call, numbers_with, onto_numbers};
ghost use Rattle.sk_replay.specs.Replaying.{is_unclear, unclear_in};

use crate::line::LogLine;
use sk_names::Architecture;
use sk_text::Lines;
use std::alloc::AllocError;
use std::collections::BTreeSet;

/// How many lines of a log are calls, and how many are not understood.
#[derive(Clone, Copy, Debug, PartialEq, Eq)]
pub struct LineCounts {
    pub calls: u64,
    pub unclear: u64,
}

/// Puts the numbers of the calls of the log of a process of an architecture among those that are there.
pub fn add_logged(
    numbers: &mut BTreeSet<u32>,
    architecture: Architecture,
    log: &[u8],
) -> Result<LineCounts, AllocError>
    ensures numbers { OnOk result (numbers.new.keys ≡ numbers_with architecture numbers.old.keys (lines_of log.now)) }
    ensures calls { IfOk result (λ counts. counts.calls ≡ calls_in architecture (lines_of log.now)) }
    ensures unclear { IfOk result (λ counts. counts.unclear ≡ unclear_in architecture (lines_of log.now)) }
{
    let mut calls = 0;
    let mut unclear = 0;
    for line in Lines(log) {
        let said = LogLine::of(architecture, line);
        add_number(numbers, said)?;
        calls += call_in(said);
        unclear += unclear_in(said);
    }
    Ok(LineCounts { calls, unclear })
}

fn add_number(numbers: &mut BTreeSet<u32>, line: LogLine) -> Result<(), AllocError>
    ensures added { OnOk result (numbers.new.keys ≡ onto_numbers line numbers.old.keys) }
{
    match line {
        LogLine::Made(call) => {
            numbers.insert(call.nr)?;
            Ok(())
        }
        LogLine::Event | LogLine::Unclear => Ok(()),
    }
}

fn call_in(line: LogLine) -> u64
    ensures call { result ≡ if is_call line then 1 else 0 }
{
    match line {
        LogLine::Made(_) => 1,
        LogLine::Event | LogLine::Unclear => 0,
    }
}

fn unclear_in(line: LogLine) -> u64
    ensures unclear { result ≡ if is_unclear line then 1 else 0 }
{
    match line {
        LogLine::Unclear => 1,
        LogLine::Made(_) | LogLine::Event => 0,
    }
}
