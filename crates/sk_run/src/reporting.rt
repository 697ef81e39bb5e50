//! The engine: it reads a scenario, and writes its report, each line before the next turn is made.
ghost use Rattle.std.specs.Prelude.{◌≡◌, IfSome};
ghost use Rattle.sk_text.specs.Reading.{ConsumesUpTo};
ghost use Rattle.sk_run.specs.Scheduling.{opened};
ghost use Rattle.sk_run.specs.Report.{report_of};
ghost use Rattle.sk_run.specs.views.State.{setting_of, now_of};
ghost use Rattle.sk_run.specs.Reporting.{LeavesReport, Writes, ReportCountsReads, ReportCountsWrites};

use crate::fault::EngineFault;
use crate::machine::Machine;
use crate::{End, ReportLine, write_line};
use sk_scenario::read;
use sk_table::SlotStore;
use sk_text::{Line, MOST_BYTES, Sink, Source, send, take_up_to};
use sk_world::ProcStore;
use std::alloc::{AllocError, Global};

/// Runs `skern run` over a reader and a writer.
pub fn engine<R: Source, W: Sink>(
    alloc: Global,
    reader: &mut R,
    writer: &mut W,
) -> Result<End, EngineFault>
    ensures told { IfSome (R.remaining reader.old) (λ input. LeavesReport input result (W.contents writer.old) (W.contents writer.new)) }
    ensures limit { ConsumesUpTo 1048577 (R.remaining reader.old) (R.remaining reader.new) }
    ensures reads { ReportCountsReads result (R.failed reader.old) (R.failed reader.new) }
    ensures writes { ReportCountsWrites result (W.failed writer.old) (W.failed writer.new) }
{
    engine_with::<SlotStore, R, W>(alloc, reader, writer)
}

/// The same over any store of processes.
pub fn engine_with<S: ProcStore, R: Source, W: Sink>(
    alloc: Global,
    reader: &mut R,
    writer: &mut W,
) -> Result<End, EngineFault>
    ensures told { IfSome (R.remaining reader.old) (λ input. LeavesReport input result (W.contents writer.old) (W.contents writer.new)) }
    ensures limit { ConsumesUpTo 1048577 (R.remaining reader.old) (R.remaining reader.new) }
    ensures reads { ReportCountsReads result (R.failed reader.old) (R.failed reader.new) }
    ensures writes { ReportCountsWrites result (W.failed writer.old) (W.failed writer.new) }
{
    // One byte more than a scenario may have decides that it is too long.
    let input = take_up_to(alloc, reader, MOST_BYTES + 1)?;
    let scenario = read(alloc, input.as_slice())?;
    let machine = Machine::<S>::new(alloc, scenario)?;
    report(machine, writer)
}

fn report<S: ProcStore, W: Sink>(machine: Machine<S>, writer: &mut W) -> Result<End, EngineFault>
    requires opened { now_of machine ≡ opened }
    ensures report { Writes (report_of (setting_of machine)) result (W.contents writer.old) (W.contents writer.new) }
    ensures writes { ReportCountsWrites result (W.failed writer.old) (W.failed writer.new) }
{
    let mut machine = machine;
    let mut line = Line::new();
    let mut done = 0;
    loop {
        let turn = match machine.turn() {
            Ok(turn) => turn,
            Err(AllocError) => return Err(EngineFault::Memory { turns: done }),
        };
        write_line(&mut line, &turn);
        let Ok(()) = send(writer, line.as_bytes()) else {
            return Err(EngineFault::Write);
        };
        match turn {
            ReportLine::Turn { turn, .. } => done = turn,
            ReportLine::End(end) => return Ok(end),
        }
    }
}
