//! The verdicts on the calls of a log.
ghost use Rattle.std.specs.Prelude.{◌≡◌, IfOk, length, map};
ghost use Rattle.sk_text.specs.Lines.{lines_of};
ghost use Rattle.sk_replay.specs.Replaying.{distinct_calls, events_in, row_of, rows_of, unclear_in, unclear_lines};

use crate::answer::Replay;
use crate::call::Call;
use crate::row::Row;
use crate::tally::Tally;
use indexmap::IndexMap;
use sk_filter::Chain;
use sk_names::Architecture;
use std::alloc::{AllocError, Global};

/// The verdicts on the calls of the log of a process of an architecture. The instruction pointer of each call is 0. There are
/// as many rows as distinct calls.
pub fn replay(
    alloc: Global,
    architecture: Architecture,
    log: &[u8],
    chain: &Chain,
) -> Result<Replay, AllocError>
    ensures rows { IfOk result (λ replay. replay.rows.items ≡ rows_of architecture chain.now (lines_of log.now)) }
    ensures calls { IfOk result (λ replay. length replay.rows.items ≡ distinct_calls architecture log.now) }
    ensures events { IfOk result (λ replay. replay.events ≡ events_in architecture (lines_of log.now)) }
    ensures unclear { IfOk result (λ replay. replay.unclear ≡ unclear_in architecture (lines_of log.now)) }
    ensures lines { IfOk result (λ replay. replay.unclear_lines.items ≡ unclear_lines architecture (lines_of log.now)) }
{
    let tally = Tally::of(alloc, architecture, log)?;
    let rows = rows_of(alloc, architecture, &tally.calls, chain)?;
    Ok(Replay {
        rows,
        events: tally.events,
        unclear: tally.unclear,
        unclear_lines: tally.unclear_lines,
    })
}

fn rows_of(
    alloc: Global,
    architecture: Architecture,
    calls: &IndexMap<Call, u64>,
    chain: &Chain,
) -> Result<Vec<Row>, AllocError>
    ensures rows { IfOk result (λ rows. rows.items ≡ map (row_of architecture chain.now) calls.now.entries) }
{
    let mut rows = Vec::new(alloc);
    for (call, times) in calls {
        let row = Row::of(alloc, architecture, chain, *call, *times)?;
        rows.push(row)?;
    }
    Ok(rows)
}
