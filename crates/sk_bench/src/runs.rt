//! Whole runs: a scenario over the store that a word names, or over slots with each line of the report made and
//! written twice, so that the text alone can be told from the turns.

use crate::fault::Fault;
use sk_run::{EngineFault, Machine, ReportLine, engine_with, turn_line};
use sk_scenario::read;
use sk_table::{ListStore, SlotStore};
use sk_text::{Counted, Sink, send};
use std::alloc::Global;
use std::io;
use std::io::{BufWriter, Write};

// How many bytes are gathered before they are written.
const BLOCK: usize = 65_536;

// The most turns of a scenario.
const MOST_TURNS: u32 = 100_000;

/// Writes the report of a scenario in the way that the word names.
pub fn report(rt: &HostRuntime, way: Option<&[u8]>, text: &[u8]) -> Result<(), Fault> {
    let alloc = rt.alloc();
    let mut reader = Counted::new(text);
    let mut writer = Counted::new(BufWriter::with_capacity(alloc, BLOCK, io::writer(rt))?);
    match way {
        Some(b"list") => {
            engine_with::<ListStore, _, _>(alloc, &mut reader, &mut writer)?;
        }
        Some(b"slots") => {
            engine_with::<SlotStore, _, _>(alloc, &mut reader, &mut writer)?;
        }
        Some(b"twice") => written_twice(alloc, text, &mut writer)?,
        _ => return Err(Fault::NotUnderstood),
    }
    writer.into_inner().flush()?;
    Ok(())
}

// Writes each line of a report twice.
fn written_twice<W: Sink>(alloc: Global, text: &[u8], writer: &mut W) -> Result<(), EngineFault> {
    let scenario = read(alloc, text)?;
    let mut machine = Machine::<SlotStore>::new(alloc, scenario)?;
    for _ in 0..=MOST_TURNS {
        let turn = machine.turn()?;
        for _ in 0..2 {
            send(writer, turn_line(&turn).as_bytes())?;
        }
        if matches!(turn, ReportLine::End(_)) {
            break;
        }
    }
    Ok(())
}
