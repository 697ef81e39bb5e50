//! What `bench/run` measures: the tasks of standard input, one after the other. What most of them come to is a sum of all that
//! came out, so that nothing of the work can be left out. `tools/refuse_memory.py` has processes forked under refused memory.
//!
//! A line begins each task: `filters 502` (`filters`), `store slots fork 4 3` (`stores`), `forks list` (`forks`) or
//! `report twice 31` (`runs`), where the number at the end is that of the bytes behind the line which belong to the task; a
//! task of a store and one of forks have none.
#![tactic(auto)]

mod fault;
mod filters;
mod forks;
mod numbers;
mod programs;
mod runs;
mod stores;

use fault::Fault;
use numbers::number_of;
use sk_text::{Counted, Words, cut, take_up_to};
use std::process::ExitCode;

// The most bytes of all tasks: each may be as long as a scenario at most.
const MOST_BYTES: usize = 0x20_0000;

fn main(rt: HostRuntime) -> ExitCode {
    match done(&rt) {
        Ok(()) => ExitCode::SUCCESS,
        Err(fault) => {
            let _ = eprintln!(rt; "{fault}");
            ExitCode::from(fault.status())
        }
    }
}

// Does the tasks of standard input.
fn done(rt: &HostRuntime) -> Result<(), Fault> {
    let mut reader = Counted::new(rt.reader());
    let text = take_up_to(rt.alloc(), &mut reader, MOST_BYTES)?;
    let mut rest = text.as_slice();
    for _task in 0..text.len() {
        if rest.is_empty() {
            break;
        }
        rest = rest_after(rt, rest)?;
    }
    Ok(())
}

// Does the task at the beginning of a text, and answers what stands behind it.
fn rest_after<'a>(rt: &HostRuntime, text: &'a [u8]) -> Result<&'a [u8], Fault> {
    let (line, behind) = cut(text, b'\n');
    let mut words = Words(line);
    match words.next() {
        Some(b"filters") => {
            let (task, behind) = parted(behind, words.next())?;
            filters::tell(rt, task)?;
            Ok(behind)
        }
        Some(b"store") => {
            stores::tell(rt, words)?;
            Ok(behind)
        }
        Some(b"forks") => {
            forks::tell(rt, words)?;
            Ok(behind)
        }
        Some(b"report") => {
            let way = words.next();
            let (scenario, behind) = parted(behind, words.next())?;
            runs::report(rt, way, scenario)?;
            Ok(behind)
        }
        _ => Err(Fault::NotUnderstood),
    }
}

// The first bytes of a text, as many as the word says, and what stands behind them.
fn parted<'a>(text: &'a [u8], count: Option<&[u8]>) -> Result<(&'a [u8], &'a [u8]), Fault> {
    let count = number_of(count)? as usize;
    if count > text.len() {
        return Err(Fault::NotUnderstood);
    }
    Ok(text.split_at(count))
}
