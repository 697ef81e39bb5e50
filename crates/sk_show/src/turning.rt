//! How a filter runs on a call: the jumps on its way, each with a call that may turn it, and the place where it ends.
ghost use Rattle.std.specs.Prelude.{◌≤◌, length};
ghost use Rattle.sk_show.specs.Runs.{EndsAt};

use crate::execution::{Next, Run};
use sk_filter::Checked;
use sk_insn::Record;
use std::alloc::AllocError;

/// How many calls are tried for one value.
pub const MOST_CALLS: usize = 512;

/// Where a filter ends, and what it answers.
#[derive(Clone, Copy)]
pub struct End {
    /// The place of its last instruction.
    pub place: usize,
    /// The value that it returns.
    pub value: u32,
}

/// Puts the calls of these numbers that turn a jump on the way of this one behind the others, where they are new and
/// will be tried.
pub fn push_turns(
    calls: &mut Vec<Record>,
    program: &Checked,
    call: &Record,
    first: u32,
    last: u32,
) -> Result<(), AllocError>
    requires few { length calls.old.items ≤ MOST_CALLS }
    ensures few { length calls.new.items ≤ MOST_CALLS }
{
    let insns = program.insns();
    let mut run = Run::new();
    let mut place = 0;
    while place < insns.len() {
        let (next, other) = run.execute(&insns[place], call);
        if let Some(other) = other {
            push_new(calls, other, first, last)?;
        }
        match next {
            Next::Skip(skip) => place += 1 + skip as usize,
            Next::End(_) | Next::Stuck => return Ok(()),
        }
    }
    Ok(())
}

/// Where a filter ends on a call.
pub fn end_of(program: &Checked, call: &Record) -> End
    ensures ends { EndsAt program.now call.now result.value result.place }
{
    let insns = program.insns();
    let mut run = Run::new();
    let mut place = 0usize;
    loop {
        match run.execute(&insns[place], call).0 {
            Next::Skip(skip) => place += 1 + skip as usize,
            Next::End(value) => return End { place, value },
            Next::Stuck => unreachable!(),
        }
    }
}

fn push_new(calls: &mut Vec<Record>, call: Record, first: u32, last: u32) -> Result<(), AllocError>
    requires few { length calls.old.items ≤ MOST_CALLS }
    ensures few { length calls.new.items ≤ MOST_CALLS }
{
    let tried = calls.len() < MOST_CALLS && first <= call.nr && call.nr <= last;
    if tried && !calls.contains(&call) {
        calls.push(call)?;
    }
    Ok(())
}
