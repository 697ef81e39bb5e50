//! The path of a call through a filter.
ghost use Rattle.std.specs.Prelude.{◌≡◌, IfOk};
ghost use Rattle.sk_filter.specs.Meaning.{meaning_of};
ghost use Rattle.sk_filter.specs.Verdict.{meaning_value};
ghost use Rattle.sk_show.specs.Tracing.{state_of};
ghost use Rattle.sk_show.specs.Paths.{path_of, registers_of};

use crate::{Next, Run};
use sk_filter::Checked;
use sk_insn::{Insn, Record};
use std::alloc::{AllocError, Global};

/// What A and X hold.
#[derive(Clone, Copy, Debug, PartialEq, Eq)]
pub struct Registers {
    pub a: u32,
    pub x: u32,
}

/// An instruction that was executed.
#[derive(Clone, Copy, Debug, PartialEq, Eq)]
pub struct Step {
    /// Its place in the filter, from 0 on.
    pub place: usize,
    pub insn: Insn,
    /// What the registers held before it.
    pub before: Registers,
    /// What they hold behind it.
    pub behind: Registers,
    /// The place that it led to, if it did not end the filter.
    pub next: Option<usize>,
}

/// The instructions that were executed, in their order, and the filter's value.
#[derive(Drop)]
pub struct Path {
    pub steps: Vec<Step>,
    pub value: u32,
}

/// The path of a call through a filter.
pub fn trace(alloc: Global, program: &Checked, call: &Record) -> Result<Path, AllocError>
    ensures steps { IfOk result (λ path. path.steps.items ≡ path_of program.now call.now) }
    ensures value { IfOk result (λ path. path.value ≡ meaning_value (meaning_of program.now call.now)) }
{
    let insns = program.insns();
    let mut steps = Vec::new(alloc);
    let mut run = Run::new();
    let mut place = 0usize;
    loop {
        let insn = insns[place];
        let before = registers_of(&run);
        match run.execute(&insn, call).0 {
            Next::Skip(skip) => {
                let next = place + (1 + skip as usize);
                steps.push(Step {
                    place,
                    insn,
                    before,
                    behind: registers_of(&run),
                    next: Some(next),
                })?;
                place = next;
            }
            Next::End(value) => {
                steps.push(Step {
                    place,
                    insn,
                    before,
                    behind: before,
                    next: None,
                })?;
                return Ok(Path { steps, value });
            }
            Next::Stuck => unreachable!(),
        }
    }
}

fn registers_of(run: &Run) -> Registers
    ensures registers { result ≡ registers_of (state_of run.now) }
{
    Registers {
        a: run.a(),
        x: run.x(),
    }
}
