//! The machine that makes the turns of a scenario.
ghost use Rattle.sk_machine.specs.Turns.{is_runnable, need_of, next_of};
ghost use Rattle.std.specs.Prelude.{◌≡◌, ◌<◌, IfOk, IfErr, IsTrue, OnOk, OnErr, Ok, Err, None, map};
ghost use Rattle.sk_run.specs.Scheduling.{opened, runner_of, turn_of, after_turn, turn_by, after_turn_by, mark_of_script};

use crate::due::{event_by, line_due};
use crate::making::make;
use crate::stacks::{Stacks, levels_at, reach};
use crate::{End, ReportLine};
use sk_kernel::{Images, Kernel, Mark, Runner};
use sk_scenario::{Program, Scenario};
use sk_world::ProcStore;
use std::alloc::{AllocError, Global};

/// A scenario on its way: a kernel, and how far each process is in its scripts.
#[derive(Drop)]
pub struct Machine<S: ProcStore> {
    kernel: Kernel<S>,
    programs: Vec<Program>,
    stacks: Stacks,
    /// The most turns.
    turns: u32,
    /// Who had the last turn, 0 at first.
    last: u32,
    /// The turns that were made.
    used: u32,
    alloc: Global,
    ghost declared: { kernel.declared.programs ≡ map mark_of_script programs.items },
}

impl<S: ProcStore> Machine<S> {
    ghost use Rattle.sk_run.specs.views.State.{setting_of, now_of};

    /// The machine before the first turn. The scenario is dropped where memory is refused.
    pub fn new(alloc: Global, scenario: Scenario) -> Result<Machine<S>, AllocError>
        ensures opened { IfOk result (λ machine. now_of machine ≡ opened) }
        ensures setting { IfOk result (λ machine. setting_of machine ≡ scenario) }
    {
        let Scenario {
            turns,
            subreapers,
            filters,
            programs,
        } = scenario;
        let marks = marks(alloc, programs.as_slice())?;
        let declared = Images {
            filters,
            programs: marks,
            subreapers,
        };
        Ok(Machine {
            kernel: Kernel::new(alloc, declared)?,
            programs,
            stacks: Vec::new(alloc),
            turns,
            last: 0,
            used: 0,
            alloc,
        })
    }

    /// The next turn. Once it is the end it is the same end at each later call. Where memory is refused nothing is
    /// changed.
    #[tactic(auto, unfolding(crate::specs::Scheduling::turn_of, crate::specs::Scheduling::after_turn))]
    pub fn turn(&mut self) -> Result<ReportLine, AllocError>
        ensures turn { IfOk result (λ turn. turn ≡ turn_of (setting_of self.old) (now_of self.old)) }
        ensures after { OnOk result ((now_of self.new) ≡ after_turn (setting_of self.old) (now_of self.old)) }
        ensures kept { OnErr result ((now_of self.new) ≡ (now_of self.old)) }
        ensures setting { (setting_of self.new) ≡ (setting_of self.old) }
    {
        match self.runner() {
            Err(end) => Ok(ReportLine::End(end)),
            Ok(runner) => {
                if self.used < self.turns {
                    self.turn_by(runner)
                } else {
                    Ok(ReportLine::End(End::Limit))
                }
            }
        }
    }

    // Whose turn it is, or why nobody's is.
    fn runner(&self) -> Result<Runner, End>
        ensures runner { IfOk result (λ runner. runner_of (now_of self.now) ≡ Ok runner.pid) }
        ensures nobody { IfErr result (λ end. runner_of (now_of self.now) ≡ Err end) }
        ensures runs { IfOk result (λ runner. IsTrue (is_runnable self.now.kernel.world runner.pid)) }
        ensures need { IfOk result (λ runner. runner.need ≡ need_of self.now.kernel.world runner.pid) }
    {
        match self.kernel.next_runner(self.last) {
            Some(runner) => Ok(runner),
            None => Err(self.end()),
        }
    }

    // Why nobody has the turn.
    fn end(&self) -> End
        requires nobody { next_of self.now.kernel.world self.now.last ≡ None }
        ensures end { Err result ≡ runner_of (now_of self.now) }
    {
        match self.kernel.halted() {
            Some(status) => End::Halt(status),
            None => End::Idle,
        }
    }

    fn turn_by(&mut self, runner: Runner) -> Result<ReportLine, AllocError>
        requires room { (now_of self.old).used < (setting_of self.old).turns }
        requires runs { IsTrue (is_runnable self.old.kernel.world runner.pid) }
        requires need { runner.need ≡ need_of self.old.kernel.world runner.pid }
        ensures turn { IfOk result (λ turn. turn ≡ turn_by (setting_of self.old) (now_of self.old) runner.pid) }
        ensures after { OnOk result ((now_of self.new) ≡ after_turn_by (setting_of self.old) (now_of self.old) runner.pid) }
        ensures kept { OnErr result ((now_of self.new) ≡ (now_of self.old)) }
        ensures setting { (setting_of self.new) ≡ (setting_of self.old) }
    {
        let Runner { pid, need } = runner;
        reach(&mut self.stacks, self.alloc, pid)?;
        let levels = levels_at(&self.stacks, pid as usize);
        let programs = self.programs.as_slice();
        let line = line_due(programs, levels);
        let has_line = line.is_some();
        let event = event_by(programs, pid, levels, need, line);
        let answer = make(
            &mut self.kernel,
            &mut self.stacks,
            self.alloc,
            &self.programs,
            has_line,
            &event,
        )?;
        self.last = pid;
        self.used += 1;
        Ok(ReportLine::Turn {
            turn: self.used,
            event,
            answer,
        })
    }
}

// What execve(2) finds of each program.
fn marks(alloc: Global, programs: &[Program]) -> Result<Vec<Mark>, AllocError>
    ensures marks { IfOk result (λ marks. marks.items ≡ map mark_of_script programs.now) }
{
    let mut marks = Vec::new(alloc);
    for program in programs {
        marks.push(mark_of(program))?;
    }
    Ok(marks)
}

fn mark_of(program: &Program) -> Mark
    ensures mark { result ≡ mark_of_script program.now }
{
    Mark {
        owner: program.owner,
        setuid: program.setuid,
    }
}
