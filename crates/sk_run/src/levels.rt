//! The levels of one process.
ghost use Rattle.std.specs.Prelude.{◌≡◌, ◌<◌, ◌+◌, ◌^◌, IfOk, IsTrue, OnOk, Option};
ghost use Rattle.std.specs.Option.{is_some};
ghost use Rattle.sk_scenario.specs.declared.call.ScriptCall.{ScriptCall};
ghost use Rattle.sk_run.specs.Levels.{first_call, alone, delivered, returned, begun, made, performing, called};
ghost use Rattle.sk_run.specs.views.Stacks.{stack_of, HasRoom};

use crate::Level;
use sk_machine::{Effect, Outcome};
use sk_names::{Call, Syscall};
use std::alloc::{AllocError, Global};

/// The levels of a process: the one that runs, and those below it, the lowest first.
#[derive(Drop)]
pub(crate) struct Levels {
    pub(crate) top: Level,
    pub(crate) below: Vec<Level>,
}

/// The first call of a program.
pub(crate) fn first_call(program: u64) -> Level
    ensures level { result ≡ first_call program }
{
    Level {
        program,
        position: 0,
        refused: false,
    }
}

/// One level, at the first call of a program.
pub(crate) fn at_program(alloc: Global, program: u64) -> Levels
    ensures stack { stack_of result ≡ alone (first_call program) }
{
    Levels {
        top: first_call(program),
        below: Vec::new(alloc),
    }
}

impl Levels {
    /// The same levels once more.
    pub(crate) fn copy(&self, alloc: Global) -> Result<Levels, AllocError>
        ensures stack { IfOk result (λ copy. stack_of copy ≡ stack_of self.now) }
    {
        Ok(Levels {
            top: self.top,
            below: Vec::from_slice(alloc, self.below.as_slice())?,
        })
    }

    /// Makes room for the level of a handler. The levels stay as they are.
    pub(crate) fn make_room(&mut self) -> Result<(), AllocError>
        ensures stack { stack_of self.new ≡ stack_of self.old }
        ensures room { OnOk result (HasRoom self.new) }
    {
        self.below.reserve(1)
    }

    /// What a delivery does to the levels of its process: a handler's level comes on top.
    pub(crate) fn deliver(&mut self, effect: Effect)
        requires room { HasRoom self.old }
        ensures stack { stack_of self.new ≡ delivered effect (stack_of self.old) }
    {
        if let Effect::Handler { program, .. } = effect {
            self.below.push_reserved(self.top);
            self.top = first_call(program);
        }
    }

    /// The top level stands at the first call of this program.
    pub(crate) fn at_first_call(self, program: u64) -> Levels
        ensures stack { stack_of result ≡ begun (Some program) (stack_of self) }
    {
        let Levels { below, .. } = self;
        Levels {
            top: first_call(program),
            below,
        }
    }

    /// The levels of a child, which begins with a program where the line names one.
    pub(crate) fn begun(self, program: Option<u32>) -> Levels
        ensures stack { stack_of result ≡ begun program (stack_of self) }
    {
        match program {
            Some(program) => self.at_first_call(u64::from(program)),
            None => self,
        }
    }

    // The top level is off, where there are any below it.
    fn return_from_handler(&mut self)
        ensures stack { stack_of self.new ≡ returned (stack_of self.old) }
    {
        if let Some(level) = self.below.pop() {
            self.top = level;
        }
    }

    /// A call was made: a line of the script, if it has one left, or the call that ends it.
    pub(crate) fn advance(&mut self, has_line: bool, performed: bool)
        requires room { IsTrue has_line → self.old.top.position < 2 ^ 63 }
        ensures stack { (line : Option ScriptCall) → is_some line ≡ has_line → stack_of self.new ≡ made line performed (stack_of self.old) }
    {
        if has_line {
            self.top.position += 1;
        } else if !performed {
            self.top.refused = true;
        }
    }

    // What a performed call does to the levels of its caller.
    fn perform(&mut self, call: &Call, outcome: Outcome)
        ensures stack { stack_of self.new ≡ performing call.now outcome (stack_of self.old) }
    {
        match outcome {
            Outcome::Executed => {
                self.top = first_call(call.args[0]);
                self.below.clear();
            }
            Outcome::Returned(value) => {
                if call.nr == Syscall::RtSigreturn.number() && value == 0 {
                    self.return_from_handler();
                }
            }
            _ => {}
        }
    }

    /// The levels of the caller after a call.
    pub(crate) fn call(&mut self, has_line: bool, call: &Call, performed: bool, outcome: Outcome)
        requires room { IsTrue has_line → self.old.top.position < 2 ^ 63 }
        ensures stack { (line : Option ScriptCall) → is_some line ≡ has_line → stack_of self.new ≡ called line call.now performed outcome (stack_of self.old) }
    {
        self.advance(has_line, performed);
        if performed {
            self.perform(call, outcome);
        }
    }
}
