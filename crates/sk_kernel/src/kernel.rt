//! The kernel: how it does one event or a run of them, and what it tells between events.
ghost use Rattle.std.specs.Prelude.{◌≡◌, [], ◌∷◌, ◌++◌, ◌<◌, length, IfSome, IfNone, IfOk, IfErr, OnOk, OnErr, None, Some};
ghost use Rattle.std.specs.Option.{option_map};
ghost use Rattle.sk_world.specs.World.{at, opening};
ghost use Rattle.sk_machine.specs.Memory.{TakesMemory};
ghost use Rattle.sk_machine.specs.Machine.{reason_of, step_of, answers_of, world_after, halted_of};
ghost use Rattle.sk_machine.specs.Turns.{is_runnable, need_of, next_of};
ghost use Rattle.sk_laws.specs.RunLaws.{RunIsLawful};
ghost use Rattle.sk_kernel.specs.State.{done_of};

use crate::{Candidates, Runner, stepping};
use sk_machine::{Answer, Event, Images, Need};
use sk_world::{Proc, ProcStore};
use std::alloc::{AllocError, Global};
use std::marker::Model;

/// A kernel: a store of processes, with the filters and programs that their calls name by numbers.
#[derive(Drop)]
pub struct Kernel<S: ProcStore> {
    store: Candidates<S>,
    declared: Images,
    alloc: Global,
}

/// A run has stopped, out of memory, after the first `done` of its events.
#[derive(Clone, Copy, PartialEq, Eq, Debug)]
pub struct Stopped {
    pub done: usize,
}

impl<S: ProcStore> Model for Kernel<S> {
    ghost use Rattle.sk_world.specs.Rules.{IsWorld};
    ghost use Rattle.sk_laws.specs.FilterLaws.{HasAccepted};
    ghost use Rattle.sk_kernel.specs.State.{State, state_code};

    ghost Value = { State };

    ghost coded = { state_code };

    ghost view = { λ kernel. record { declared = kernel.declared; world = kernel.store } };

    ghost invariant = { λ kernel. IsWorld kernel.store × HasAccepted kernel.store };
}

impl<S: ProcStore> Kernel<S> {
    /// The kernel as the system starts, with process 1 alone. What refuses memory is the store.
    pub fn new(alloc: Global, declared: Images) -> Result<Kernel<S>, AllocError>
        ensures opening { IfOk result (λ kernel. kernel ≡ record { declared = declared; world = opening }) }
    {
        Ok(Kernel {
            store: Candidates::new(alloc)?,
            declared,
            alloc,
        })
    }

    /// One event. It wants memory only where it is a performed call that attaches a filter, or forks a process that has
    /// filters; nothing is changed then.
    pub fn step(&mut self, event: Event) -> Result<Answer, AllocError>
        ensures answer { IfOk result (λ answer. answer ≡ (step_of self.old.declared self.old.world event).answer) }
        ensures world { OnOk result (self.new.world ≡ (step_of self.old.declared self.old.world event).world) }
        ensures memory { OnErr result (TakesMemory self.old.declared self.old.world event) }
        ensures kept { OnErr result (self.new.world ≡ self.old.world) }
        ensures declared { self.new.declared ≡ self.old.declared }
    {
        let answer = stepping::step(&mut self.store, &self.declared, self.alloc, &event);
        self.store.update();
        answer
    }

    /// One event that is possible: what `step` does with it, without a look whether it is.
    pub fn happen(&mut self, event: &Event) -> Result<Answer, AllocError>
        requires possible { reason_of self.old.world event.now ≡ None }
        ensures answer { IfOk result (λ answer. answer ≡ (step_of self.old.declared self.old.world event.now).answer) }
        ensures world { OnOk result (self.new.world ≡ (step_of self.old.declared self.old.world event.now).world) }
        ensures memory { OnErr result (TakesMemory self.old.declared self.old.world event.now) }
        ensures kept { OnErr result (self.new.world ≡ self.old.world) }
        ensures declared { self.new.declared ≡ self.old.declared }
    {
        let answer = stepping::step_possible(&mut self.store, &self.declared, self.alloc, event);
        self.store.update();
        answer
    }

    /// Does these events in their order, and puts their answers behind the others. Where it stops, out of memory,
    /// the answers and the world are those of the events before.
    pub fn run(&mut self, events: &[Event], answers: &mut Vec<Answer>) -> Result<(), Stopped>
        ensures answers { answers.new.items ≡ answers.old.items ++ answers_of self.old.declared self.old.world (done_of events.now result) }
        ensures world { self.new.world ≡ world_after self.old.declared self.old.world (done_of events.now result) }
        ensures lawful { RunIsLawful self.old.declared self.old.world (done_of events.now result) }
        ensures stopped { IfErr result (λ stopped. stopped.done < length events.now) }
        ensures declared { self.new.declared ≡ self.old.declared }
    {
        let _ = &self.store;
        for (done, event) in events.iter().enumerate() {
            match self.tell(*event, answers) {
                Ok(()) => {}
                Err(AllocError) => return Err(Stopped { done }),
            }
        }
        Ok(())
    }

    // One event, whose answer is put behind the others.
    fn tell(&mut self, event: Event, answers: &mut Vec<Answer>) -> Result<(), AllocError>
        ensures answer { OnOk result (answers.new.items ≡ answers.old.items ++ (step_of self.old.declared self.old.world event).answer ∷ []) }
        ensures world { OnOk result (self.new.world ≡ (step_of self.old.declared self.old.world event).world) }
        ensures kept { OnErr result (self.new.world ≡ self.old.world) }
        ensures kept_answers { OnErr result (answers.new.items ≡ answers.old.items) }
        ensures declared { self.new.declared ≡ self.old.declared }
    {
        answers.reserve(1)?;
        let answer = self.step(event)?;
        answers.push_reserved(answer);
        Ok(())
    }

    /// The process of this pid.
    pub fn get(&self, pid: u32) -> Option<&Proc>
        ensures there { IfSome result (λ p. at self.now.world pid ≡ Some p.now) }
        ensures absent { IfNone result (at self.now.world pid ≡ None) }
    {
        self.store.get(pid)
    }

    /// The status with which the system has halted, if it has: that of process 1.
    pub fn halted(&self) -> Option<u32>
        ensures { result ≡ halted_of self.now.world }
    {
        crate::halted(&self.store)
    }

    /// Whether the process can run: it lives, and a signal is due, or it is not stopped and its call would not go on
    /// waiting.
    pub fn runnable(&self, pid: u32) -> bool
        ensures { result ≡ is_runnable self.now.world pid }
    {
        crate::runnable(&self.store, pid)
    }

    /// Whose turn is next, in round robin, after the process that ran last.
    pub fn next_runnable(&self, after: u32) -> Option<u32>
        ensures { result ≡ next_of self.now.world after }
    {
        self.next_runner(after).map(|runner| runner.pid)
    }

    /// The same process with what its next event is.
    pub fn next_runner(&self, after: u32) -> Option<Runner>
        ensures pid { option_map (λ runner. runner.pid) result ≡ next_of self.now.world after }
        ensures need { IfSome result (λ runner. runner.need ≡ need_of self.now.world runner.pid) }
    {
        self.store.next_runner(after)
    }

    /// What the next event of a process that can run is.
    pub fn need(&self, pid: u32) -> Need
        ensures { result ≡ need_of self.now.world pid }
    {
        crate::need(&self.store, pid)
    }
}
