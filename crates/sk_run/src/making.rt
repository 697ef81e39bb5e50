//! What an event leads to.
ghost use Rattle.std.specs.Prelude.{◌≡◌, ◌<◌, ◌≤◌, ◌^◌, IfOk, OnOk, OnErr, IfSome, IsTrue, None, true, slice_get, vec_len, vec_capacity};
ghost use Rattle.std.specs.Option.{is_some};
ghost use Rattle.sk_run.specs.Scheduling.{line_due};
ghost use Rattle.sk_world.specs.declared.process.TheConstants.{LAST_PID};
ghost use Rattle.sk_machine.specs.Machine.{reason_of, step_of};
ghost use Rattle.sk_machine.specs.Events.{pid_of};
ghost use Rattle.sk_run.specs.Levels.{begun, made, stacks_after, with_child, script_of_child, pid_in};
ghost use Rattle.sk_run.specs.views.Stacks.{is_fork, stack_of, stacks_of, HasRoom, ChildIsLow, IsReady};
ghost use Rattle.sk_machine.specs.declared.event.Event.TheVariants as event;

use crate::due::line_due;
use crate::levels::Levels;
use crate::stacks::{
    Stacks, call_at, deliver_at, levels_at, make_room_for_handler, make_room_for_pids, put,
};
use sk_insn::Action;
use sk_kernel::Kernel;
use sk_machine::{Answer, Event, Outcome};
use sk_names::Syscall;
use sk_scenario::{Program, ScriptCall};
use sk_world::ProcStore;
use std::alloc::{AllocError, Global};

/// Makes the event that is due, and follows its answer. Where memory is refused nothing is changed.
#[inline(always)]
pub(crate) fn make<S: ProcStore>(
    kernel: &mut Kernel<S>,
    stacks: &mut Stacks,
    alloc: Global,
    programs: &Vec<Program>,
    has_line: bool,
    event: &Event,
) -> Result<Answer, AllocError>
    requires possible { reason_of kernel.old.world event.now ≡ None }
    requires there { pid_of event.now < vec_len stacks.old }
    requires line { is_some (line_due programs.now.items (stacks_of stacks.old.items (pid_of event.now))) ≡ has_line }
    requires room { IsTrue has_line → (stacks_of stacks.old.items (pid_of event.now)).top.position < 2 ^ 63 }
    ensures answer { IfOk result (λ answer. answer ≡ (step_of kernel.old.declared kernel.old.world event.now).answer) }
    ensures world { OnOk result (kernel.new.world ≡ (step_of kernel.old.declared kernel.old.world event.now).world) }
    ensures stacks { IfOk result (λ answer. stacks_of stacks.new.items ≡ stacks_after (line_due programs.now.items (stacks_of stacks.old.items (pid_of event.now))) event.now answer (stacks_of stacks.old.items)) }
    ensures kept { OnErr result (kernel.new.world ≡ kernel.old.world) }
    ensures kept_stacks { OnErr result (stacks_of stacks.new.items ≡ stacks_of stacks.old.items) }
    ensures declared { kernel.new.declared ≡ kernel.old.declared }
{
    let copy = prepare(stacks, alloc, event)?;
    let answer = kernel.happen(event)?;
    follow_event(stacks, alloc, copy, programs, has_line, event, &answer);
    Ok(answer)
}

// Makes the room that an event may need, and a copy of the levels of who forks. The levels of all processes stay as
// they are.
fn prepare(stacks: &mut Stacks, alloc: Global, event: &Event) -> Result<Option<Levels>, AllocError>
    requires there { pid_of event.now < vec_len stacks.old }
    ensures stacks { stacks_of stacks.new.items ≡ stacks_of stacks.old.items }
    ensures there { vec_len stacks.new ≡ vec_len stacks.old }
    ensures ready { IfOk result (λ copy. IsReady stacks.new.items (vec_capacity stacks.new) event.now copy) }
{
    match event {
        Event::Call { pid, call, .. } if call.nr == Syscall::Fork.number() => {
            make_room_for_pids(stacks)?;
            Ok(Some(levels_at(stacks, *pid as usize).copy(alloc)?))
        }
        Event::Call { .. } => Ok(None),
        Event::Deliver { pid } => {
            make_room_for_handler(stacks, *pid as usize)?;
            Ok(None)
        }
        Event::Resume { .. } => Ok(None),
        Event::Fault { .. } => Ok(None),
    }
}

// All levels after an event, for which all is ready.
fn follow_event(
    stacks: &mut Stacks,
    alloc: Global,
    copy: Option<Levels>,
    programs: &Vec<Program>,
    has_line: bool,
    event: &Event,
    answer: &Answer,
)
    requires there { pid_of event.now < vec_len stacks.old }
    requires line { is_some (line_due programs.now.items (stacks_of stacks.old.items (pid_of event.now))) ≡ has_line }
    requires room { IsTrue has_line → (stacks_of stacks.old.items (pid_of event.now)).top.position < 2 ^ 63 }
    requires ready { IsReady stacks.old.items (vec_capacity stacks.old) event.now copy }
    requires child { IsTrue (is_fork event.now) → ChildIsLow answer.now }
    ensures stacks { stacks_of stacks.new.items ≡ stacks_after (line_due programs.now.items (stacks_of stacks.old.items (pid_of event.now))) event.now answer.now (stacks_of stacks.old.items) }
{
    match event {
        Event::Call { pid, call, .. } => {
            if let Answer::Call { verdict, outcome } = *answer {
                let performed = Action::of(verdict).performs();
                call_at(stacks, *pid, has_line, call, performed, outcome);
                if performed {
                    if let Some(copy) = copy {
                        follow_child(stacks, alloc, copy, programs, pid_in(&outcome));
                    }
                }
            }
        }
        Event::Deliver { pid } => follow_signal(stacks, *pid, answer),
        Event::Resume { .. } => {}
        Event::Fault { .. } => {}
    }
}

// The levels after a delivery.
fn follow_signal(stacks: &mut Stacks, pid: u32, answer: &Answer)
    requires there { pid < vec_len stacks.old }
    requires room { IfSome (slice_get stacks.old.items pid) HasRoom }
    ensures stacks { stacks_of stacks.new.items ≡ stacks_after None (event.Deliver pid) answer.now (stacks_of stacks.old.items) }
{
    if let Answer::Signal { effect, .. } = *answer {
        deliver_at(stacks, pid as usize, effect);
    }
}

// The pid that a call has returned, if it is one.
fn pid_in(outcome: &Outcome) -> Option<u64>
    ensures pid { result ≡ pid_in outcome.now }
{
    match *outcome {
        Outcome::Returned(child) if child > 0 => Some(child as u64),
        _ => None,
    }
}

// The levels of a child, which a performed fork(2) has made.
fn follow_child(
    stacks: &mut Stacks,
    alloc: Global,
    copy: Levels,
    programs: &Vec<Program>,
    child: Option<u64>,
)
    requires places { LAST_PID < vec_capacity stacks.old }
    requires low { IfSome child (λ pid. pid ≤ LAST_PID) }
    ensures stacks { stacks_of stacks.new.items ≡ with_child child (begun (script_of_child (line_due programs.now.items (stack_of copy))) (made (line_due programs.now.items (stack_of copy)) true (stack_of copy))) (stacks_of stacks.old.items) }
{
    if let Some(child) = child {
        let line = line_due(programs.as_slice(), &copy);
        let mut levels = copy;
        levels.advance(line.is_some(), true);
        let program = script_of_child(line);
        put(stacks, alloc, child as usize, levels.begun(program));
    }
}

// The program that a child begins with, where the line names one.
fn script_of_child(line: Option<ScriptCall>) -> Option<u32>
    ensures program { result ≡ script_of_child line }
{
    line.and_then(|line| line.script)
}
