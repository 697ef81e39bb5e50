//! The levels of all processes, at the places of their pids.
ghost use Rattle.std.specs.Prelude.{◌≡◌, ◌<◌, ◌^◌, OnOk, IfSome, IsTrue, Option, slice_get, vec_len, vec_capacity};
ghost use Rattle.std.specs.Option.{is_some};
ghost use Rattle.sk_scenario.specs.declared.call.ScriptCall.{ScriptCall};
ghost use Rattle.sk_world.specs.declared.process.TheConstants.{LAST_PID};
ghost use Rattle.sk_run.specs.Levels.{called, delivered, stacked};
ghost use Rattle.sk_run.specs.views.Stacks.{stack_of, stacks_of, HasRoom};

use crate::levels::{Levels, at_program};
use sk_machine::{Effect, Outcome};
use sk_names::Call;
use sk_world::LAST_PID;
use std::alloc::{AllocError, Global};

/// The levels of each process that was made, at the place of its pid. Those of no process are the ones that process 1
/// opens with.
pub(crate) type Stacks = Vec<Levels>;

/// Makes the place of a pid, where it is missing. The levels of all processes stay as they are.
pub(crate) fn reach(stacks: &mut Stacks, alloc: Global, pid: u32) -> Result<(), AllocError>
    ensures stacks { stacks_of stacks.new.items ≡ stacks_of stacks.old.items }
    ensures there { OnOk result (pid < vec_len stacks.new) }
{
    let place = pid as usize;
    if stacks.capacity() <= place {
        stacks.reserve(place + 1 - stacks.len())?;
    }
    fill(stacks, alloc, place);
    Ok(())
}

/// Makes room for the place of each pid that a process may get.
pub(crate) fn make_room_for_pids(stacks: &mut Stacks) -> Result<(), AllocError>
    ensures stacks { stacks.new.items ≡ stacks.old.items }
    ensures len { vec_len stacks.new ≡ vec_len stacks.old }
    ensures room { OnOk result (LAST_PID < vec_capacity stacks.new) }
{
    let places = LAST_PID as usize + 1;
    if stacks.capacity() < places {
        stacks.reserve(places - stacks.len())?;
    }
    Ok(())
}

// Makes the places up to this one, for which there is room.
fn fill(stacks: &mut Stacks, alloc: Global, place: usize)
    requires room { place < vec_capacity stacks.old }
    ensures stacks { stacks_of stacks.new.items ≡ stacks_of stacks.old.items }
    ensures there { place < vec_len stacks.new }
{
    while stacks.len() <= place {
        stacks.push_reserved(at_program(alloc, 0));
    }
}

/// The process of this place has these levels now.
pub(crate) fn put(stacks: &mut Stacks, alloc: Global, place: usize, levels: Levels)
    requires room { place < vec_capacity stacks.old }
    ensures stacks { stacks_of stacks.new.items ≡ stacked place (stack_of levels) (stacks_of stacks.old.items) }
{
    fill(stacks, alloc, place);
    stacks[place] = levels;
}

/// The levels of a process.
pub(crate) fn levels_at(stacks: &Stacks, place: usize) -> &Levels
    requires there { place < vec_len stacks.now }
    ensures stack { stack_of result.now ≡ stacks_of stacks.now.items place }
{
    &stacks[place]
}

/// The levels of a process after a call.
pub(crate) fn call_at(
    stacks: &mut Stacks,
    pid: u32,
    has_line: bool,
    call: &Call,
    performed: bool,
    outcome: Outcome,
)
    requires there { pid < vec_len stacks.old }
    requires room { IsTrue has_line → (stacks_of stacks.old.items pid).top.position < 2 ^ 63 }
    ensures stacks { (line : Option ScriptCall) → is_some line ≡ has_line
        → stacks_of stacks.new.items ≡ stacked pid (called line call.now performed outcome (stacks_of stacks.old.items pid)) (stacks_of stacks.old.items) }
    ensures places { vec_capacity stacks.new ≡ vec_capacity stacks.old }
{
    stacks[pid as usize].call(has_line, call, performed, outcome);
}

/// Makes room for the level of a handler. The levels of all processes stay as they are.
pub(crate) fn make_room_for_handler(stacks: &mut Stacks, place: usize) -> Result<(), AllocError>
    requires there { place < vec_len stacks.old }
    ensures stacks { stacks_of stacks.new.items ≡ stacks_of stacks.old.items }
    ensures there { vec_len stacks.new ≡ vec_len stacks.old }
    ensures room { OnOk result (IfSome (slice_get stacks.new.items place) HasRoom) }
{
    stacks[place].make_room()
}

/// The levels of a process after a delivery.
pub(crate) fn deliver_at(stacks: &mut Stacks, place: usize, effect: Effect)
    requires there { place < vec_len stacks.old }
    requires room { IfSome (slice_get stacks.old.items place) HasRoom }
    ensures stacks { stacks_of stacks.new.items ≡ stacked place (delivered effect (stacks_of stacks.old.items place)) (stacks_of stacks.old.items) }
{
    stacks[place].deliver(effect);
}
