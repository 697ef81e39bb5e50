//! Which event is due.
ghost use Rattle.std.specs.Prelude.{◌≡◌, ◌<◌, ◌≤◌, ◌^◌, IfSome, length};
ghost use Rattle.sk_run.specs.Scheduling.{line_due, own_event, event_by, address_of, closing, script_of};
ghost use Rattle.sk_run.specs.views.Stacks.{stack_of};

use crate::Level;
use crate::levels::Levels;
use sk_machine::{Event, Need};
use sk_names::{Call, Syscall};
use sk_scenario::{Program, ScriptCall};

// How many calls the script of a program has. One that is not declared has the empty script.
fn length_of(programs: &[Program], program: u64) -> usize
    ensures length { result ≡ length (script_of programs.now program) }
    ensures few { result < 2 ^ 63 }
{
    match programs.get(program as usize) {
        Some(program) => program.calls.len(),
        None => 0,
    }
}

/// The call of the script that is next, if one is left.
pub(crate) fn line_due(programs: &[Program], levels: &Levels) -> Option<ScriptCall>
    ensures line { result ≡ line_due programs.now (stack_of levels.now) }
    ensures room { IfSome result (λ _. levels.now.top.position < 2 ^ 63) }
{
    match programs.get(levels.top.program as usize) {
        Some(program) => program.calls.as_slice().get(levels.top.position).copied(),
        None => None,
    }
}

/// The event of a process by what it needs.
pub(crate) fn event_by(
    programs: &[Program],
    pid: u32,
    levels: &Levels,
    need: Need,
    line: Option<ScriptCall>,
) -> Event
    requires line { line ≡ line_due programs.now (stack_of levels.now) }
    requires room { IfSome line (λ _. levels.now.top.position < 2 ^ 63) }
    ensures event { result ≡ event_by programs.now pid (stack_of levels.now) need }
{
    match need {
        Need::Deliver => Event::Deliver { pid },
        Need::Resume => Event::Resume { pid },
        Need::Call => own_event(programs, pid, levels, line),
    }
}

// The event of a process that goes on with its script: a call of it, or what ends it.
fn own_event(programs: &[Program], pid: u32, levels: &Levels, line: Option<ScriptCall>) -> Event
    requires room { IfSome line (λ _. levels.now.top.position < 2 ^ 63) }
    ensures event { result ≡ own_event programs.now pid (stack_of levels.now) line }
{
    let Levels { top, below } = levels;
    match line {
        Some(line) => Event::Call {
            pid,
            ip: address_of(top.program, top.position),
            call: line.call,
        },
        None if top.refused => Event::Fault { pid },
        None => Event::Call {
            pid,
            ip: address_of(top.program, length_of(programs, top.program)),
            call: closing(below.as_slice()),
        },
    }
}

// Where a call stands, as filters see it.
fn address_of(program: u64, position: usize) -> u64
    requires room { position < 2 ^ 63 }
    ensures address { result ≡ address_of program position }
{
    0x1_0000 * (program % 0x1_0000_0000) + position as u64
}

// The call that ends a script.
fn closing(below: &[Level]) -> Call
    ensures call { result ≡ closing below.now }
{
    let syscall = if below.is_empty() {
        Syscall::ExitGroup
    } else {
        Syscall::RtSigreturn
    };
    Call {
        nr: syscall.number(),
        args: [0; 6],
    }
}
