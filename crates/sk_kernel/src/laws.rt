//! The lineage of a process, which its filters, ids and no_new_privs are those of: told from the events and their answers.

ghost use Rattle.std.specs.Prelude.{◌≡◌, ◌++◌, length, IfOk, OnOk};
ghost use Rattle.std.specs.Option.{option_to_list};
ghost use Rattle.sk_machine.specs.Lineages.{is_performed, has_answered, is_fork_of, lineage_before, calls_added, performed_call, call_of, lineage_of, history_of};
ghost use Rattle.sk_kernel.specs.views.Lineages.{lineage_in};

use crate::stepping::recorded;
use sk_insn::{Action, Record};
use sk_machine::{Answer, Event, Outcome, Syscall};
use std::alloc::{AllocError, Global};

/// A lineage: the process that it comes from, and the performed calls of it and of those that it was forked from, the
/// oldest first.
#[derive(Drop)]
pub struct Lineage {
    pub root: u32,
    pub calls: Vec<Record>,
}

/// The lineage of a process, by all events that there were and their answers, the oldest first. It takes memory for the
/// calls that it tells, and looks at each event once.
pub fn line(
    alloc: Global,
    events: &[Event],
    answers: &[Answer],
    pid: u32,
) -> Result<Lineage, AllocError>
    requires answered { length events.now ≡ length answers.now }
    ensures lineage { IfOk result (λ lineage. lineage_in lineage ≡ lineage_of (history_of events.now answers.now) pid) }
{
    let mut calls = Vec::new(alloc);
    let mut root = pid;
    let mut left = events.len();
    while left > 0 {
        left -= 1;
        let (event, answer) = (&events[left], &answers[left]);
        add(&mut calls, call_added(root, event, answer))?;
        root = lineage_before(root, event, answer);
    }
    calls.reverse();
    Ok(Lineage { root, calls })
}

// Puts a call behind the others, if there is one.
fn add(calls: &mut Vec<Record>, call: Option<Record>) -> Result<(), AllocError>
    ensures { OnOk result (calls.new.items ≡ calls.old.items ++ option_to_list call) }
{
    if let Some(call) = call {
        calls.push(call)?;
    }
    Ok(())
}

// The call that an event adds to the lineage of a process, if it adds one.
fn call_added(pid: u32, event: &Event, answer: &Answer) -> Option<Record>
    ensures { option_to_list result ≡ calls_added pid (event.now, answer.now) }
{
    if event.pid() == pid && !is_fork_of(pid, event, answer) {
        performed_call(event, answer)
    } else {
        None
    }
}

// Whose lineage it was before the event that is the lineage of this process after it.
fn lineage_before(pid: u32, event: &Event, answer: &Answer) -> u32
    ensures { result ≡ lineage_before pid (event.now, answer.now) }
{
    if is_fork_of(pid, event, answer) {
        event.pid()
    } else {
        pid
    }
}

// Whether the event is a performed fork(2) that gave this pid.
fn is_fork_of(pid: u32, event: &Event, answer: &Answer) -> bool
    ensures { result ≡ is_fork_of pid (event.now, answer.now) }
{
    match performed_call(event, answer) {
        Some(call) => call.nr == Syscall::Fork.number() && has_answered(pid, answer),
        None => false,
    }
}

fn performed_call(event: &Event, answer: &Answer) -> Option<Record>
    ensures { result ≡ performed_call (event.now, answer.now) }
{
    if is_performed(answer) {
        call_of(event)
    } else {
        None
    }
}

fn call_of(event: &Event) -> Option<Record>
    ensures { result ≡ call_of event.now }
{
    match *event {
        Event::Call { pid: _, ip, call } => Some(recorded(ip, &call)),
        _ => None,
    }
}

fn is_performed(answer: &Answer) -> bool
    ensures { result ≡ is_performed answer.now }
{
    match *answer {
        Answer::Call {
            verdict,
            outcome: _,
        } => Action::of(verdict).performs(),
        _ => false,
    }
}

// Whether the answer is a call that returned this number.
fn has_answered(number: u32, answer: &Answer) -> bool
    ensures { result ≡ has_answered number answer.now }
{
    match *answer {
        Answer::Call {
            verdict: _,
            outcome: Outcome::Returned(returned),
        } => returned == i64::from(number),
        _ => false,
    }
}
