//! wait4(2): what its registers ask for, and how a process waits and asks again.
ghost use Rattle.std.specs.Prelude.{◌≡◌, ◌%◌, ◌^◌, if◌then◌else◌, IsTrue, Some, None, pos, neg_ℤ};
ghost use Rattle.std.specs.Option.{is_some};
ghost use Rattle.sk_world.specs.Errno.{number_of};
ghost use Rattle.sk_world.specs.World.{at, changed};
ghost use Rattle.sk_world.specs.Rules.{IsWorld};
ghost use Rattle.sk_world.specs.Waits.{options_of, ready_of, told};
ghost use Rattle.sk_machine.specs.declared.answer.Outcome.TheVariants.{Returned};
ghost use Rattle.sk_machine.specs.Performed.{waiting_in};
ghost use Rattle.sk_kernel.specs.Requests.{request_or_error};
ghost use Rattle.sk_machine.specs.WaitCalls.{are_wait_options, polled, polled_again, wait4, resumed};

use crate::targets::who_meant;
use bitflags::Flags;
use sk_insn::Record;
use sk_machine::{Outcome, group_of, unsigned};
use sk_world::{Errno, Poll, ProcStore, Request, WaitOptions, Waiting, wait_poll};

/// Performs a wait4(2) of the caller. Its registers 1 and 3 are not looked at.
pub fn wait4<S: ProcStore>(store: &mut S, caller: u32, call: &Record) -> Outcome
    requires rules { IsWorld (S.contents store.old) }
    requires there { IsTrue (is_some (at (S.contents store.old) caller)) }
    ensures answer { result ≡ (wait4 (S.contents store.old) caller call.now).outcome }
    ensures world { S.contents store.new ≡ (wait4 (S.contents store.old) caller call.now).world }
    ensures rules { IsWorld (S.contents store.new) }
{
    match request_of(store, caller, call) {
        Ok(request) => ask(store, caller, request),
        Err(error) => Outcome::failed(error),
    }
}

/// A process that waits asks again: a wait4(2) may end, a pause(2) ends by a signal alone.
pub fn resume<S: ProcStore>(store: &mut S, pid: u32, waiting: Waiting) -> Outcome
    requires rules { IsWorld (S.contents store.old) }
    requires there { IsTrue (is_some (at (S.contents store.old) pid)) }
    ensures answer { result ≡ (resumed (S.contents store.old) pid waiting).outcome }
    ensures world { S.contents store.new ≡ (resumed (S.contents store.old) pid waiting).world }
    ensures rules { IsWorld (S.contents store.new) }
{
    match waiting {
        Waiting::Asks(request) => ask_again(store, pid, request),
        Waiting::Pause => Outcome::Waits,
        Waiting::Nothing => Outcome::Waits,
    }
}

// What the registers of a wait4(2) ask for, or its error.
fn request_of<S: ProcStore>(store: &S, caller: u32, call: &Record) -> Result<Request, Errno>
    ensures { result ≡ request_or_error (S.contents store.now) caller call.now }
{
    let Some(options) = wait_options(unsigned(call, 2)) else {
        return Err(Errno::Einval);
    };
    let argument = unsigned(call, 0);
    if argument == 1 << 31 {
        return Err(Errno::Esrch);
    }
    let group = group_of(store, caller);
    Ok(Request {
        who: who_meant(group, argument.cast_signed()),
        options,
    })
}

// The options that bits stand for, if each bit is an option's.
fn wait_options(bits: u32) -> Option<WaitOptions>
    ensures { result ≡ (if are_wait_options bits then Some (options_of bits) else None) }
{
    WaitOptions::from_bits(bits)
}

// Asks what there is to tell, and waits where there is nothing yet.
fn ask<S: ProcStore>(store: &mut S, caller: u32, request: Request) -> Outcome
    requires rules { IsWorld (S.contents store.old) }
    requires there { IsTrue (is_some (at (S.contents store.old) caller)) }
    ensures answer { result ≡ (polled (S.contents store.old) caller request (ready_of (S.contents store.old) caller request)).outcome }
    ensures world { S.contents store.new ≡ (polled (S.contents store.old) caller request (ready_of (S.contents store.old) caller request)).world }
    ensures rules { IsWorld (S.contents store.new) }
{
    match wait_poll(store, caller, &request) {
        Poll::Told { pid, status } => Outcome::Told { pid, status },
        Poll::NoMatch => Outcome::failed(Errno::Echild),
        Poll::NotReady => {
            if request.options.contains(WaitOptions::WNOHANG) {
                return Outcome::Returned(0);
            }
            set_waiting(store, caller, Waiting::Asks(request));
            Outcome::Waits
        }
    }
}

// Asks once more, and waits on where there is still nothing to tell.
fn ask_again<S: ProcStore>(store: &mut S, pid: u32, request: Request) -> Outcome
    requires rules { IsWorld (S.contents store.old) }
    requires there { IsTrue (is_some (at (S.contents store.old) pid)) }
    ensures answer { result ≡ (polled_again (S.contents store.old) pid (ready_of (S.contents store.old) pid request)).outcome }
    ensures world { S.contents store.new ≡ (polled_again (S.contents store.old) pid (ready_of (S.contents store.old) pid request)).world }
    ensures rules { IsWorld (S.contents store.new) }
{
    let outcome = match wait_poll(store, pid, &request) {
        Poll::Told { pid, status } => Outcome::Told { pid, status },
        Poll::NoMatch => Outcome::failed(Errno::Echild),
        Poll::NotReady => return Outcome::Waits,
    };
    set_waiting(store, pid, Waiting::Nothing);
    outcome
}

fn set_waiting<S: ProcStore>(store: &mut S, pid: u32, waiting: Waiting)
    requires rules { IsWorld (S.contents store.old) }
    ensures world { S.contents store.new ≡ changed (S.contents store.old) pid (waiting_in waiting) }
    ensures rules { IsWorld (S.contents store.new) }
{
    if let Some(body) = store.body_mut(pid) {
        body.waiting = waiting;
    }
}
