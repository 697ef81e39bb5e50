//! The answers to events: outcomes of calls, effects of signals, and reasons why an event is not possible.
ghost use Rattle.std.specs.Prelude.{◌≡◌, pos, neg_ℤ};
ghost use Rattle.sk_world.specs.Errno.{number_of as errno_of};
ghost use Rattle.sk_machine.specs.Events.{number_of};
ghost use Rattle.sk_machine.specs.declared.answer.Outcome.TheVariants.{Returned};

use sk_world::{Errno, SigSet};

/// What an event came to.
#[derive(Clone, Copy, PartialEq, Eq, Debug)]
pub enum Answer {
    /// A call with the verdict of the filters.
    Call { verdict: u32, outcome: Outcome },
    /// A delivery.
    Signal { signal: u8, effect: Effect },
    /// A process that waited has asked again.
    Resumed(Outcome),
    /// The process has ended by a fault of its own.
    Crashed,
    /// The event is not possible now, and nothing has changed.
    NotNow(Reason),
}

/// What a call came to.
#[derive(Clone, Copy, PartialEq, Eq, Debug)]
pub enum Outcome {
    /// The call has returned this number, the negated errno(3) where it failed.
    Returned(i64),
    /// wait4(2) has told this child and status.
    Told { pid: u32, status: u32 },
    /// The real, the effective and the saved user id.
    Ids(u32, u32, u32),
    Signals(SigSet),
    /// The process waits in the call.
    Waits,
    /// The call was not performed, and SIGSYS is forced on the process.
    Trapped,
    /// The process has ended with this status.
    Ended(u32),
    /// The process runs another program.
    Executed,
}

impl Outcome {
    /// What a call comes to that fails: it returns the negated error.
    #[inline(always)]
    pub fn failed(errno: Errno) -> Outcome
        ensures { result ≡ Returned (neg_ℤ (pos (errno_of errno))) }
    {
        Outcome::Returned(-i64::from(errno.number()))
    }
}

/// What a delivered signal did.
#[derive(Clone, Copy, PartialEq, Eq, Debug)]
pub enum Effect {
    Ignored,
    Stopped,
    /// The process has ended with this status.
    Ended(u32),
    /// A handler runs. `interrupted` says that it has ended a call that the process waited in.
    Handler { program: u64, interrupted: bool },
}

/// Why an event is not possible.
#[derive(Clone, Copy, PartialEq, Eq, Debug)]
pub enum Reason {
    /// There is no process with this pid.
    NoProcess,
    /// The process has ended.
    Zombie,
    /// The process is stopped.
    Stopped,
    /// The process waits in a call.
    Waiting,
    /// A signal is to be delivered first.
    SignalFirst,
    /// The process waits in no call, or no signal is to be delivered.
    NothingWaits,
    /// Process 1 has ended, and with it the system.
    Halted,
}

impl Reason {
    /// Its number.
    pub fn number(self) -> u8
        ensures { result ≡ number_of self }
    {
        match self {
            Reason::NoProcess => 1,
            Reason::Zombie => 2,
            Reason::Stopped => 3,
            Reason::Waiting => 4,
            Reason::SignalFirst => 5,
            Reason::NothingWaits => 6,
            Reason::Halted => 7,
        }
    }
}
