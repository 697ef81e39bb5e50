//! The kinds of events, and which of them a process needs next.
ghost use Rattle.std.specs.Prelude.{◌≡◌};
ghost use Rattle.sk_machine.specs.Delivering.{is_waiting};
ghost use Rattle.sk_machine.specs.Events.{pid_of};

use sk_names::Call;
use sk_world::Waiting;

/// One event of the kernel, in which it does all that it does at once.
#[derive(Clone, Copy, PartialEq, Eq, Debug)]
pub enum Event {
    /// A process makes a call: its filters judge it, and it is performed or not.
    Call { pid: u32, ip: u64, call: Call },
    /// A signal is delivered to a process.
    Deliver { pid: u32 },
    /// A process that waits in a call asks again.
    Resume { pid: u32 },
    /// A process runs into a fault of its own.
    Fault { pid: u32 },
}

/// What the next event of a process is.
#[derive(Clone, Copy, PartialEq, Eq, Debug)]
pub enum Need {
    /// The delivery of a signal that is due.
    Deliver,
    /// A resumption of the call that it waits in.
    Resume,
    /// A call of its own.
    Call,
}

impl Event {
    /// The process whose event it is.
    pub fn pid(&self) -> u32
        ensures { result ≡ pid_of self.now }
    {
        match *self {
            Event::Call { pid, .. } => pid,
            Event::Deliver { pid } => pid,
            Event::Resume { pid } => pid,
            Event::Fault { pid } => pid,
        }
    }
}

/// Whether a process that waits for this waits in a call, which it resumes.
#[inline(always)]
pub fn is_waiting(waiting: Waiting) -> bool
    ensures { result ≡ is_waiting waiting }
{
    !matches!(waiting, Waiting::Nothing)
}
