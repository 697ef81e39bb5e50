//! Processes, with their links and their bodies, and how many there are at most.
ghost use Rattle.std.specs.Prelude.{◌≡◌};

use crate::request::Request;
use crate::{Creds, SigState};
use sk_filter::Chain;

/// The process that the system starts with.
pub const INIT: u32 = 1;

/// The largest pid, and the largest number of a group or session.
pub const LAST_PID: u32 = 32767;

/// The most processes that there are at a time, zombies counted.
pub const PROCESSES: usize = 1024;

/// The numbers that tie a process to others: its parent, its process group and its session,
/// credentials(7).
#[derive(Clone, Copy, PartialEq, Eq, Debug)]
pub struct Links {
    pub parent: u32,
    pub group: u32,
    pub session: u32,
}

/// Whether a process runs, is stopped by a signal, or has ended and is not yet waited for.
#[derive(Clone, Copy, PartialEq, Eq, Debug)]
pub enum Life {
    Running,
    Stopped,
    /// Has ended with this status, as wait(2) tells it.
    Zombie(u32),
}

/// The call that a process waits in.
#[derive(Clone, Copy, PartialEq, Eq, Debug)]
pub enum Waiting {
    Nothing,
    Pause,
    /// A wait4(2) with this request.
    Asks(Request),
}

/// What wait(2) can tell of a process that has not ended.
#[derive(Clone, Copy, PartialEq, Eq, Debug)]
pub enum Note {
    Nothing,
    /// It was stopped by this signal.
    Stopped(u8),
    /// It was stopped, and runs again since SIGCONT.
    Continued,
}

/// What belongs to a process alone.
#[derive(Drop)]
pub struct Body {
    pub life: Life,
    pub creds: Creds,
    pub chain: Chain,
    pub signals: SigState,
    /// It has called execve(2) since it was forked.
    pub executed: bool,
    /// The orphans of its line are handed to it: prctl(2), PR_SET_CHILD_SUBREAPER.
    pub subreaper: bool,
    pub waiting: Waiting,
    pub note: Note,
}

/// A process.
#[derive(Drop)]
pub struct Proc {
    pub links: Links,
    pub body: Body,
}

impl Body {
    ghost use Rattle.sk_world.specs.Forking.{child_body};

    // What the child has that a process with this body forks: fork(2). It shares the filters.
    fn child(&self, shared: Chain) -> Body
        requires shared { shared ≡ self.now.chain }
        ensures child { result ≡ child_body self.now }
    {
        Body {
            life: Life::Running,
            creds: self.creds,
            chain: shared,
            signals: self.signals.forked(),
            executed: false,
            subreaper: false,
            waiting: Waiting::Nothing,
            note: Note::Nothing,
        }
    }
}

impl Proc {
    ghost use Rattle.sk_world.specs.Forking.{child_of};

    /// The child that the process forks, whose pid is `caller`: fork(2). These are the filters that it shares.
    pub fn child(&self, caller: u32, shared: Chain) -> Proc
        requires shared { shared ≡ self.now.body.chain }
        ensures child { result ≡ child_of caller self.now }
    {
        Proc {
            links: Links {
                parent: caller,
                group: self.links.group,
                session: self.links.session,
            },
            body: self.body.child(shared),
        }
    }
}
