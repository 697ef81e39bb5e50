//! Dispositions, the default action of each signal, and which signals are ignored.
ghost use Rattle.std.specs.Prelude.{◌≡◌, ℕ, Bool};
ghost use Rattle.sk_world.specs.Actions.{default_action, is_tty_stop, is_handler, is_ignore, is_ignored, disposition_after_exec};

use crate::signal_set::SigSet;
use crate::signals::{SIGCHLD, SIGCONT, SIGSTOP, SIGTSTP, SIGTTIN, SIGTTOU, SIGURG, SIGWINCH};

/// What a signal with the default disposition does to a process. Core files are not written, so
/// "core" is "terminate".
#[derive(Clone, Copy, PartialEq, Eq, Debug)]
pub enum DefaultAction {
    Terminate,
    Ignore,
    Stop,
    Continue,
}

/// What a process does when a signal is delivered to it.
#[derive(Clone, Copy, PartialEq, Eq, Debug)]
pub enum Disposition {
    Default,
    Ignore,
    /// Runs the program of this number, with the signals of `mask` blocked besides.
    Handler { program: u64, mask: SigSet },
}

/// The default action of a signal: signal(7).
pub fn default_action(signal: u8) -> DefaultAction
    ensures { result ≡ default_action signal }
{
    match signal {
        SIGCHLD | SIGURG | SIGWINCH => DefaultAction::Ignore,
        SIGCONT => DefaultAction::Continue,
        SIGSTOP | SIGTSTP | SIGTTIN | SIGTTOU => DefaultAction::Stop,
        _ => DefaultAction::Terminate,
    }
}

/// Whether this is a stop signal of a terminal. Its default action leaves a member of an orphaned
/// process group running: setpgid(2), "Notes".
pub fn tty_stop(signal: u8) -> bool
    ensures { result ≡ is_tty_stop signal }
{
    matches!(signal, SIGTSTP | SIGTTIN | SIGTTOU)
}

impl Disposition {
    /// Whether the signal is caught.
    pub fn is_handler(&self) -> bool
        ensures { result ≡ is_handler self.now }
    {
        matches!(self, Disposition::Handler { .. })
    }

    /// Whether this is SIG_IGN of sigaction(2). A signal can be ignored by default as well: `ignores`.
    pub fn is_ignore(&self) -> bool
        ensures { result ≡ is_ignore self.now }
    {
        matches!(self, Disposition::Ignore)
    }

    /// Whether a process with this disposition of the signal ignores it. `init` says that it is
    /// process 1, which ignores every signal that it has no handler for.
    pub fn ignores(&self, signal: u8, init: bool) -> bool
        ensures { result ≡ is_ignored signal init self.now }
    {
        match self {
            Disposition::Handler { .. } => false,
            Disposition::Ignore => true,
            Disposition::Default => {
                init || matches!(
                    default_action(signal),
                    DefaultAction::Ignore | DefaultAction::Continue
                )
            }
        }
    }

    /// The disposition that an execve leaves: execve(2).
    pub fn after_exec(self) -> Disposition
        ensures { result ≡ disposition_after_exec self }
    {
        match self {
            Disposition::Handler { .. } => Disposition::Default,
            kept => kept,
        }
    }
}
