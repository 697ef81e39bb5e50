//! The errors that calls answer, with their numbers on x86-64.
ghost use Rattle.std.specs.Prelude.{◌≡◌};
ghost use Rattle.sk_world.specs.Errno.{number_of};

/// Why a call is refused: the errors of errno(3) that the kernel answers, each named by its symbol.
#[derive(Clone, Copy, PartialEq, Eq, Debug)]
pub enum Errno {
    /// Operation not permitted.
    Eperm,
    /// No such file or directory.
    Enoent,
    /// No such process.
    Esrch,
    /// Interrupted by a signal.
    Eintr,
    /// No child process.
    Echild,
    /// Resource temporarily unavailable.
    Eagain,
    /// Not enough space.
    Enomem,
    /// Permission denied.
    Eacces,
    /// Bad address.
    Efault,
    /// Invalid argument.
    Einval,
    /// Function not implemented.
    Enosys,
    /// Operation not supported.
    Eopnotsupp,
}

impl Errno {
    /// The error's number on x86-64. A refused call returns it negated.
    pub fn number(self) -> u16
        ensures { result ≡ number_of self }
    {
        match self {
            Errno::Eperm => 1,
            Errno::Enoent => 2,
            Errno::Esrch => 3,
            Errno::Eintr => 4,
            Errno::Echild => 10,
            Errno::Eagain => 11,
            Errno::Enomem => 12,
            Errno::Eacces => 13,
            Errno::Efault => 14,
            Errno::Einval => 22,
            Errno::Enosys => 38,
            Errno::Eopnotsupp => 95,
        }
    }
}
