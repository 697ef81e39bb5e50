//! The faults of a text that is no scenario, each with its line.

/// Why a text is no scenario. Lines are numbered from 1; a text that is too long is line 0.
#[derive(Clone, Copy, Debug, PartialEq, Eq)]
pub enum TextFault {
    /// The line is not understood.
    Line { n: usize },
    /// The line has a name that is not given, or not to a program where one is wanted.
    Unresolved { n: usize },
    /// The line is over a limit.
    Limit { n: usize },
}
