//! What a report has a line for: turns, and the ends that a run can come to.
use sk_machine::{Answer, Event};

/// Why no further turn is made.
#[derive(Clone, Copy, PartialEq, Eq, Debug)]
pub enum End {
    /// Process 1 has ended with this status, and with it the system.
    Halt(u32),
    /// No process can run.
    Idle,
    /// All turns are used.
    Limit,
}

/// A turn, which is the event of a process with its answer, or the end.
#[derive(Clone, Copy, PartialEq, Eq, Debug)]
pub enum ReportLine {
    Turn {
        turn: u32,
        event: Event,
        answer: Answer,
    },
    End(End),
}
