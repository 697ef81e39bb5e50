//! Levels: places in programs, as far as a process has come.

/// How far a process is in the script of a program. The mark says that the call which ends the script was made and
/// not performed.
#[derive(Clone, Copy, PartialEq, Eq, Debug)]
pub struct Level {
    pub program: u64,
    pub position: usize,
    pub refused: bool,
}
