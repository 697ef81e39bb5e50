//! The faults of programs, most of them with the place where they are.

/// Why a program is refused. Places count from 0.
#[derive(Clone, Copy, Debug, PartialEq, Eq)]
pub enum CheckFault {
    /// There is no instruction.
    Empty,
    /// There are more than 4096 instructions.
    TooLong,
    /// The code is not permitted.
    Code { at: usize },
    /// No word of the record begins there.
    Load { at: usize },
    /// A division by the constant 0.
    DivZero { at: usize },
    /// A shift by a constant from 32 on.
    Shift { at: usize },
    /// There is no such scratch word: `k` is above 15.
    Word { at: usize },
    /// A jump out of the program.
    Jump { at: usize },
    /// The last instruction is no return.
    NoReturn,
    /// A scratch word is loaded that some path has not stored.
    Unstored { at: usize, word: u32 },
}
