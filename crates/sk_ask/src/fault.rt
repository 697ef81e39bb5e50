//! What can be wrong with files of filters.
use sk_engines::Refusal;

/// What is wrong with a line.
#[derive(Clone, Copy, Debug, PartialEq, Eq)]
pub enum LineFault {
    /// Its first word is not `filter`.
    UnknownWord,
    /// What stands behind `filter` is no bytes in hexadecimal.
    NotHexadecimal,
}

/// What is wrong with a file. Lines are counted from 1 on, and a filter that is not one of several lines has none.
#[derive(Clone, Copy, Debug, PartialEq, Eq)]
pub enum FileFault {
    /// There is no filter in it.
    NoFilter,
    /// It has an odd number of hexadecimal digits.
    OddDigits,
    /// A line of it is not understood.
    Line(usize, LineFault),
    /// A filter of it is one more than 32.
    TooMany(Option<usize>),
    /// A filter of it is not attached.
    Filter(Option<usize>, Refusal),
}

/// A file that is refused, by its number from 0 on, and why.
#[derive(Clone, Copy, Debug, PartialEq, Eq)]
pub struct Refused {
    pub file: usize,
    pub why: FileFault,
}
