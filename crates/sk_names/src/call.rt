//! A call as its process makes it.

/// A call as its process makes it: its number and its six registers.
#[derive(Clone, Copy, Debug, PartialEq, Eq)]
pub struct Call {
    pub nr: u32,
    pub args: [u64; 6],
}
