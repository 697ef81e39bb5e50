//! What a profile's file is made into, or why there is nothing.
use crate::{Absence, Fault, Slip};
use sk_profile::Clash;

/// The image of a profile's filter, `struct sock_filter` for each instruction, and what is to be told of the profile
/// beside it, each in one line.
#[derive(Drop)]
pub struct Made {
    pub image: Vec<u8>,
    pub notes: Vec<String>,
}

/// Why a profile has no filter.
#[derive(Clone, Copy, Debug, PartialEq, Eq)]
pub enum Refusal {
    /// It is to hold on no machine that filters are made for.
    NoMachine,
    /// The file is no text in UTF-8.
    NotText,
    /// It is no JSON, or nests deeper than is read: this stands in it that no JSON has.
    NotJson(Option<Slip>),
    /// A key comes twice in one object.
    KeyTwice,
    /// It is what `docker inspect` prints of a container without a profile.
    NoProfile(Absence),
    /// This is wrong with the profile.
    Wrong(Fault),
    /// Two entries of `syscalls` clash.
    Clashes(Clash),
    /// The filter would have more than 4096 instructions.
    TooLong,
}
