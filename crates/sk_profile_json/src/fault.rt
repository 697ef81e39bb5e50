//! What is wrong with a profile, and the fields that may be.
ghost use Rattle.std.specs.Prelude.{◌≡◌};
ghost use Rattle.sk_profile_json.specs.Keys.{key_of};

use crate::slip::Slip;
use std::alloc::{AllocError, AllocFailed};

/// A field of a profile, of one of its entries, or of what these have in them.
#[derive(Clone, Copy, Debug, Drop, PartialEq, Eq)]
pub enum Field {
    DefaultAction,
    DefaultErrnoRet,
    DefaultErrno,
    Architectures,
    ArchMap,
    Architecture,
    SubArchitectures,
    Flags,
    ListenerPath,
    ListenerMetadata,
    Syscalls,
    Names,
    Name,
    Action,
    ErrnoRet,
    Errno,
    Args,
    Comment,
    Includes,
    Excludes,
    Arches,
    Caps,
    MinKernel,
    Index,
    Value,
    ValueTwo,
    Op,
    Linux,
    Seccomp,
    Spec,
    HostConfig,
    SecurityOpt,
}

/// What is wrong with an object of a profile.
#[derive(Clone, Copy, Debug, Drop, PartialEq, Eq)]
pub enum Wrong {
    /// It is no object.
    NotAnObject,
    /// Its key with this number, from 0, is none that is known.
    UnknownKey(usize),
    /// It lacks this field, or the field is empty.
    Missing(Field),
    /// This field is not of its kind, or none of the names or numbers that it may be.
    NotTaken(Field),
    /// This field contradicts another of the object, or is not for it.
    Contradicts(Field),
}

impl Field {
    /// Its key in the text.
    pub fn key(self) -> &'static str
        ensures key { result.now ≡ key_of self }
    {
        match self {
            Field::DefaultAction => "defaultAction",
            Field::DefaultErrnoRet => "defaultErrnoRet",
            Field::DefaultErrno => "defaultErrno",
            Field::Architectures => "architectures",
            Field::ArchMap => "archMap",
            Field::Architecture => "architecture",
            Field::SubArchitectures => "subArchitectures",
            Field::Flags => "flags",
            Field::ListenerPath => "listenerPath",
            Field::ListenerMetadata => "listenerMetadata",
            Field::Syscalls => "syscalls",
            Field::Names => "names",
            Field::Name => "name",
            Field::Action => "action",
            Field::ErrnoRet => "errnoRet",
            Field::Errno => "errno",
            Field::Args => "args",
            Field::Comment => "comment",
            Field::Includes => "includes",
            Field::Excludes => "excludes",
            Field::Arches => "arches",
            Field::Caps => "caps",
            Field::MinKernel => "minKernel",
            Field::Index => "index",
            Field::Value => "value",
            Field::ValueTwo => "valueTwo",
            Field::Op => "op",
            Field::Linux => "linux",
            Field::Seccomp => "seccomp",
            Field::Spec => "spec",
            Field::HostConfig => "HostConfig",
            Field::SecurityOpt => "SecurityOpt",
        }
    }
}

/// Where something is wrong.
#[derive(Clone, Copy, Debug, Drop, PartialEq, Eq)]
pub enum Place {
    /// The profile itself.
    Profile,
    /// The entry of `syscalls` with this number, from 0.
    Entry(usize),
    /// In the entry with the first number the argument with the second, each from 0.
    Argument(usize, usize),
}

/// The first thing that is wrong with a profile.
#[derive(Clone, Copy, Debug, Drop, PartialEq, Eq)]
pub struct Fault {
    pub place: Place,
    pub wrong: Wrong,
}

/// Why what `docker inspect` prints of a container has no profile in it.
#[derive(Clone, Copy, Debug, Drop, PartialEq, Eq)]
pub enum Absence {
    /// No option says anything of seccomp.
    Unsaid,
    /// The option is `seccomp=builtin`.
    Builtin,
    /// The option is `seccomp=unconfined`.
    Unconfined,
    /// What the option says is no JSON.
    NotJson,
}

/// Why no profile was read.
#[derive(Clone, Copy, Debug, Drop, PartialEq, Eq)]
pub enum ReadFault {
    /// The text is no JSON, or nests deeper than is read: this stands in it that no JSON has.
    NotJson(Option<Slip>),
    /// A key comes twice in one object.
    KeyTwice,
    /// The text is what `docker inspect` prints of a container without a profile.
    NoProfile(Absence),
    /// This is wrong with the profile.
    Profile(Fault),
    /// Memory was refused.
    Memory,
}

impl From<AllocError> for ReadFault {
    ghost use Rattle.std.specs.Prelude.{◌≡◌};
    ghost use Rattle.sk_profile_json.specs.declared.fault.ReadFault.TheVariants.{Memory};

    ghost from_gives = { λ _ fault. fault ≡ Memory };

    fn from(_refused: AllocError) -> ReadFault {
        ReadFault::Memory
    }
}

impl<T: Drop> From<AllocFailed<T>> for ReadFault {
    ghost use Rattle.std.specs.Prelude.{◌≡◌};
    ghost use Rattle.sk_profile_json.specs.declared.fault.ReadFault.TheVariants.{Memory};

    ghost from_gives = { λ _ fault. fault ≡ Memory };

    fn from(_refused: AllocFailed<T>) -> ReadFault {
        ReadFault::Memory
    }
}
