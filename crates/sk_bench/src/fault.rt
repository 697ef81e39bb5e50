//! The faults that a task ends with: their texts, their statuses, and which fault of a library becomes which.
use sk_insn::ImageFault;
use sk_kernel::Stopped;
use sk_run::EngineFault;
use sk_text::{HexFault, ReadFault};
use std::alloc::{AllocError, AllocFailed};
use std::io;
use std::io::ErrorKind;
use thiserror::Error;

/// Why a task is not done.
#[derive(Clone, Copy, Debug, PartialEq, Eq, Error)]
pub enum Fault {
    /// Standard input could not be read.
    #[error("skern: reading failed")]
    Read,
    /// Standard output could not be written.
    #[error("skern: writing failed")]
    Write,
    /// The text is no task.
    #[error("not understood")]
    NotUnderstood,
    /// A filter is refused.
    #[error("a filter is refused")]
    Refused,
    /// A store or a kernel has answered otherwise than it is to.
    #[error("another answer")]
    Otherwise,
    /// A run did not come to its end.
    #[error("{0}")]
    Engine(#[from] EngineFault),
    /// Memory was refused.
    #[error("skern: out of memory")]
    Memory,
}

impl Fault {
    /// The status that the program ends with, as `skern` has it: 3 where a read, a write or memory failed.
    pub fn status(self) -> u8 {
        match self {
            Fault::NotUnderstood | Fault::Refused | Fault::Otherwise => 1,
            Fault::Engine(EngineFault::Scenario(_)) => 1,
            Fault::Read | Fault::Write | Fault::Memory | Fault::Engine(_) => 3,
        }
    }
}

impl From<AllocError> for Fault {
    ghost use Rattle.std.specs.Prelude.{◌≡◌};
    ghost use Rattle.sk_bench.specs.declared.fault.Fault.TheVariants.{Memory};

    ghost from_gives = { λ _ fault. fault ≡ Memory };

    fn from(_refused: AllocError) -> Fault {
        Fault::Memory
    }
}

impl<T: Drop> From<AllocFailed<T>> for Fault {
    ghost use Rattle.std.specs.Prelude.{◌≡◌};
    ghost use Rattle.sk_bench.specs.declared.fault.Fault.TheVariants.{Memory};

    ghost from_gives = { λ _ fault. fault ≡ Memory };

    fn from(_refused: AllocFailed<T>) -> Fault {
        Fault::Memory
    }
}

impl From<ReadFault> for Fault {
    fn from(fault: ReadFault) -> Fault {
        match fault {
            ReadFault::Read => Fault::Read,
            ReadFault::Memory => Fault::Memory,
        }
    }
}

impl From<Stopped> for Fault {
    fn from(_stopped: Stopped) -> Fault {
        Fault::Memory
    }
}

impl From<HexFault> for Fault {
    fn from(fault: HexFault) -> Fault {
        match fault {
            HexFault::NotHexadecimal => Fault::NotUnderstood,
            HexFault::Memory => Fault::Memory,
        }
    }
}

impl From<ImageFault> for Fault {
    fn from(fault: ImageFault) -> Fault {
        match fault {
            ImageFault::Ragged | ImageFault::Empty | ImageFault::TooLong => Fault::Refused,
            ImageFault::Memory => Fault::Memory,
        }
    }
}

impl From<io::Error> for Fault {
    fn from(failed: io::Error) -> Fault {
        match failed.kind() {
            ErrorKind::OutOfMemory => Fault::Memory,
            _ => Fault::Write,
        }
    }
}
