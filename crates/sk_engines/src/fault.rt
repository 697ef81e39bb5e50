//! The faults that end a command: their texts, and which failure of its ends becomes which of them.
use sk_text::{ReadFault, WriteFault};
use std::alloc::AllocError;
use thiserror::Error;

/// Why a command could not end. Its display text is what the program writes of it.
#[derive(Clone, Copy, Debug, PartialEq, Eq, Error)]
pub enum CommandFault {
    /// A read failed.
    #[error("{}", self.text())]
    Read,
    /// A write failed, or took no byte.
    #[error("{}", self.text())]
    Write,
    /// Memory was refused.
    #[error("{}", self.text())]
    Memory,
}

impl CommandFault {
    ghost use Rattle.std.specs.Prelude.{◌≡◌, ◌≤◌, length};
    ghost use Rattle.sk_engines.specs.Program.{fault_said};

    /// What the program writes of it.
    pub fn text(self) -> &'static str
        ensures text { result.now ≡ fault_said self }
        ensures short { length result.now ≤ 64 }
    {
        match self {
            CommandFault::Read => "skern: reading failed",
            CommandFault::Write => "skern: writing failed",
            CommandFault::Memory => "skern: out of memory",
        }
    }
}

impl From<ReadFault> for CommandFault {
    ghost use Rattle.std.specs.Prelude.{◌≡◌};
    ghost use Rattle.sk_engines.specs.Faults.{of_reading};

    ghost from_gives = { λ fault given. given ≡ of_reading fault };

    fn from(fault: ReadFault) -> CommandFault {
        match fault {
            ReadFault::Read => CommandFault::Read,
            ReadFault::Memory => CommandFault::Memory,
        }
    }
}

impl From<WriteFault> for CommandFault {
    ghost use Rattle.std.specs.Prelude.{◌≡◌};
    ghost use Rattle.sk_engines.specs.declared.fault.CommandFault.TheVariants.{Write};

    ghost from_gives = { λ _ given. given ≡ Write };

    fn from(_fault: WriteFault) -> CommandFault {
        CommandFault::Write
    }
}

impl From<AllocError> for CommandFault {
    ghost use Rattle.std.specs.Prelude.{◌≡◌};
    ghost use Rattle.sk_engines.specs.declared.fault.CommandFault.TheVariants.{Memory};

    ghost from_gives = { λ _ given. given ≡ Memory };

    fn from(_refused: AllocError) -> CommandFault {
        CommandFault::Memory
    }
}
