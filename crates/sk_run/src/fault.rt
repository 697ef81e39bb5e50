//! The faults that end the engine: their texts, and which fault of a library becomes which of them.
use sk_scenario::ScenarioFault;
use sk_text::{ReadFault, WriteFault};
use std::alloc::AllocError;
use thiserror::Error;

/// Why the engine could not end. Its display text is the line that the program writes.
#[derive(Clone, Copy, Debug, PartialEq, Eq, Error)]
pub enum EngineFault {
    /// A read failed.
    #[error("skern: reading failed")]
    Read,
    /// The input is no scenario.
    #[error("{0}")]
    Scenario(ScenarioFault),
    /// A write failed, or took no byte.
    #[error("skern: writing failed")]
    Write,
    /// Memory was refused, when the lines of so many turns were out.
    #[error("skern: out of memory")]
    Memory { turns: u32 },
}

impl From<ReadFault> for EngineFault {
    ghost use Rattle.std.specs.Prelude.{◌≡◌};
    ghost use Rattle.sk_run.specs.Reporting.{of_reading};

    ghost from_gives = { λ fault given. given ≡ of_reading fault };

    fn from(fault: ReadFault) -> EngineFault {
        match fault {
            ReadFault::Read => EngineFault::Read,
            ReadFault::Memory => EngineFault::Memory { turns: 0 },
        }
    }
}

impl From<ScenarioFault> for EngineFault {
    ghost use Rattle.std.specs.Prelude.{◌≡◌};
    ghost use Rattle.sk_run.specs.Reporting.{of_scenario};

    ghost from_gives = { λ fault given. given ≡ of_scenario fault };

    fn from(fault: ScenarioFault) -> EngineFault {
        match fault {
            ScenarioFault::Memory => EngineFault::Memory { turns: 0 },
            _ => EngineFault::Scenario(fault),
        }
    }
}

impl From<WriteFault> for EngineFault {
    ghost use Rattle.std.specs.Prelude.{◌≡◌};
    ghost use Rattle.sk_run.specs.declared.fault.EngineFault.TheVariants.{Write};

    ghost from_gives = { λ _ given. given ≡ Write };

    fn from(_fault: WriteFault) -> EngineFault {
        EngineFault::Write
    }
}

impl From<AllocError> for EngineFault {
    ghost use Rattle.std.specs.Prelude.{◌≡◌};
    ghost use Rattle.sk_run.specs.declared.fault.EngineFault.TheVariants.{Memory};

    ghost from_gives = { λ _ given. given ≡ Memory 0 };

    fn from(_refused: AllocError) -> EngineFault {
        EngineFault::Memory { turns: 0 }
    }
}
