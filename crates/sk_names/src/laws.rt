//! Laws on architectures and their tables. No program calls these functions: the contract of each is the law.

ghost use Rattle.std.specs.Prelude.{◌≡◌};
ghost use Rattle.sk_names.specs.Architectures.{architectures};
ghost use Rattle.sk_names.specs.Worked.{WorkedAudits, WorkedX86, WorkedX32, WorkedArm, WorkedGeneric, WorkedOthers};

use crate::architecture::Architecture;

/// The list of all architectures is that of the definition.
pub fn all_are_these()
    ensures all { Architecture.ALL ≡ architectures }
{}

/// The definitions give what linux/audit.h and the headers of calls have.
pub fn worked_rows()
    ensures audits { WorkedAudits }
    ensures x86 { WorkedX86 }
    ensures x32 { WorkedX32 }
    ensures arm { WorkedArm }
    ensures generic { WorkedGeneric }
    ensures others { WorkedOthers }
{}
