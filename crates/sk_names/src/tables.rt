//! The table of each architecture.
ghost use Rattle.std.specs.Prelude.{◌≡◌};
ghost use Rattle.sk_names.specs.Names.{runs_of};
ghost use Rattle.sk_names.specs.Numbers.{runs_in};

mod aarch64;
mod arm;
mod i386;
mod loongarch64;
mod ppc64le;
mod riscv64;
mod s390x;
mod x32;

use crate::architecture::Architecture;
use crate::runs::Table;

/// The runs of an architecture's numbers, but for x86-64, whose tables are in `x86_64`.
pub fn table_of(architecture: Architecture) -> Table
    ensures runs { runs_in result ≡ runs_of architecture }
{
    match architecture {
        Architecture::X86_64 => Table {
            firsts: &[],
            names: &[],
        },
        Architecture::X32 => Table {
            firsts: x32::X32_FIRSTS,
            names: x32::X32_NAMES,
        },
        Architecture::I386 => Table {
            firsts: i386::I386_FIRSTS,
            names: i386::I386_NAMES,
        },
        Architecture::Aarch64 => Table {
            firsts: aarch64::AARCH64_FIRSTS,
            names: aarch64::AARCH64_NAMES,
        },
        Architecture::Arm => Table {
            firsts: arm::ARM_FIRSTS,
            names: arm::ARM_NAMES,
        },
        Architecture::Riscv64 => Table {
            firsts: riscv64::RISCV64_FIRSTS,
            names: riscv64::RISCV64_NAMES,
        },
        Architecture::Ppc64le => Table {
            firsts: ppc64le::PPC64LE_FIRSTS,
            names: ppc64le::PPC64LE_NAMES,
        },
        Architecture::S390x => Table {
            firsts: s390x::S390X_FIRSTS,
            names: s390x::S390X_NAMES,
        },
        Architecture::Loongarch64 => Table {
            firsts: loongarch64::LOONGARCH64_FIRSTS,
            names: loongarch64::LOONGARCH64_NAMES,
        },
    }
}
