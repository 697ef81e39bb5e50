//! The machines that filters of profiles are made for, and what profiles call architectures.
ghost use Rattle.std.specs.Prelude.{◌≡◌};
ghost use Rattle.sk_profile_json.specs.Machines.{is_narrow, machine_named, machine_of, own_of, row, scmp_name};

use sk_names::Architecture;

/// A machine whose containers a filter of a profile is for.
#[derive(Clone, Copy, Debug, Drop, PartialEq, Eq)]
pub enum Machine {
    X86_64,
    Aarch64,
    Riscv64,
    Ppc64le,
    Loongarch64,
}

impl Machine {
    /// All of them.
    pub const ALL: [Machine; 5] = [
        Machine::X86_64,
        Machine::Aarch64,
        Machine::Riscv64,
        Machine::Ppc64le,
        Machine::Loongarch64,
    ];

    /// The machine whose own architecture has this name.
    pub fn named(text: &[u8]) -> Option<Machine>
        ensures machine { result ≡ machine_named text.now }
    {
        Machine::ALL
            .iter()
            .copied()
            .find(|machine| machine.own().text().as_bytes() == text)
    }

    /// The machine that runs programs of an architecture.
    pub fn of(architecture: Architecture) -> Option<Machine>
        ensures machine { result ≡ machine_of architecture }
    {
        match architecture {
            Architecture::X86_64 | Architecture::X32 | Architecture::I386 => Some(Machine::X86_64),
            Architecture::Aarch64 | Architecture::Arm => Some(Machine::Aarch64),
            Architecture::Riscv64 => Some(Machine::Riscv64),
            Architecture::Ppc64le => Some(Machine::Ppc64le),
            Architecture::S390x => None,
            Architecture::Loongarch64 => Some(Machine::Loongarch64),
        }
    }

    /// Its own architecture.
    pub fn own(self) -> Architecture
        ensures own { result ≡ own_of self }
    {
        match self {
            Machine::X86_64 => Architecture::X86_64,
            Machine::Aarch64 => Architecture::Aarch64,
            Machine::Riscv64 => Architecture::Riscv64,
            Machine::Ppc64le => Architecture::Ppc64le,
            Machine::Loongarch64 => Architecture::Loongarch64,
        }
    }

    /// The other architectures that its kernel runs programs of.
    pub fn relatives(self) -> &'static [Architecture]
        ensures relatives { result.now ≡ (row self).relatives }
    {
        match self {
            Machine::X86_64 => &[Architecture::X32, Architecture::I386],
            Machine::Aarch64 => &[Architecture::Arm],
            Machine::Riscv64 | Machine::Ppc64le | Machine::Loongarch64 => &[],
        }
    }

    /// What `arches` of a profile calls it.
    pub(crate) fn arch(self) -> &'static str
        ensures arch { result.now ≡ (row self).arch }
    {
        match self {
            Machine::X86_64 => "amd64",
            Machine::Aarch64 => "arm64",
            Machine::Riscv64 => "riscv64",
            Machine::Ppc64le => "ppc64le",
            Machine::Loongarch64 => "loong64",
        }
    }
}

/// What the other fields of a profile call an architecture.
pub fn scmp_name(architecture: Architecture) -> &'static str
    ensures name { result.now ≡ scmp_name architecture }
{
    match architecture {
        Architecture::X86_64 => "SCMP_ARCH_X86_64",
        Architecture::X32 => "SCMP_ARCH_X32",
        Architecture::I386 => "SCMP_ARCH_X86",
        Architecture::Aarch64 => "SCMP_ARCH_AARCH64",
        Architecture::Arm => "SCMP_ARCH_ARM",
        Architecture::Riscv64 => "SCMP_ARCH_RISCV64",
        Architecture::Ppc64le => "SCMP_ARCH_PPC64LE",
        Architecture::S390x => "SCMP_ARCH_S390X",
        Architecture::Loongarch64 => "SCMP_ARCH_LOONGARCH64",
    }
}

/// Whether the registers of an architecture have 32 bits.
pub(crate) fn is_narrow(architecture: Architecture) -> bool
    ensures narrow { result ≡ is_narrow architecture }
{
    matches!(architecture, Architecture::I386 | Architecture::Arm)
}
