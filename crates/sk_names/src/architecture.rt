//! The architectures, by the numbers that a filter is shown and by names.
ghost use Rattle.std.specs.Prelude.{◌≡◌, IfSome};
ghost use Rattle.sk_names.specs.Architectures.{text_of, architecture_named, audit_of, is_big_endian_of};

/// An architecture by which a program can call Linux, as seccomp filters see it.
#[derive(Clone, Copy, Debug, PartialEq, Eq)]
pub enum Architecture {
    X86_64,
    X32,
    I386,
    Aarch64,
    Arm,
    Riscv64,
    Ppc64le,
    S390x,
    Loongarch64,
}

impl Architecture {
    /// All of them.
    pub const ALL: [Architecture; 9] = [
        Architecture::X86_64,
        Architecture::X32,
        Architecture::I386,
        Architecture::Aarch64,
        Architecture::Arm,
        Architecture::Riscv64,
        Architecture::Ppc64le,
        Architecture::S390x,
        Architecture::Loongarch64,
    ];

    /// The architecture with this name, if there is one.
    pub fn named(text: &[u8]) -> Option<Architecture>
        ensures architecture { result ≡ architecture_named text.now }
        ensures name { IfSome result (λ architecture. text_of architecture ≡ text.now) }
    {
        Architecture::ALL
            .iter()
            .copied()
            .find(|architecture| architecture.text().as_bytes() == text)
    }

    /// Its name.
    pub fn text(self) -> &'static str
        ensures text { result.now ≡ text_of self }
        ensures found { architecture_named result.now ≡ Some self }
    {
        match self {
            Architecture::X86_64 => "x86-64",
            Architecture::X32 => "x32",
            Architecture::I386 => "i386",
            Architecture::Aarch64 => "aarch64",
            Architecture::Arm => "arm",
            Architecture::Riscv64 => "riscv64",
            Architecture::Ppc64le => "ppc64le",
            Architecture::S390x => "s390x",
            Architecture::Loongarch64 => "loongarch64",
        }
    }

    /// The number by which a filter is shown it, AUDIT_ARCH_* of linux/audit.h. That of x32 is that of x86-64.
    pub fn audit(self) -> u32
        ensures number { result ≡ audit_of self }
    {
        match self {
            Architecture::X86_64 | Architecture::X32 => 0xC000_003E,
            Architecture::I386 => 0x4000_0003,
            Architecture::Aarch64 => 0xC000_00B7,
            Architecture::Arm => 0x4000_0028,
            Architecture::Riscv64 => 0xC000_00F3,
            Architecture::Ppc64le => 0xC000_0015,
            Architecture::S390x => 0x8000_0016,
            Architecture::Loongarch64 => 0xC000_0102,
        }
    }

    /// Whether its numbers have their highest byte first, by __AUDIT_ARCH_LE of linux/audit.h.
    pub fn is_big_endian(self) -> bool
        ensures order { result ≡ is_big_endian_of self }
    {
        matches!(self, Architecture::S390x)
    }
}
