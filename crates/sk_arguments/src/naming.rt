//! Of which calls numbers are written by constants.
ghost use Rattle.std.specs.Prelude.{◌≡◌};
ghost use Rattle.sk_arguments.specs.Naming.{call_with_constants};

use sk_names::{Architecture, name, number};

/// How numbers are written.
#[derive(Clone, Copy, Debug, PartialEq, Eq)]
pub enum Naming {
    /// As numbers.
    Numbers,
    /// By constants, where there are some.
    Constants,
}

/// The number on x86-64 of the call by whose constants the arguments of a call are written: its own, or that of its name on x32,
/// where constants are the same.
#[tactic(auto, unfolding(crate::specs::Naming::call_with_constants))]
pub fn call_with_constants(naming: Naming, architecture: Architecture, nr: u32) -> Option<u32>
    ensures call { result ≡ call_with_constants naming architecture nr }
{
    match naming {
        Naming::Numbers => None,
        Naming::Constants => match architecture {
            Architecture::X86_64 => name(architecture, nr).map(|_| nr),
            Architecture::X32 => number(Architecture::X86_64, name(architecture, nr)?.as_bytes()),
            _ => None,
        },
    }
}
