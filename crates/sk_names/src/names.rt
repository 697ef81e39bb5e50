//! The name of a call's number, and the number of a call's name.
ghost use Rattle.std.specs.Prelude.{◌≡◌, ◌≢◌, ℕ, is_some, IfNone, IfOk, IfSome, IsTrue};
ghost use Rattle.std.specs.List.{Contains};
ghost use Rattle.std.specs.Option.{option_map};
ghost use Rattle.sk_names.specs.Names.{name_on, number_on};
ghost use Rattle.sk_names.specs.Numbers.{numbers_on};

use crate::architecture::Architecture;
use crate::runs::{name_in, number_in, numbers_in};
use crate::tables::table_of;
use crate::x86_64;
use std::alloc::{AllocError, Global};

/// The bit that each number of x32 has.
const X32_BIT: u32 = 0x4000_0000;

/// The name of a call's number on an architecture, if it is one. The numbers of x32 have bit 30.
pub fn name(architecture: Architecture, number: u32) -> Option<&'static str>
    ensures name { option_map (λ name. name.now) result ≡ name_on architecture number }
{
    match architecture {
        Architecture::X86_64 => x86_64::name(number),
        Architecture::X32 if number < X32_BIT => None,
        Architecture::X32 => name_in(table_of(architecture), number - X32_BIT),
        _ => name_in(table_of(architecture), number),
    }
}

/// The number of the call with this name on an architecture, if there is one. The numbers of x32 have bit 30.
pub fn number(architecture: Architecture, name: &[u8]) -> Option<u32>
    ensures first { result ≡ number_on architecture name.now }
    ensures found { IfSome result (λ number. name_on architecture number ≡ Some name.now) }
    ensures none { IfNone result ((number : ℕ) → name_on architecture number ≢ Some name.now) }
{
    match architecture {
        Architecture::X86_64 => x86_64::number(name),
        Architecture::X32 => Some(X32_BIT + number_in(table_of(architecture), name)?),
        _ => number_in(table_of(architecture), name),
    }
}

/// The numbers of all calls of an architecture that have a name, in rising order. The numbers of x32 have bit 30.
pub fn numbers(alloc: Global, architecture: Architecture) -> Result<Vec<u32>, AllocError>
    ensures all { IfOk result (λ numbers. numbers.items ≡ numbers_on architecture) }
    ensures each { IfOk result (λ numbers. (nr : ℕ) → IsTrue (is_some (name_on architecture nr)) → Contains numbers.items nr) }
{
    match architecture {
        Architecture::X86_64 => x86_64::numbers(alloc),
        Architecture::X32 => numbers_in(alloc, X32_BIT, table_of(architecture)),
        _ => numbers_in(alloc, 0, table_of(architecture)),
    }
}
