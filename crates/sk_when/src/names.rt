//! Whose names calls have, and how their numbers are written.
ghost use Rattle.std.specs.Prelude.{◌≡◌};
ghost use Rattle.sk_when.specs.Naming.{constants_of};

use sk_arguments::{Naming, call_with_constants};
use sk_names::Architecture;

/// Calls have the names that they have on an architecture, and numbers are written so.
#[derive(Clone, Copy, Debug)]
pub struct Names {
    pub naming: Naming,
    pub architecture: Architecture,
}

/// The call on x86-64 by whose constants the arguments of calls with some numbers are written: none where they are several.
pub fn constants_of(names: Names, first: u32, last: u32) -> Option<u32>
    ensures call { result ≡ constants_of names first last }
{
    if first == last {
        call_with_constants(names.naming, names.architecture, first)
    } else {
        None
    }
}
