//! How files are taken for filters.
ghost use Rattle.std.specs.Prelude.{◌≡◌};
ghost use Rattle.sk_ask.specs.Asked.{question_of};
ghost use Rattle.sk_ask.specs.Asking.{manner_of};

use crate::complete::is_turned;
use crate::words::Asked;

/// How files are taken for filters.
#[derive(Clone, Copy, Debug, PartialEq, Eq)]
pub struct Manner {
    /// Bytes may have the highest byte of a number first.
    pub big_endian: bool,
    /// What is passed over in a profile is trouble.
    pub strict: bool,
}

/// How they are taken where this is asked.
pub fn manner_of(asked: &Asked) -> Manner
    ensures manner { result ≡ manner_of (question_of asked.now) }
{
    Manner {
        big_endian: is_turned(asked.arch),
        strict: asked.strict,
    }
}
