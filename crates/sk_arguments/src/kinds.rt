//! What Linux reads of an argument.
ghost use Rattle.std.specs.Prelude.{◌≡◌};
ghost use Rattle.sk_arguments.specs.Reading.{kind_by, kind_of, reads_lower, reads_upper};

use crate::rows::letter;
use crate::tables::calls::KINDS;

/// What Linux takes an argument of a call for.
#[derive(Clone, Copy, Debug, PartialEq, Eq)]
pub enum Kind {
    /// The call has no such argument: no bit is read.
    Absent,
    /// A mode: 16 bits.
    Mode,
    /// An int, with its sign.
    Int,
    /// 32 bits without a sign.
    Unsigned,
    /// A number of 64 bits.
    Long,
    /// An address in the memory of the caller.
    Pointer,
}

/// What Linux takes an argument for, by the call's number on x86-64 or on x32, and the argument's place from 0 on. Of what the
/// table does not know it is Long, so that each bit counts as read.
#[tactic(auto, unfolding(crate::specs::Reading::kind_of))]
pub fn kind_of(nr: u32, i: usize) -> Kind
    ensures kind { result ≡ kind_of nr i }
{
    kind_by(letter(KINDS, nr, i))
}

/// Whether Linux reads the upper half of such an argument.
pub fn reads_upper(kind: Kind) -> bool
    ensures upper { result ≡ reads_upper kind }
{
    matches!(kind, Kind::Long | Kind::Pointer)
}

/// Whether Linux reads the lower half of such an argument, or some bits of it.
pub fn reads_lower(kind: Kind) -> bool
    ensures lower { result ≡ reads_lower kind }
{
    !matches!(kind, Kind::Absent)
}

// The kind by its letter in the table.
#[tactic(auto, unfolding(crate::specs::Reading::kind_by))]
fn kind_by(letter: Option<u8>) -> Kind
    ensures kind { result ≡ kind_by letter }
{
    match letter {
        Some(b'-') => Kind::Absent,
        Some(b'm') => Kind::Mode,
        Some(b'i') => Kind::Int,
        Some(b'u') => Kind::Unsigned,
        Some(b'p') => Kind::Pointer,
        _ => Kind::Long,
    }
}
