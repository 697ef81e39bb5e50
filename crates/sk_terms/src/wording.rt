//! How a term is said in C.
ghost use Rattle.std.specs.Prelude.{◌≡◌};
ghost use Rattle.sk_terms.specs.Expressions.{wording_of};

use crate::term::Term;

/// What an expression says of the number of some bits.
#[derive(Clone, Copy, Debug, PartialEq, Eq)]
pub enum Wording {
    /// `==`
    Is(u64),
    /// `!=`
    IsNot(u64),
    /// `<=`
    AtMost(u64),
    /// `>=`
    AtLeast(u64),
    /// From one number to another one.
    Within(u64, u64),
    /// Below one number, or above another one.
    Outside(u64, u64),
}

/// How a term is said.
pub fn worded(term: Term) -> Wording
    ensures wording { result ≡ wording_of term }
{
    if !term.inside {
        if term.first == term.last {
            Wording::IsNot(term.first)
        } else {
            Wording::Outside(term.first, term.last)
        }
    } else if term.first == term.last {
        Wording::Is(term.first)
    } else if term.first == 0 {
        Wording::AtMost(term.last)
    } else if term.mask <= term.last {
        Wording::AtLeast(term.first)
    } else {
        Wording::Within(term.first, term.last)
    }
}
