//! What calls come to that return a number.

ghost use Rattle.std.specs.Prelude.{◌≡◌};
ghost use Rattle.sk_machine.specs.declared.answer.Outcome.TheVariants.{Ids};
ghost use Rattle.sk_kernel.specs.views.Returned.{returned, done};

use sk_machine::Outcome;
use sk_world::{Creds, Errno};

/// The call returns a number, or fails.
pub(crate) fn returned(answer: Result<u32, Errno>) -> Outcome
    ensures { result ≡ returned answer }
{
    match answer {
        Ok(number) => Outcome::Returned(i64::from(number)),
        Err(errno) => Outcome::failed(errno),
    }
}

/// The call returns 0, or fails.
pub(crate) fn done(answer: Result<(), Errno>) -> Outcome
    ensures { result ≡ done answer }
{
    match answer {
        Ok(()) => Outcome::Returned(0),
        Err(errno) => Outcome::failed(errno),
    }
}

/// The call returns the three user ids: getresuid(2).
pub(crate) fn ids(creds: Creds) -> Outcome
    ensures { result ≡ Ids creds.real creds.effective creds.saved }
{
    Outcome::Ids(creds.real, creds.effective, creds.saved)
}
