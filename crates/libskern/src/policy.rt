//! The filter of a policy's text.
ghost use Rattle.std.specs.Prelude.{◌≡◌, ◌≢◌, IfOk, IsErr};
ghost use Rattle.libskern.specs.Faults.{no_memory};
ghost use Rattle.libskern.specs.Policies.{AnswersPolicy, at_line, told_of_policy, told_of_refusal};

use crate::writing::{give, say};
use crate::{Fault, reason};
use sk_policy_text::{PolicyFault, Refusal, made, refusal_text};
use std::alloc::{AllocError, Global};

/// Writes the image of the filter of a policy's text, or why it has none.
pub(crate) fn written(
    alloc: Global,
    text: &[u8],
    room: &mut [u8],
    size: &mut usize,
) -> Result<Fault, AllocError>
    ensures answered { IfOk result (λ fault. fault.reason ≢ no_memory × AnswersPolicy text.now room.old fault size.new room.new) }
    ensures memory { IsErr result → (size.new ≡ size.old) × (room.new ≡ room.old) }
{
    match made(alloc, text) {
        Ok(image) => Ok(give(&image, room, size)),
        Err(Refusal::Memory | Refusal::Policy(PolicyFault::Memory)) => Err(AllocError),
        Err(refusal) => {
            let what = refusal_text(alloc, text, refusal)?;
            Ok(say(told_of_refusal(refusal), &what, room, size))
        }
    }
}

fn told_of_refusal(refusal: Refusal) -> Fault
    ensures told { result ≡ told_of_refusal refusal }
{
    match refusal {
        Refusal::Sentence(_, line, _) | Refusal::Expectation(line, _) => at_line(line),
        Refusal::Policy(fault) => told_of_policy(fault),
        Refusal::TooLong => Fault::plain(reason::TOO_LONG),
        Refusal::Memory => Fault::plain(reason::NO_MEMORY),
    }
}

fn told_of_policy(fault: PolicyFault) -> Fault
    ensures told { result ≡ told_of_policy fault }
{
    match fault {
        PolicyFault::Wrong(line, _) => at_line(line),
        PolicyFault::Twice(twice) => at_line(twice.line),
        PolicyFault::Missing(_) => at_line(0),
        PolicyFault::TooLong => Fault::plain(reason::TOO_LONG),
        PolicyFault::Memory => Fault::plain(reason::NO_MEMORY),
    }
}

fn at_line(place: usize) -> Fault
    ensures line { result ≡ at_line place }
{
    Fault {
        place,
        ..Fault::plain(reason::POLICY)
    }
}
