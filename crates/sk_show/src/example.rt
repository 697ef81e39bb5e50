//! The search for a call on which a value is the verdict, and the filter that answers it.
ghost use Rattle.std.specs.Prelude.{◌≡◌, ◌≢◌, ℕ, IfOk, IfSome, IfNone, IsSomeAnd, Some, slice_get};
ghost use Rattle.sk_filter.specs.Verdict.{values_of};
ghost use Rattle.sk_show.specs.Examples.{ComesFrom, IsExample, IsShownBy, plain_call};

use crate::turning::{MOST_CALLS, end_of, push_turns};
use sk_filter::Chain;
use sk_insn::{ARCHITECTURE, Record};
use std::alloc::{AllocError, Global};

/// A call, and where the verdict on it comes from.
#[derive(Clone, Copy, Debug, PartialEq, Eq)]
pub struct Example {
    /// The call.
    pub call: Record,
    /// The number of the filter whose value is the verdict, where the oldest is 0.
    pub filter: usize,
    /// The place of the instruction at which that filter ends.
    pub place: usize,
}

/// A call of one of these numbers on which the verdict is the value, where the search finds one. It begins with a call
/// whose words are 0, and goes on with calls that turn a conditional jump on the way of one that was tried.
pub fn find(
    alloc: Global,
    chain: &Chain,
    first: u32,
    last: u32,
    value: u32,
) -> Result<Option<Example>, AllocError>
    ensures found { IfOk result (λ found. IfSome found (IsExample chain.now first last value)) }
    ensures plain { IsShownBy chain.now first last value (plain_call first)
        → IfOk result (λ found. IsSomeAnd found (λ example. example.call ≡ plain_call first)) }
{
    let mut calls = Vec::new(alloc);
    calls.push(Record::native(first, 0, [0; 6]))?;
    for tried in 0..MOST_CALLS {
        let Some(call) = calls.get(tried).copied() else {
            return Ok(None);
        };
        if let Some(found) = shown_by(chain, first, last, value, call) {
            return Ok(Some(found));
        }
        for program in chain.programs() {
            push_turns(&mut calls, program, &call, first, last)?;
        }
    }
    Ok(None)
}

/// What a call shows of the value, if it is an example.
pub fn shown_by(chain: &Chain, first: u32, last: u32, value: u32, call: Record) -> Option<Example>
    ensures found { IfSome result (IsExample chain.now first last value) }
    ensures call { IfSome result (λ example. example.call ≡ call) }
    ensures none { IfNone result (IsShownBy chain.now first last value call → ⊥) }
{
    if call.arch != ARCHITECTURE
        || call.nr < first
        || call.nr > last
        || chain.verdict(&call) != value
    {
        return None;
    }
    let (filter, place) = answering(chain, &call, value)?;
    Some(Example {
        call,
        filter,
        place,
    })
}

/// The newest filter that answers the value, where the oldest is 0, and the place where it ends.
pub fn answering(chain: &Chain, call: &Record, value: u32) -> Option<(usize, usize)>
    ensures source { IfSome result (λ found. ComesFrom chain.now call.now value found.0 found.1) }
    ensures none { IfNone result ((newer : ℕ) → slice_get (values_of chain.now call.now) newer ≢ Some value) }
{
    let mut older = chain.len();
    for program in chain.programs() {
        older -= 1;
        let end = end_of(program, call);
        if end.value == value {
            return Some((older, end.place));
        }
    }
    None
}
