//! What filters answer to calls.
ghost use Rattle.std.specs.Prelude.{◌≡◌, ◌≢◌, ◌≤◌, ◌++◌, drop, length, IfOk, IsErr};
ghost use Rattle.libskern.specs.Faults.{fine, told_of_calls};
ghost use Rattle.libskern.specs.Shapes.{chain_in, verdicts_of};

use crate::filters::chain_of;
use crate::{Call, Fault, Image, reason};
use sk_filter::Chain;
use std::alloc::{AllocError, Global};

/// Writes the verdict of a chain on each call, or tells the first fault of its filters.
pub(crate) fn written(
    alloc: Global,
    filters: &[Image<'_>],
    calls: &[Call],
    verdicts: &mut [u32],
) -> Result<Fault, AllocError>
    ensures told { IfOk result (λ fault. fault ≡ told_of_calls (length calls.now) (length verdicts.old) (chain_in 0 filters.now)) }
    ensures verdicts { IfOk result (λ fault. fault.reason ≡ fine → IfOk (chain_in 0 filters.now) (λ chain.
        verdicts.new ≡ verdicts_of chain calls.now ++ drop (length calls.now) verdicts.old)) }
    ensures kept { IfOk result (λ fault. fault.reason ≢ fine → verdicts.new ≡ verdicts.old) }
    ensures memory { IsErr result → verdicts.new ≡ verdicts.old }
{
    if verdicts.len() < calls.len() {
        return Ok(Fault::plain(reason::NO_ROOM));
    }
    match chain_of(alloc, 0, filters)? {
        Ok(chain) => {
            answer(&chain, calls, verdicts);
            Ok(Fault::plain(reason::FINE))
        }
        Err(fault) => Ok(fault),
    }
}

// Writes the verdict on each call, where there is room for all.
fn answer(chain: &Chain, calls: &[Call], verdicts: &mut [u32])
    requires room { length calls.now ≤ length verdicts.now }
    ensures verdicts { verdicts.new ≡ verdicts_of chain.now calls.now ++ drop (length calls.now) verdicts.old }
{
    for (place, call) in calls.iter().enumerate() {
        verdicts[place] = chain.verdict(&call.record());
    }
}
