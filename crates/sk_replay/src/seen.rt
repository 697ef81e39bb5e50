//! What the calls of a log show in their arguments.
ghost use Rattle.std.specs.Prelude.{◌≡◌, IfOk, map};
ghost use Rattle.std.specs.Option.{option_map};
ghost use Rattle.sk_text.specs.Lines.{lines_of};
ghost use Rattle.sk_replay.specs.Replaying.{calls_of, each_once};
ghost use Rattle.sk_replay.specs.Seen.{seen_numbers, shown_value};

use crate::call::{Call, value_at};
use crate::tally::Tally;
use crate::value::Value;
use indexmap::IndexMap;
use sk_names::Architecture;
use std::alloc::{AllocError, Global};
use std::collections::BTreeSet;

/// The calls of the log of a process of an architecture, each once, in the order in which they first came.
pub fn calls_of(
    alloc: Global,
    architecture: Architecture,
    log: &[u8],
) -> Result<Vec<Call>, AllocError>
    ensures calls { IfOk result (λ calls. calls.items ≡ each_once (calls_of architecture (lines_of log.now))) }
{
    let tally = Tally::of(alloc, architecture, log)?;
    called(alloc, &tally.calls)
}

fn called(alloc: Global, tallied: &IndexMap<Call, u64>) -> Result<Vec<Call>, AllocError>
    ensures calls { IfOk result (λ calls. calls.items ≡ map (λ entry. entry.0) tallied.now.entries) }
{
    let mut calls = Vec::new(alloc);
    for (call, _) in tallied {
        calls.push(*call)?;
    }
    Ok(calls)
}

/// Which numbers some bits of an argument are in those of the calls that have a number, each once, in rising order. There is no
/// answer where one of these calls hides the argument or leaves it out.
#[tactic(auto, unfolding(crate::specs::Seen::seen_numbers))]
pub fn seen_numbers(
    alloc: Global,
    calls: &[Call],
    nr: u32,
    argument: usize,
    mask: u64,
) -> Result<Option<Vec<u64>>, AllocError>
    ensures seen { IfOk result (λ seen. option_map (λ numbers. numbers.items) seen ≡ seen_numbers calls.now nr argument mask) }
{
    let mut numbers = BTreeSet::new(alloc);
    for call in calls {
        if call.nr != nr {
            continue;
        }
        let Value::Told(number) = shown_value(call, argument) else {
            return Ok(None);
        };
        numbers.insert(number & mask)?;
    }
    Ok(Some(listed(alloc, &numbers)?))
}

#[tactic(auto, unfolding(crate::specs::Seen::shown_value))]
fn shown_value(call: &Call, argument: usize) -> Value
    ensures value { result ≡ shown_value call.now argument }
{
    value_at(call.shown_args(), argument, Value::Unknown)
}

fn listed(alloc: Global, numbers: &BTreeSet<u64>) -> Result<Vec<u64>, AllocError>
    ensures listed { IfOk result (λ list. list.items ≡ numbers.now.keys) }
{
    let mut list = Vec::new(alloc);
    for number in numbers {
        list.push(*number)?;
    }
    Ok(list)
}
