//! The policy of a text's sentences.
ghost use Rattle.std.specs.Prelude.{[], map, IfOk, IfErr, IfSome, IfNone, IsPermutation};
ghost use Rattle.sk_policy_text.specs.PolicyRows.{parts_of};
ghost use Rattle.sk_policy_text.specs.PolicyFaults.{AreRight};
ghost use Rattle.sk_policy_text.specs.PolicyRanges.{part_of, PartsApart, Rise};
ghost use Rattle.sk_policy_text.specs.PolicyOf.{AreNamed, IsMissing, IsPolicyOf, IsFaultOf};

use crate::draft::{Span, sorted_spans};
use crate::ordering::{are_few, twice, unnamed};
use crate::policy_fault::PolicyFault;
use crate::right::all_right;
use crate::rules::rules_of;
use crate::stated::{Stated, architecture_of, default_of, others_of};
use sk_policy::Policy;
use std::alloc::Global;

// The least number that has no verdict.
fn missing(text: &[Stated<'_>], spans: &[Span<'_>]) -> Option<u32>
    requires apart { PartsApart (map part_of spans.now) }
    requires same { IsPermutation (parts_of text.now) (map part_of spans.now) }
    ensures none { IfNone result (AreNamed text.now) }
    ensures missing { IfSome result (IsMissing text.now) }
{
    match default_of(text) {
        Some(_) => None,
        None => unnamed(architecture_of(text), spans),
    }
}

// The policy of a text whose sentences are right, by the ranges of its rows in order.
fn drafted(alloc: Global, text: &[Stated<'_>], spans: &[Span<'_>]) -> Result<Policy, PolicyFault>
    requires right { AreRight [] text.now }
    requires same { IsPermutation (parts_of text.now) (map part_of spans.now) }
    requires rise { Rise (map part_of spans.now) }
    ensures policy { IfOk result (IsPolicyOf text.now) }
    ensures fault { IfErr result (IsFaultOf text.now) }
{
    if let Some(twice) = twice(spans) {
        return Err(PolicyFault::Twice(twice));
    }
    if let Some(number) = missing(text, spans) {
        return Err(PolicyFault::Missing(number));
    }
    if !are_few(spans) {
        return Err(PolicyFault::TooLong);
    }
    let architecture = architecture_of(text);
    let others = others_of(text);
    let rules = rules_of(alloc, architecture, others, spans)?;
    Ok(Policy {
        audit: architecture.audit(),
        rules,
        default: default_of(text).unwrap_or(0),
        others,
    })
}

/// The policy that says of each call what the sentences say, or their first fault.
pub fn policy_of<'a>(alloc: Global, text: &'a [Stated<'a>]) -> Result<Policy, PolicyFault>
    ensures policy { IfOk result (IsPolicyOf text.now) }
    ensures fault { IfErr result (IsFaultOf text.now) }
{
    all_right(alloc, text)?;
    let spans = sorted_spans(alloc, text)?;
    drafted(alloc, text, &spans)
}
