//! Rules of the numbers that no row has, where they do not get the default.
ghost use Rattle.std.specs.Prelude.{◌≡◌, ℕ, ◌<◌, ◌≤◌, ◌+◌, ◌^◌, true, false, OnOk, IfSome, IfNone};
ghost use Rattle.sk_policy.specs.Sizes.{rules_most};
ghost use Rattle.sk_policy_text.specs.PolicyRows.{is_of_x32};
ghost use Rattle.sk_policy_text.specs.PolicyRules.{AddsGap, AreTheX32};
ghost use Rattle.sk_policy_text.specs.PolicySizes.{gap_bound};

use crate::sentence::Range;
use sk_names::Architecture;
use sk_policy::Rule;
use std::alloc::{AllocError, Global};

// The numbers of x32 from one to below another, if there are any.
fn x32_between(architecture: Architecture, start: u64, end: u64) -> Option<Range>
    requires inside { end ≤ 2 ^ 32 }
    ensures none { IfNone result ((nr : ℕ) → start ≤ nr → nr < end → is_of_x32 architecture nr ≡ false) }
    ensures some { IfSome result (AreTheX32 architecture start end) }
    ensures above { IfSome result (λ range. 0x40000000 < end) }
{
    if !matches!(architecture, Architecture::X86_64) {
        return None;
    }
    let first = start.max(0x4000_0000);
    let past = end.min(0xffff_ffff);
    if first < past {
        Some(Range {
            first: first as u32,
            last: (past - 1) as u32,
        })
    } else {
        None
    }
}

/// Adds a rule for the numbers of x32 from one to below another.
pub fn push_gap(
    alloc: Global,
    rules: &mut Vec<Rule>,
    architecture: Architecture,
    others: u32,
    start: u64,
    end: u64,
) -> Result<(), AllocError>
    requires inside { end ≤ 2 ^ 32 }
    ensures adds { OnOk result (AddsGap architecture others start end rules.old.items rules.new.items) }
    ensures size { OnOk result (rules_most rules.new.items ≤ rules_most rules.old.items + gap_bound end) }
{
    if let Some(range) = x32_between(architecture, start, end) {
        rules.push(Rule {
            first: range.first,
            last: range.last,
            cases: Vec::new(alloc),
            otherwise: others,
        })?;
    }
    Ok(())
}
