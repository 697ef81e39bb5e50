//! What is wrong with the numbers of a text's rows, by their ranges in order.
ghost use Rattle.std.specs.Prelude.{◌≡◌, ℕ, ◌<◌, ◌≤◌, ◌^◌, true, false, map, nat_le, IfSome, IfNone};
ghost use Rattle.sk_policy_text.specs.PolicyRows.{times, is_of_x32, cases_in};
ghost use Rattle.sk_policy_text.specs.PolicyRanges.{part_of, Rise, PartsApart, IsTwice, IsUnnamed};

use crate::draft::{Span, case_count};
use crate::policy_fault::Twice;
use sk_names::Architecture;

/// The least number that stands in two ranges.
pub fn twice(spans: &[Span<'_>]) -> Option<Twice>
    requires rise { Rise (map part_of spans.now) }
    ensures none { IfNone result (PartsApart (map part_of spans.now)) }
    ensures twice { IfSome result (IsTwice (map part_of spans.now)) }
{
    let (first, others) = spans.split_first()?;
    let mut last = first;
    let mut left = others;
    while let Some((next, rest)) = left.split_first() {
        if next.first <= last.last {
            return Some(Twice {
                number: next.first,
                line: last.line.max(next.line),
                earlier: last.line.min(next.line),
            });
        }
        last = next;
        left = rest;
    }
    None
}

/// The first number from this one on that is not of x32.
fn native_from(architecture: Architecture, start: u64) -> u64
    requires inside { start ≤ 2 ^ 32 }
    ensures behind { start ≤ result }
    ensures inside { result ≤ 2 ^ 32 }
    ensures native { is_of_x32 architecture result ≡ false }
    ensures first { (nr : ℕ) → start ≤ nr → nr < result → is_of_x32 architecture nr ≡ true }
{
    if matches!(architecture, Architecture::X86_64)
        && 0x4000_0000 <= start
        && start <= 0xffff_fffe
    {
        0xffff_ffff
    } else {
        start
    }
}

/// The least number that is in none of the ranges, and not of x32.
pub fn unnamed(architecture: Architecture, spans: &[Span<'_>]) -> Option<u32>
    requires apart { PartsApart (map part_of spans.now) }
    ensures none { IfNone result ((nr : ℕ) → nr < 2 ^ 32 → times (map part_of spans.now) nr ≡ 0 → is_of_x32 architecture nr ≡ true) }
    ensures some { IfSome result (IsUnnamed architecture (map part_of spans.now)) }
{
    let mut next: u64 = 0;
    let (_, mut left) = spans.split_at(0);
    while let Some((span, rest)) = left.split_first() {
        let number = native_from(architecture, next);
        if number < u64::from(span.first) {
            return Some(number as u32);
        }
        next = u64::from(span.last) + 1;
        left = rest;
    }
    let number = native_from(architecture, next);
    if number <= u64::from(u32::MAX) {
        return Some(number as u32);
    }
    None
}

/// Whether there are few enough cases for a filter.
pub fn are_few(spans: &[Span<'_>]) -> bool
    ensures few { result ≡ nat_le (cases_in (map part_of spans.now)) 4096 }
{
    let mut count: usize = 0;
    let (_, mut left) = spans.split_at(0);
    while let Some((span, rest)) = left.split_first() {
        let more = case_count(span);
        if 4096 - count < more {
            return false;
        }
        count += more;
        left = rest;
    }
    true
}
