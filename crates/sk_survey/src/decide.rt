//! Which side of a conditional jump every call takes, where that is known.
ghost use Rattle.std.specs.Prelude.{◌≡◌, ◌≢◌, ℕ, ◌≤◌, None, IfSome, IsSome};
ghost use Rattle.sk_insn.specs.declared.record.Record.{Record};
ghost use Rattle.sk_filter.specs.Meaning.{holds};
ghost use Rattle.sk_survey.specs.Answers.{IsCallOf};
ghost use Rattle.sk_survey.specs.Following.{Describes, IsExact, IsParted};

use crate::known::Known;
use sk_filter::holds;
use sk_insn::Comparison;

/// The test's answer for each call with a number of the range, where it is seen to be the same for all.
pub(crate) fn decide(
    comparison: Comparison,
    a: Known,
    right: Known,
    first: u32,
    last: u32,
) -> Option<bool>
    requires range { first ≤ last }
    ensures answer { IfSome result (λ answer. (call : Record) (m n : ℕ) → IsCallOf first last call
        → Describes a call m → Describes right call n → holds comparison m n ≡ answer) }
    ensures exact { IsExact a → IsExact right → IsSome result }
    ensures parted { (k : ℕ) → result ≡ None → a ≡ Known.Number → right ≡ Known.Is k → comparison ≢ Comparison.CommonBits
        → IsParted comparison k first last }
{
    match (a, right) {
        (Known::Is(m), Known::Is(n)) => Some(holds(comparison, m, n)),
        (Known::Number, Known::Is(n)) => decide_number(comparison, n, first, last),
        _ => None,
    }
}

/// The test's answer for each number of the range and a constant, where it is seen to be the same for all: always of one
/// number, and of an order wherever it is.
pub fn decide_number(comparison: Comparison, k: u32, first: u32, last: u32) -> Option<bool>
    requires range { first ≤ last }
    ensures answer { IfSome result (λ answer. (nr : ℕ) → first ≤ nr → nr ≤ last → holds comparison nr k ≡ answer) }
    ensures alone { first ≡ last → IsSome result }
    ensures parted { result ≡ None → comparison ≢ Comparison.CommonBits → IsParted comparison k first last }
{
    match comparison {
        Comparison::Equal => decide_equal(k, first, last),
        Comparison::Greater if k < first => Some(true),
        Comparison::Greater if last <= k => Some(false),
        Comparison::Greater => None,
        Comparison::GreaterOrEqual if k <= first => Some(true),
        Comparison::GreaterOrEqual if last < k => Some(false),
        Comparison::GreaterOrEqual => None,
        Comparison::CommonBits => common_bits(k, first, last),
    }
}

// Whether all numbers of the range are the constant, or none is.
fn decide_equal(k: u32, first: u32, last: u32) -> Option<bool>
    requires range { first ≤ last }
    ensures answer { IfSome result (λ answer. (nr : ℕ) → first ≤ nr → nr ≤ last
        → holds Comparison.Equal nr k ≡ answer) }
    ensures alone { first ≡ last → IsSome result }
    ensures parted { result ≡ None → IsParted Comparison.Equal k first last }
{
    if k < first || last < k {
        Some(false)
    } else if first == last {
        Some(true)
    } else {
        None
    }
}

// Whether all numbers of the range have bits in common with a constant, or none has. It depends on what stands from
// the constant's lowest bit on.
fn common_bits(k: u32, first: u32, last: u32) -> Option<bool>
    requires range { first ≤ last }
    ensures answer { IfSome result (λ answer. (nr : ℕ) → first ≤ nr → nr ≤ last
        → holds Comparison.CommonBits nr k ≡ answer) }
    ensures alone { first ≡ last → IsSome result }
{
    if k == 0 {
        return Some(false);
    }
    let low = k.trailing_zeros();
    if first >> low != last >> low {
        return None;
    }
    Some(holds(Comparison::CommonBits, first, k))
}
