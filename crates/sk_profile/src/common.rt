//! Numbers that two conditions both hold of, whichever argument they are on.
ghost use Rattle.std.specs.Prelude.{ℕ, ◌≡◌, ◌+◌, ◌*◌, ◌^◌, ◌<◌, ◌≤◌, true, IfSome, IfNone};
ghost use Rattle.sk_profile.specs.declared.condition.Condition.{Condition};
ghost use Rattle.sk_profile.specs.declared.condition.Test.TheVariants.{Masked};
ghost use Rattle.sk_profile.specs.Meeting.{meets, IsLeast, MeetsNone};

use crate::condition::{Condition, Test};

/// A number that both conditions hold of, if there is one: the least.
#[tactic(auto, using(crate::proofs::Least::none_between, crate::proofs::Least::none_first, crate::proofs::Least::none_second, crate::proofs::Least::gone_up))]
pub(crate) fn common(one: Condition, other: Condition) -> Option<u64>
    ensures small { IfSome result (λ number. number < 2 ^ 64) }
    ensures first { IfSome result (λ number. meets one number ≡ true) }
    ensures second { IfSome result (λ number. meets other number ≡ true) }
    ensures least { IfSome result (λ number. (lower : ℕ) → lower < number → meets one lower ≡ true → meets other lower ≡ true → ⊥) }
    ensures none { IfNone result ((number : ℕ) → number < 2 ^ 64 → meets one number ≡ true → meets other number ≡ true → ⊥) }
{
    if masks_apart(one, other) {
        return None;
    }
    let mut from = 0;
    loop {
        let number = least(other, least(one, from)?)?;
        if meets(one, number) {
            return Some(number);
        }
        from = number;
    }
}

// Whether both have masks with a bit of which the one asks otherwise than the other. Without this the loop above would count
// through all numbers there. With it two masks take a turn for each bit at most, and all others four.
fn masks_apart(one: Condition, other: Condition) -> bool
    ensures apart { result ≡ true → (number : ℕ) → meets one number ≡ true → meets other number ≡ true → ⊥ }
{
    match (one.test, other.test) {
        (Test::Masked(mask), Test::Masked(other_mask)) => {
            one.value & other_mask != other.value & mask
        }
        (_, _) => false,
    }
}

// The least number from one on that a condition holds of.
#[tactic(auto, using(crate::proofs::Least::least_is, crate::proofs::Least::none_is, crate::proofs::Least::least_is_not, crate::proofs::Least::next_is_not, crate::proofs::Least::none_is_not, crate::proofs::Least::least_below, crate::proofs::Least::none_below, crate::proofs::Least::least_at_most, crate::proofs::Least::none_at_most, crate::proofs::Least::least_above, crate::proofs::Least::next_above, crate::proofs::Least::none_above, crate::proofs::Least::least_at_least, crate::proofs::Least::value_at_least, crate::proofs::Least::least_under, crate::proofs::Least::none_under))]
fn least(condition: Condition, from: u64) -> Option<u64>
    ensures least { IfSome result (IsLeast condition from) }
    ensures none { IfNone result (MeetsNone condition from) }
{
    let value = condition.value;
    match condition.test {
        Test::Is => if from <= value { Some(value) } else { None },
        Test::IsNot => if from == value {
            from.checked_add(1)
        } else {
            Some(from)
        },
        Test::Below => if from < value { Some(from) } else { None },
        Test::AtMost => if from <= value { Some(from) } else { None },
        Test::Above => if value < from {
            Some(from)
        } else {
            value.checked_add(1)
        },
        Test::AtLeast => if value <= from {
            Some(from)
        } else {
            Some(value)
        },
        Test::Masked(mask) => least_masked(condition.index, mask, value, from),
    }
}

// The least number from one on that has these bits under a mask: its lowest bit, and the others by themselves.
fn least_masked(index: u8, mask: u64, bits: u64, from: u64) -> Option<u64>
    ensures least { IfSome result (IsLeast (record { index = index; test = Masked mask; value = bits }) from) }
    ensures none { IfNone result (MeetsNone (record { index = index; test = Masked mask; value = bits }) from) }
{
    if mask == 0 {
        return if bits == 0 { Some(from) } else { None };
    }
    let (half, bit) = (from / 2, from % 2);
    if mask % 2 == 1 {
        let start = if bits % 2 < bit { half + 1 } else { half };
        let upper = least_masked(index, mask / 2, bits / 2, start)?;
        doubled(upper, bits % 2)
    } else if bits % 2 == 1 {
        None
    } else {
        let upper = least_masked(index, mask / 2, bits / 2, half)?;
        doubled(upper, if upper == half { bit } else { 0 })
    }
}

// Twice a number, and a bit behind it.
fn doubled(number: u64, bit: u64) -> Option<u64>
    requires bit { bit ≤ 1 }
    ensures doubled { IfSome result (λ twice. twice ≡ 2 * number + bit) }
    ensures none { IfNone result (2 ^ 64 ≤ 2 * number + bit) }
{
    number.checked_mul(2)?.checked_add(bit)
}

// Whether a condition holds of a number.
fn meets(condition: Condition, number: u64) -> bool
    ensures meets { result ≡ meets condition number }
{
    let value = condition.value;
    match condition.test {
        Test::Is => number == value,
        Test::IsNot => number != value,
        Test::Below => number < value,
        Test::AtMost => number <= value,
        Test::Above => value < number,
        Test::AtLeast => value <= number,
        Test::Masked(mask) => number & mask == value,
    }
}
