//! Which of several values takes precedence: seccomp(2), "If multiple filters exist".
ghost use Rattle.std.specs.Prelude.{◌≡◌};
ghost use Rattle.sk_filter.specs.Preceding.{preceding};
ghost use Rattle.sk_filter.specs.Verdict.{first_of, precedence_of};

use sk_insn::ALLOW;

/// The verdict of filters that answer these values, the newest first: the first value than whose action no other has
/// precedence.
pub fn first_of(values: &[u32]) -> u32
    ensures first { result ≡ first_of values.now }
{
    let mut first = None;
    for value in values {
        first = preceding(first, *value);
    }
    first.unwrap_or(ALLOW)
}

/// The first value so far, when another one comes behind it: of equal actions the earlier one stays.
pub fn preceding(first: Option<u32>, value: u32) -> Option<u32>
    ensures preceding { result ≡ preceding first value }
{
    match first {
        Some(least) if precedence(least) <= precedence(value) => Some(least),
        _ => Some(value),
    }
}

// How soon the action of a value takes precedence over others: the least first.
fn precedence(value: u32) -> i32
    ensures precedence { result ≡ precedence_of value }
{
    (value & 0xffff_0000).cast_signed()
}
