//! Digits of a radix.
ghost use Rattle.std.specs.Prelude.{◌≡◌, ◌≤◌, ◌+◌, ◌*◌, IfSome, SomeIff};
ghost use Rattle.sk_text.specs.Numbers.{number_in, up_to};

/// The number that digits of a radix write, where it is at most `most`. There may be any number of digits, but not none.
pub(crate) fn digits_up_to(digits: &[u8], radix: u32, most: u64) -> Option<u64>
    requires low { 2 ≤ radix }
    requires high { radix ≤ 36 }
    ensures value { result ≡ up_to most (number_in radix digits.now) }
    ensures bound { IfSome result (λ number. number ≤ most) }
{
    if digits.is_empty() {
        return None;
    }
    let mut value = 0;
    for byte in digits {
        let digit = char::from(*byte).to_digit(radix)?;
        value = with_digit(value, radix, digit, most)?;
    }
    Some(value)
}

// A value with one digit more, where it is at most `most` then.
fn with_digit(value: u64, radix: u32, digit: u32, most: u64) -> Option<u64>
    ensures next { SomeIff result (value * radix + digit ≤ most) (value * radix + digit) }
{
    let shifted = value.checked_mul(u64::from(radix))?;
    let next = shifted.checked_add(u64::from(digit))?;
    if next <= most { Some(next) } else { None }
}
