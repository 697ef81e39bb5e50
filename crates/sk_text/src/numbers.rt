//! Words that are numbers.
ghost use Rattle.std.specs.Prelude.{◌≡◌, ◌≤◌, ◌+◌, ◌*◌, ◌==◌, ◌&&◌, Some, None, is_some, IfSome};
ghost use Rattle.std.specs.Option.{SomeIff};
ghost use Rattle.std.specs.List.{list_all};
ghost use Rattle.sk_text.specs.Lines.{has_bytes};
ghost use Rattle.sk_text.specs.Numbers.{is_digit_in, number_in, number_of, up_to};

/// The number that a word is, where it is one and at most `most`. It may have any number of digits.
pub fn number_up_to(word: &[u8], most: u64) -> Option<u64>
    ensures value { result ≡ up_to most (number_of word.now) }
    ensures bound { IfSome result (λ number. number ≤ most) }
{
    let (digits, radix) = digits_of(word);
    digits_up_to(digits, radix, most)
}

/// Whether a word is a number, of whatever size.
pub fn is_number(word: &[u8]) -> bool
    ensures some { result ≡ is_some (number_of word.now) }
{
    let (digits, radix) = digits_of(word);
    are_digits(digits, radix)
}

// The digits of a number, without the mark of their radix, and the radix.
#[inline(always)]
#[tactic(auto, unfolding(crate::specs::Numbers::number_of))]
fn digits_of(word: &[u8]) -> (&[u8], u32)
    ensures same { number_in result.1 result.0.now ≡ number_of word.now }
    ensures low { 2 ≤ result.1 }
    ensures high { result.1 ≤ 36 }
{
    if word.starts_with(b"0x") {
        (&word[2..], 16)
    } else {
        (word, 10)
    }
}

// Whether these are digits of a radix, one or more.
#[tactic(auto, using(crate::proofs::Cuts::bytes_some, crate::proofs::Cuts::bytes_none))]
fn are_digits(digits: &[u8], radix: u32) -> bool
    requires low { 2 ≤ radix }
    requires high { radix ≤ 36 }
    ensures every { result ≡ has_bytes digits.now && list_all (is_digit_in radix) digits.now }
{
    !digits.is_empty() && all_digits(digits, radix)
}

fn all_digits(bytes: &[u8], radix: u32) -> bool
    requires low { 2 ≤ radix }
    requires high { radix ≤ 36 }
    ensures every { result ≡ list_all (is_digit_in radix) bytes.now }
{
    bytes.iter().all(|byte| char::from(*byte).is_digit(radix))
}

// The value of these digits of a radix, where it is at most `most`.
#[inline(always)]
fn digits_up_to(digits: &[u8], radix: u32, most: u64) -> Option<u64>
    requires low { 2 ≤ radix }
    requires high { radix ≤ 36 }
    ensures value { result ≡ up_to most (number_in radix digits.now) }
    ensures bound { IfSome result (λ number. number ≤ most) }
{
    if digits.is_empty() {
        return None;
    }
    let mut value = 0;
    for byte in digits {
        let digit = char::from(*byte).to_digit(radix)?;
        value = with_digit(value, radix, digit, most)?;
    }
    Some(value)
}

// A value with one digit more, where it is at most `most` then.
#[inline(always)]
fn with_digit(value: u64, radix: u32, digit: u32, most: u64) -> Option<u64>
    ensures next { SomeIff result (value * radix + digit ≤ most) (value * radix + digit) }
{
    let shifted = value.checked_mul(u64::from(radix))?;
    let next = shifted.checked_add(u64::from(digit))?;
    if next <= most { Some(next) } else { None }
}
