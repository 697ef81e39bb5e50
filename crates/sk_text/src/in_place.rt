//! A line of text in place, and numbers at its end. Nothing here takes memory.
ghost use Rattle.std.specs.Prelude.{◌≡◌, ◌≤◌, ◌+◌, ◌++◌, ◌∷◌, []};
ghost use Rattle.std.specs.Fmt.{decimal, signed_decimal};
ghost use Rattle.arrayvec.specs.ArrayString.{array_string_len};
ghost use Rattle.sk_text.specs.Hexadecimal.{digit_of};

use arrayvec::ArrayString;
use itoa::Buffer;

/// A line of output, made in place, of 128 bytes at most. `Lines` are those of an input.
pub type Line = ArrayString<128>;

/// Appends a hexadecimal digit, in lower case.
#[inline]
pub fn push_digit(text: &mut Line, digit: u8)
    requires digit { digit ≤ 15 }
    requires room { array_string_len text.old + 1 ≤ 128 }
    ensures text { text.new.bytes ≡ text.old.bytes ++ digit_of digit ∷ [] }
    ensures growth { array_string_len text.new ≤ array_string_len text.old + 1 }
{
    let code = if digit < 10 { 48 + digit } else { 87 + digit };
    text.push(char::from(code));
}

/// Appends a number in decimal digits.
#[inline]
#[tactic(auto, using(std::proofs::lemmas::Fmt::decimal_digit))]
pub fn push_number(text: &mut Line, number: u32)
    requires room { array_string_len text.old + 10 ≤ 128 }
    ensures text { text.new.bytes ≡ text.old.bytes ++ decimal number }
    ensures growth { array_string_len text.new ≤ array_string_len text.old + 10 }
{
    if number < 10 {
        push_digit(text, number as u8);
    } else {
        push_digits(text, number);
    }
}

fn push_digits(text: &mut Line, number: u32)
    requires room { array_string_len text.old + 10 ≤ 128 }
    ensures text { text.new.bytes ≡ text.old.bytes ++ decimal number }
    ensures growth { array_string_len text.new ≤ array_string_len text.old + 10 }
{
    let mut buffer = Buffer::new();
    text.push_str(buffer.format(number));
}

/// Appends a number of 64 bits in decimal digits.
#[inline]
#[tactic(auto, using(std::proofs::lemmas::Fmt::decimal_digit))]
pub fn push_long(text: &mut Line, long: u64)
    requires room { array_string_len text.old + 20 ≤ 128 }
    ensures text { text.new.bytes ≡ text.old.bytes ++ decimal long }
    ensures growth { array_string_len text.new ≤ array_string_len text.old + 20 }
{
    if long < 10 {
        push_digit(text, long as u8);
    } else {
        let mut buffer = Buffer::new();
        text.push_str(buffer.format(long));
    }
}

/// Appends a number in decimal digits, behind a minus where it is negative.
#[inline]
pub fn push_signed(text: &mut Line, number: i64)
    requires room { array_string_len text.old + 20 ≤ 128 }
    ensures text { text.new.bytes ≡ text.old.bytes ++ signed_decimal number }
    ensures growth { array_string_len text.new ≤ array_string_len text.old + 20 }
{
    if number >= 0 {
        push_long(text, number as u64);
    } else {
        let mut buffer = Buffer::new();
        text.push_str(buffer.format(number));
    }
}
