//! How many instructions a jump passes over: one shape, of which the width alone differs.
ghost use Rattle.std.specs.Prelude.{◌≡◌, ◌≤◌, ◌-◌, ◌^◌, ℕ};
ghost use Rattle.std.specs.Option.{option_map};
ghost use Rattle.sk_text.specs.Numbers.{number_of, up_to};

use crate::value::{u8_of, u32_of};

// How many instructions a jump passes over, as wide as its field.
pub(crate) trait Distance: Copy {
    ghost number: { Self → ℕ };

    ghost most: { ℕ };

    fn most() -> usize
        ensures most { result ≡ most };

    fn of(count: usize) -> Self
        requires fits { count ≤ most }
        ensures number { number result ≡ count };

    // The number of these digits.
    fn read(digits: &[u8]) -> Option<Self>
        ensures value { option_map number result ≡ up_to most (number_of digits.now) };
}

// In a conditional jump.
impl Distance for u8 {
    ghost number = { λ count. count };

    ghost most = { 2 ^ 8 - 1 };

    fn most() -> usize {
        usize::from(u8::MAX)
    }

    fn of(count: usize) -> u8 {
        count as u8
    }

    fn read(digits: &[u8]) -> Option<u8> {
        u8_of(digits)
    }
}

// In any other.
impl Distance for u32 {
    ghost number = { λ count. count };

    ghost most = { 2 ^ 32 - 1 };

    fn most() -> usize {
        u32::MAX as usize
    }

    fn of(count: usize) -> u32 {
        count as u32
    }

    fn read(digits: &[u8]) -> Option<u32> {
        u32_of(digits)
    }
}
