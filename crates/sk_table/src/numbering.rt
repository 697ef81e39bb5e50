//! Which number the next child gets.
ghost use Rattle.std.specs.Prelude.{◌≡◌, ℕ, Bool};
ghost use Rattle.sk_world.specs.Numbers.{next_number};
ghost use Rattle.sk_table.specs.Free.{first_unused};

use sk_world::LAST_PID;

// How many numbers there are to be given, from 2 to the last.
const NUMBERS: u32 = LAST_PID - 1;

/// What tells which numbers are in use.
pub trait Numbers {
    ghost used: { Self → ℕ → Bool };

    /// Whether the number is in use.
    fn is_used(&self, number: u32) -> bool
        ensures { result ≡ used self.now number };
}

/// The number after this one.
pub fn next_number(number: u32) -> u32
    ensures { result ≡ next_number number }
{
    if number < LAST_PID { number + 1 } else { 2 }
}

/// The first number after the last one given that is not in use.
pub fn first_free<N: Numbers>(numbers: &N, last: u32) -> u32
    ensures { result ≡ first_unused (N.used numbers.now) NUMBERS (next_number last) }
{
    let mut number = next_number(last);
    for _tried in 0..NUMBERS {
        if !numbers.is_used(number) {
            return number;
        }
        number = next_number(number);
    }
    number
}
