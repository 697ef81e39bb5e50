//! The sum that keeps any part of the work from being left out, and the count of the work.

/// What some work came to.
#[derive(Clone, Copy, Debug, PartialEq, Eq)]
pub struct Total {
    /// A sum over all values, in their order, that wraps.
    pub sum: u32,
    /// How much was done: instructions executed or read, calls asked about. It wraps.
    pub count: u64,
}

impl Total {
    ghost use Rattle.std.specs.Prelude.{◌≡◌, ◌+◌, ◌*◌, ◌%◌, ◌^◌};

    /// Of no work.
    pub fn new() -> Total
        ensures zero { result ≡ record { sum = 0; count = 0 } }
    {
        Total { sum: 0, count: 0 }
    }

    /// Takes in one value more, which took so much.
    #[inline(always)]
    pub fn add(&mut self, value: u32, count: u64)
        ensures sum { self.new.sum ≡ (self.old.sum * 31 % 2 ^ 32 + value) % 2 ^ 32 }
        ensures count { self.new.count ≡ (self.old.count + count) % 2 ^ 64 }
    {
        self.sum = self.sum.wrapping_mul(31).wrapping_add(value);
        self.count = self.count.wrapping_add(count);
    }
}
