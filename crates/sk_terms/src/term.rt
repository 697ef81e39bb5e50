//! A term: some bits of a register of a call, and the range in which their number lies or does not lie.
ghost use Rattle.std.specs.Prelude.{◌≡◌, ◌^◌, ℕ, not, true, IsTrue};
ghost use Rattle.sk_insn.specs.declared.record.Record.{Record};
ghost use Rattle.sk_terms.specs.Terms.{takes, holds_term, is_equality, is_inequality};

/// A register of a call, as a filter sees it.
#[derive(Clone, Copy, Debug, PartialEq, Eq)]
pub enum Register {
    /// The call's number.
    Number,
    /// The instruction pointer.
    Pointer,
    /// An argument, the first one being 0.
    Argument(u8),
}

/// The registers, the last one first.
pub const REGISTERS: [Register; 8] = [
    Register::Argument(5),
    Register::Argument(4),
    Register::Argument(3),
    Register::Argument(2),
    Register::Argument(1),
    Register::Argument(0),
    Register::Pointer,
    Register::Number,
];

impl Register {
    // Where its terms stand in a condition.
    fn rank(self) -> u16 {
        match self {
            Register::Number => 0,
            Register::Pointer => 1,
            Register::Argument(i) => u16::from(i) + 2,
        }
    }
}

/// Some bits of a register, whose number lies in a range or outside of it.
#[derive(Clone, Copy, Debug, PartialEq, Eq)]
pub struct Term {
    pub register: Register,
    /// The bits.
    pub mask: u64,
    /// The range's first number.
    pub first: u64,
    /// The range's last number.
    pub last: u64,
    /// Whether the number lies in the range.
    pub inside: bool,
}

impl Term {
    /// Whether it takes a number of its bits.
    pub fn takes(&self, number: u64) -> bool
        ensures takes { result ≡ takes self.now number }
    {
        let lies = self.first <= number && number <= self.last;
        if self.inside { lies } else { !lies }
    }

    /// Whether it takes one number alone.
    pub fn is_equality(&self) -> bool
        ensures one { result ≡ is_equality self.now }
    {
        self.inside && self.first == self.last
    }

    /// Whether it takes all numbers but one.
    pub fn is_inequality(&self) -> bool
        ensures all_but_one { result ≡ is_inequality self.now }
    {
        !self.inside && self.first == self.last
    }

    /// The same bits, whatever their number is.
    pub fn any(self) -> Term
        ensures any { (call : Record) → holds_term result call ≡ true }
    {
        Term {
            first: 0,
            last: self.mask,
            inside: true,
            ..self
        }
    }

    /// Whether each number of its bits lies in its range.
    pub fn is_any(&self) -> bool
        ensures any { IsTrue result → (call : Record) → holds_term self.now call ≡ true }
    {
        self.inside && self.first == 0 && self.mask <= self.last
    }

    /// The term that holds where this one does not.
    pub fn negated(self) -> Term
        ensures negated { (call : Record) → holds_term result call ≡ not (holds_term self call) }
    {
        if !self.inside {
            return Term {
                inside: true,
                ..self
            };
        }
        if self.first == self.last {
            return self.unequal();
        }
        if self.first == 0 && self.last < self.mask {
            return Term {
                first: self.last + 1,
                last: self.mask,
                ..self
            };
        }
        if 0 < self.first && self.mask <= self.last {
            return Term {
                first: 0,
                last: self.first - 1,
                ..self
            };
        }
        Term {
            inside: false,
            ..self
        }
    }

    /// Whether it stands before another one in a condition: by its register, its bits, and its first number.
    pub fn precedes(&self, other: &Term) -> bool {
        let mine = (self.register.rank(), u64::MAX - self.mask, self.first);
        mine < (other.register.rank(), u64::MAX - other.mask, other.first)
    }

    // All numbers but one; of one bit this is one number again.
    fn unequal(self) -> Term
        requires inside { self.inside ≡ true }
        requires one { self.first ≡ self.last }
        ensures negated { (call : Record) → holds_term result call ≡ not (holds_term self call) }
    {
        if is_one_bit(self.mask) && (self.first == 0 || self.first == self.mask) {
            let other = self.mask - self.first;
            return Term {
                first: other,
                last: other,
                ..self
            };
        }
        Term {
            inside: false,
            ..self
        }
    }
}

fn is_one_bit(mask: u64) -> bool
    ensures one { IsTrue result → (place : ℕ) × (mask ≡ 2 ^ place) }
{
    let place = mask.trailing_zeros();
    place < 64 && 1u64 << place == mask
}
