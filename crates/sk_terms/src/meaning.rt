//! What a test of a filter means: a term on a register.
ghost use Rattle.std.specs.Prelude.{◌≡◌, ℕ, ◌==◌, ◌*◌, ◌%◌, ◌/◌, ◌^◌, nat_le, nat_lt, bit_and, IfSome, IsSome, IsTrue, Some};
ghost use Rattle.sk_insn.specs.declared.record.Record.{Record};
ghost use Rattle.sk_insn.specs.Record.{word_of, IsNative};
ghost use Rattle.sk_filter.specs.Meaning.{holds};
ghost use Rattle.sk_conditions.specs.Conditions.{holds_on};
ghost use Rattle.sk_conditions.specs.Followed.{is_word};
ghost use Rattle.sk_terms.specs.Terms.{says, half_of, register_of, register_at, holds_term, holds_meant};

use crate::term::{Register, Term};
use sk_conditions::Test;
use sk_filter::holds;
use sk_insn::{ARCHITECTURE, Comparison};

/// What a comparison asks of some bits of a word.
#[derive(Clone, Copy, Debug, PartialEq, Eq)]
pub enum Asked {
    /// Nothing: the answer is always this.
    Always(bool),
    /// To be this number.
    Is(u32),
    /// To be this number, or a greater one.
    AtLeast(u32),
    /// To have some of these bits.
    SomeOf(u32),
}

/// Half of a register.
#[derive(Clone, Copy, Debug, PartialEq, Eq)]
pub struct Half {
    pub register: Register,
    /// Whether it is the higher half.
    pub high: bool,
}

/// What a test means.
#[derive(Clone, Copy, Debug, PartialEq, Eq)]
pub enum Meant {
    /// It always answers this.
    Always(bool),
    /// This term.
    Term(Term),
}

/// What a test means for a call of x86-64, where it looks at half of a register.
pub fn mean(test: Test) -> Option<Meant>
    ensures meant { IfSome result (λ meant. (call : Record) → IsNative call → holds_on test call ≡ holds_meant meant call) }
    ensures word { IsTrue (is_word test.place) → IsSome result }
{
    if test.place == 4 {
        return Some(Meant::Always(on_architecture(test)));
    }
    let half = half_at(test.place)?;
    let asks = asks(test.mask, test.comparison, test.k);
    Some(if half.high {
        on_high(half.register, test.mask, asks)
    } else {
        on_low(half.register, test.mask, asks)
    })
}

// The answer of a test of the architecture, for a call of x86-64.
fn on_architecture(test: Test) -> bool
    ensures answer { test.place ≡ 4 → (call : Record) → IsNative call → holds_on test call ≡ result }
{
    holds(test.comparison, ARCHITECTURE & test.mask, test.k)
}

// What a comparison asks of a word with no other bits than these.
fn asks(mask: u32, comparison: Comparison, k: u32) -> Asked
    ensures asks { (word : ℕ) → holds comparison (bit_and word mask) k ≡ says result (bit_and word mask) }
{
    match comparison {
        Comparison::Equal if k & mask != k => Asked::Always(false),
        Comparison::Equal => Asked::Is(k),
        Comparison::Greater if mask <= k => Asked::Always(false),
        Comparison::Greater => Asked::AtLeast(k + 1),
        Comparison::GreaterOrEqual if mask < k => Asked::Always(false),
        Comparison::GreaterOrEqual if k == 0 => Asked::Always(true),
        Comparison::GreaterOrEqual => Asked::AtLeast(k),
        Comparison::CommonBits if mask & k == 0 => Asked::Always(false),
        Comparison::CommonBits => Asked::SomeOf(k),
    }
}

// The half of a register that is the word at a place.
fn half_at(place: u8) -> Option<Half>
    ensures half { IfSome result (λ half. (call : Record) → word_of call place ≡ Some (half_of half call)) }
    ensures word { IsTrue (is_word place) → (place ≡ 4 → ⊥) → IsSome result }
{
    if place % 4 != 0 || place >= 64 || place == 4 {
        return None;
    }
    Some(Half {
        register: register_at(place),
        high: place % 8 != 0,
    })
}

// The register whose half stands at a place.
fn register_at(place: u8) -> Register
    ensures register { result ≡ register_at place }
{
    if place == 0 {
        Register::Number
    } else if place < 16 {
        Register::Pointer
    } else {
        Register::Argument(place / 8 - 2)
    }
}

// What is asked of some bits of the lower half of a register.
fn on_low(register: Register, mask: u32, asked: Asked) -> Meant
    ensures meant { (call : Record) → says asked (bit_and (register_of register call % 2 ^ 32) mask) ≡ holds_meant result call }
{
    let bits = u64::from(mask);
    match asked {
        Asked::Always(answer) => Meant::Always(answer),
        Asked::Is(k) => Meant::Term(is(register, bits, u64::from(k))),
        Asked::AtLeast(k) => Meant::Term(at_least(register, bits, u64::from(k))),
        Asked::SomeOf(some) => Meant::Term(some_of(register, u64::from(mask & some))),
    }
}

// What is asked of some bits of the higher half of a register.
fn on_high(register: Register, mask: u32, asked: Asked) -> Meant
    ensures meant { (call : Record) → says asked (bit_and (register_of register call / 2 ^ 32 % 2 ^ 32) mask) ≡ holds_meant result call }
{
    let bits = upper(mask);
    match asked {
        Asked::Always(answer) => Meant::Always(answer),
        Asked::Is(k) => Meant::Term(is(register, bits, upper(k))),
        Asked::AtLeast(k) if mask != u32::MAX => Meant::Term(at_least(register, bits, upper(k))),
        Asked::AtLeast(k) => Meant::Term(at_least(register, u64::MAX, upper(k))),
        Asked::SomeOf(some) => Meant::Term(some_of(register, upper(mask & some))),
    }
}

// These bits in the higher half.
fn upper(bits: u32) -> u64
    ensures upper { result ≡ bits * 2 ^ 32 }
{
    u64::from(bits) << 32
}

// These bits make this number.
fn is(register: Register, mask: u64, k: u64) -> Term
    ensures holds { (call : Record) → holds_term result call ≡ (bit_and (register_of register call) mask == k) }
{
    Term {
        register,
        mask,
        first: k,
        last: k,
        inside: true,
    }
}

// They make this number, or a greater one.
fn at_least(register: Register, mask: u64, k: u64) -> Term
    ensures holds { (call : Record) → holds_term result call ≡ nat_le k (bit_and (register_of register call) mask) }
{
    Term {
        register,
        mask,
        first: k,
        last: mask,
        inside: true,
    }
}

// One of them is set.
fn some_of(register: Register, mask: u64) -> Term
    ensures holds { (call : Record) → holds_term result call ≡ nat_lt 0 (bit_and (register_of register call) mask) }
{
    Term {
        register,
        mask,
        first: 0,
        last: 0,
        inside: false,
    }
}
