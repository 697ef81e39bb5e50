//! Two terms that are one term together.
ghost use Rattle.std.specs.Prelude.{◌≡◌, ◌&&◌, ◌||◌, true, bit_and, IfSome, IsSome, IsTrue};
ghost use Rattle.sk_insn.specs.declared.record.Record.{Record};
ghost use Rattle.sk_terms.specs.Terms.{holds_term, holds_joined, is_equality, is_inequality};

use crate::blocks::{lifted, with_halves};
use crate::ranges::on_same_bits;
use crate::term::Term;

/// What two terms come to.
#[derive(Clone, Copy, Debug, PartialEq, Eq)]
pub enum Joined {
    /// No call meets both.
    Never,
    /// One term says the same.
    One(Term),
}

/// What two terms come to where both hold, if that is seen. Of two ranges on the same bits of a register it is.
pub fn both(one: Term, other: Term) -> Option<Joined>
    ensures both { IfSome result (λ it. (call : Record) → holds_joined it call ≡ (holds_term one call && holds_term other call)) }
    ensures ranges { one.register ≡ other.register → one.mask ≡ other.mask → one.inside ≡ true → other.inside ≡ true → IsSome result }
{
    if one.register != other.register {
        return None;
    }
    if one.mask == other.mask {
        return on_same_bits(one, other);
    }
    match on_other_bits(one, other) {
        None => on_all_bits(one, other),
        joined => joined,
    }
}

// The same of two terms on bits that differ, where both are terms on the bits of both, or one on a whole half.
fn on_all_bits(one: Term, other: Term) -> Option<Joined>
    requires register { one.register ≡ other.register }
    ensures both { IfSome result (λ it. (call : Record) → holds_joined it call ≡ (holds_term one call && holds_term other call)) }
{
    match on_bits_of_both(one, other) {
        None => match with_halves(one, other) {
            None => with_halves(other, one),
            joined => joined,
        },
        joined => joined,
    }
}

// The same of two terms that are terms on the bits of both.
fn on_bits_of_both(one: Term, other: Term) -> Option<Joined>
    requires register { one.register ≡ other.register }
    ensures both { IfSome result (λ it. (call : Record) → holds_joined it call ≡ (holds_term one call && holds_term other call)) }
{
    let bits = one.mask | other.mask;
    let first = lifted(one, bits)?;
    let second = lifted(other, bits)?;
    on_same_bits(first, second)
}

// The same of two terms on bits that differ, of which one tells the other's answer, or both are equalities.
fn on_other_bits(one: Term, other: Term) -> Option<Joined>
    requires register { one.register ≡ other.register }
    ensures both { IfSome result (λ it. (call : Record) → holds_joined it call ≡ (holds_term one call && holds_term other call)) }
{
    match told_by(one, other) {
        None => match told_by(other, one) {
            None => join(one, other),
            joined => joined,
        },
        joined => joined,
    }
}

/// The term that holds where both of two do, if that is seen.
pub fn as_one(one: Term, other: Term) -> Option<Term>
    ensures both { IfSome result (λ it. (call : Record) → holds_term it call ≡ (holds_term one call && holds_term other call)) }
{
    match both(one, other) {
        Some(Joined::One(joined)) => Some(joined),
        _ => None,
    }
}

/// The term that holds where one of two does, if that is seen.
pub fn either(one: Term, other: Term) -> Option<Term>
    ensures either { IfSome result (λ it. (call : Record) → holds_term it call ≡ (holds_term one call || holds_term other call)) }
{
    let not_one = one.negated();
    let not_other = other.negated();
    match both(not_one, not_other) {
        Some(Joined::One(neither)) => Some(neither.negated()),
        Some(Joined::Never) => Some(one.any()),
        None => None,
    }
}

// Two terms of which the first tells the answer of the second.
fn told_by(one: Term, other: Term) -> Option<Joined>
    requires register { one.register ≡ other.register }
    ensures both { IfSome result (λ it. (call : Record) → holds_joined it call ≡ (holds_term one call && holds_term other call)) }
{
    if one.is_equality() && other.mask & one.mask == other.mask {
        return covered(one, other);
    }
    if other.is_inequality() && one.mask & other.mask == one.mask {
        return spared(one, other);
    }
    None
}

// An equality, and a term on some of its bits.
fn covered(one: Term, other: Term) -> Option<Joined>
    requires register { one.register ≡ other.register }
    requires one { is_equality one ≡ true }
    requires bits { bit_and other.mask one.mask ≡ other.mask }
    ensures both { IfSome result (λ it. (call : Record) → holds_joined it call ≡ (holds_term one call && holds_term other call)) }
{
    if other.takes(one.first & other.mask) {
        return Some(Joined::One(one));
    }
    Some(Joined::Never)
}

// An inequality, and a term on some of its bits that takes no number which it leaves out.
fn spared(one: Term, other: Term) -> Option<Joined>
    requires register { one.register ≡ other.register }
    requires other { is_inequality other ≡ true }
    requires bits { bit_and one.mask other.mask ≡ one.mask }
    ensures both { IfSome result (λ it. (call : Record) → holds_joined it call ≡ (holds_term one call && holds_term other call)) }
{
    if one.takes(other.first & one.mask) {
        return None;
    }
    Some(Joined::One(one))
}

// Two terms on some bits each, or on the same bits.
fn join(one: Term, other: Term) -> Option<Joined>
    requires register { one.register ≡ other.register }
    ensures both { IfSome result (λ it. (call : Record) → holds_joined it call ≡ (holds_term one call && holds_term other call)) }
{
    if one.is_equality() && other.is_equality() {
        return equal_bits(one, other);
    }
    None
}

// Two equalities: all their bits at once, or none where they want a bit otherwise.
fn equal_bits(one: Term, other: Term) -> Option<Joined>
    requires register { one.register ≡ other.register }
    requires one { is_equality one ≡ true }
    requires other { is_equality other ≡ true }
    ensures both { IfSome result (λ it. (call : Record) → holds_joined it call ≡ (holds_term one call && holds_term other call)) }
{
    if one.first & other.mask != other.first & one.mask {
        return Some(Joined::Never);
    }
    let bits = one.first | other.first;
    if bits & one.mask != one.first || bits & other.mask != other.first {
        return None;
    }
    Some(Joined::One(Term {
        mask: one.mask | other.mask,
        first: bits,
        last: bits,
        ..one
    }))
}
