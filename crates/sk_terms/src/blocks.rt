//! A term on more bits, and two terms of which one is on the lower half of a register.
ghost use Rattle.std.specs.Prelude.{◌≡◌, ◌&&◌, ◌<◌, ◌%◌, ◌^◌, ◌+◌, ◌-◌, ◌≤◌, ℕ, bit_and, IfSome, IsSome};
ghost use Rattle.sk_insn.specs.declared.record.Record.{Record};
ghost use Rattle.sk_terms.specs.Terms.{holds_term, holds_joined};

use crate::joining::Joined;
use crate::ranges::on_same_bits;
use crate::term::Term;

/// The first number of the higher half.
const BORDER: u64 = 1 << 32;

/// The same on more bits, which all lie below its own: a range of the upper bits of a number is one of the number.
pub fn lifted(term: Term, mask: u64) -> Option<Term>
    ensures register { IfSome result (λ it. it.register ≡ term.register) }
    ensures mask { IfSome result (λ it. it.mask ≡ mask) }
    ensures holds { IfSome result (λ it. (call : Record) → holds_term it call ≡ holds_term term call) }
{
    if term.mask == mask {
        return Some(term);
    }
    if mask < term.mask {
        return None;
    }
    let more = mask - term.mask;
    let step = lowest_bit(term.mask)?;
    if step <= more || term.mask & more != 0 {
        return None;
    }
    let first = from_multiple(term.first, step)?;
    let last = term.last - term.last % step;
    if u64::MAX - more < last {
        return None;
    }
    Some(Term {
        mask,
        first,
        last: last + more,
        ..term
    })
}

// The lowest of some bits.
fn lowest_bit(mask: u64) -> Option<u64>
    ensures bit { IfSome result (λ bit. (place : ℕ) × (bit ≡ 2 ^ place)) }
    ensures lowest { IfSome result (λ bit. mask % bit ≡ 0) }
    ensures some { IfSome result (λ bit. 0 < bit) }
{
    let place = mask.trailing_zeros();
    if place >= 64 {
        return None;
    }
    let bit = 1u64 << place;
    if bit == 0 || mask % bit != 0 {
        return None;
    }
    Some(bit)
}

// The first multiple of a step that is not below a number.
fn from_multiple(number: u64, step: u64) -> Option<u64>
    requires step { 0 < step }
    ensures multiple { IfSome result (λ it. it % step ≡ 0) }
    ensures next { IfSome result (λ it. (number ≤ it) × (it < number + step)) }
{
    let beyond = number % step;
    if beyond == 0 {
        return Some(number);
    }
    let below = number - beyond;
    if u64::MAX - step < below {
        return None;
    }
    Some(below + step)
}

/// What two terms come to where both hold, if the second one is on the lower half, and the first one on the higher half too,
/// to which it leaves one number.
pub fn with_halves(one: Term, other: Term) -> Option<Joined>
    requires register { one.register ≡ other.register }
    ensures both { IfSome result (λ it. (call : Record) → holds_joined it call ≡ (holds_term one call && holds_term other call)) }
{
    if other.mask >= BORDER {
        return None;
    }
    let bits = one.mask | other.mask;
    let block = lifted(one, bits)?;
    let low = lifted(other, bits % BORDER)?;
    in_block(block, low)
}

// A range in which the higher half is one number, and a term on the lower half.
fn in_block(block: Term, low: Term) -> Option<Joined>
    requires register { block.register ≡ low.register }
    requires mask { block.mask % 2 ^ 32 ≡ low.mask }
    ensures both { IfSome result (λ it. (call : Record) → holds_joined it call ≡ (holds_term block call && holds_term low call)) }
{
    if !block.inside || block.first / BORDER != block.last / BORDER {
        return None;
    }
    if low.first >= BORDER || low.last >= BORDER {
        return None;
    }
    let base = block.first - block.first % BORDER;
    let in_range = Term {
        mask: block.mask,
        first: base + low.first,
        last: base + low.last,
        ..low
    };
    on_same_bits(block, in_range)
}
