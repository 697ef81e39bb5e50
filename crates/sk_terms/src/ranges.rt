//! Two terms on the same bits.
ghost use Rattle.std.specs.Prelude.{◌≡◌, ◌&&◌, true, false, IfSome, IsSome};
ghost use Rattle.sk_insn.specs.declared.record.Record.{Record};
ghost use Rattle.sk_terms.specs.Terms.{holds_term, holds_joined};

use crate::joining::Joined;
use crate::term::Term;

/// What two terms on the same bits come to where both hold, if it is one term.
pub fn on_same_bits(one: Term, other: Term) -> Option<Joined>
    requires register { one.register ≡ other.register }
    requires bits { one.mask ≡ other.mask }
    ensures both { IfSome result (λ it. (call : Record) → holds_joined it call ≡ (holds_term one call && holds_term other call)) }
    ensures ranges { one.inside ≡ true → other.inside ≡ true → IsSome result }
{
    match (one.inside, other.inside) {
        (true, true) => Some(within_both(one, other)),
        (true, false) => within_one(one, other),
        (false, true) => within_one(other, one),
        (false, false) => within_none(one, other),
    }
}

// The numbers that are in both ranges.
fn within_both(one: Term, other: Term) -> Joined
    requires register { one.register ≡ other.register }
    requires bits { one.mask ≡ other.mask }
    requires one { one.inside ≡ true }
    requires other { other.inside ≡ true }
    ensures both { (call : Record) → holds_joined result call ≡ (holds_term one call && holds_term other call) }
{
    let first = one.first.max(other.first);
    let last = one.last.min(other.last);
    if last < first {
        return Joined::Never;
    }
    Joined::One(Term { first, last, ..one })
}

// The numbers of one range that are not in the other one, where these are neighbours.
fn within_one(one: Term, other: Term) -> Option<Joined>
    requires register { one.register ≡ other.register }
    requires bits { one.mask ≡ other.mask }
    requires one { one.inside ≡ true }
    requires other { other.inside ≡ false }
    ensures both { IfSome result (λ it. (call : Record) → holds_joined it call ≡ (holds_term one call && holds_term other call)) }
{
    if other.last < one.first || one.last < other.first {
        return Some(Joined::One(one));
    }
    match (other.first <= one.first, one.last <= other.last) {
        (true, true) => Some(Joined::Never),
        (true, false) => Some(Joined::One(Term {
            first: other.last + 1,
            ..one
        })),
        (false, true) => Some(Joined::One(Term {
            last: other.first - 1,
            ..one
        })),
        (false, false) => None,
    }
}

// The numbers that are in none of two ranges which touch.
fn within_none(one: Term, other: Term) -> Option<Joined>
    requires register { one.register ≡ other.register }
    requires bits { one.mask ≡ other.mask }
    requires one { one.inside ≡ false }
    requires other { other.inside ≡ false }
    ensures both { IfSome result (λ it. (call : Record) → holds_joined it call ≡ (holds_term one call && holds_term other call)) }
{
    if one.last < one.first || other.last < other.first {
        return None;
    }
    if one.last.saturating_add(1) < other.first || other.last.saturating_add(1) < one.first {
        return None;
    }
    let first = one.first.min(other.first);
    let last = one.last.max(other.last);
    if first == 0 && one.mask <= last {
        return Some(Joined::Never);
    }
    let hull = Term { first, last, ..one };
    Some(Joined::One(hull.negated().negated()))
}
