//! Rules with conditions that fit one call and say different things of it.
ghost use Rattle.std.specs.Prelude.{ℕ, ◌≡◌, ◌≢◌, ◌^◌, ◌<◌, map, true, All, IfSome, IfNone};
ghost use Rattle.sk_profile.specs.declared.condition.Condition.{Condition};
ghost use Rattle.sk_insn.specs.declared.record.Record.{Record};
ghost use Rattle.sk_profile.specs.declared.saying.Arm.{Arm};
ghost use Rattle.sk_profile.specs.CodeViews.{arm_of, saying_of, AreAsked, IsArmOfCode, IsSayingOfCode};
ghost use Rattle.sk_profile.specs.Clashes.{AreClear, FitsBoth, AreClashing, ClashesWith, ClashesWithNone, call_of};
ghost use Rattle.sk_profile.specs.Meeting.{limit, meets, meets_on, MeetsBoth};

use crate::common::common;
use crate::condition::{Condition, Test};
use crate::saying::{Arm, Saying};

/// Two arms, by their places, and the arguments of a call that both fit.
#[derive(Clone, Copy, Debug)]
pub struct TwoArms {
    pub first: usize,
    pub second: usize,
    pub args: [u64; 6],
}

// One of other arms, by its place, with the arguments of a call that it fits too.
#[derive(Clone, Copy)]
struct Other {
    place: usize,
    args: [u64; 6],
}

// Two arms that fit one call of an architecture and have different values, if there are such.
#[tactic(auto, using(crate::proofs::Clearing::first_good, crate::proofs::Clearing::rest_good))]
pub(crate) fn clash(arch: u32, nr: u32, saying: &Saying) -> Option<TwoArms>
    requires arms { IsSayingOfCode saying.now }
    ensures none { IfNone result (AreClear (saying_of saying.now)) }
    ensures clash { IfSome result (AreClashing arch nr (saying_of saying.now)) }
{
    let mut first = 0;
    let mut left: &[Arm] = &saying.arms;
    while let Some((arm, rest)) = left.split_first() {
        if let Some(other) = clash_with(saying.narrow, arm, rest) {
            let second = first + 1 + other.place;
            let args = other.args;
            return Some(TwoArms {
                first,
                second,
                args,
            });
        }
        first += 1;
        left = rest;
    }
    None
}

// The first that clashes with the arm.
#[tactic(auto, using(crate::proofs::Clearing::first_good))]
fn clash_with(narrow: bool, arm: &Arm, others: &[Arm]) -> Option<Other>
    requires arm { IsArmOfCode arm.now }
    requires others { All IsArmOfCode others.now }
    ensures none { IfNone result (All (λ (other : Arm). ClashesWithNone narrow (arm_of arm.now) (arm_of other)) others.now) }
    ensures place { IfSome result (λ it. ClashesWith narrow (arm_of arm.now) (map arm_of others.now) it.place it.args) }
{
    let mut place = 0;
    let mut left = others;
    while let Some((other, rest)) = left.split_first() {
        if let Some(args) = clashing(narrow, arm, other) {
            return Some(Other { place, args });
        }
        place += 1;
        left = rest;
    }
    None
}

// The arguments of a call that both fit, where they have different values.
fn clashing(narrow: bool, one: &Arm, other: &Arm) -> Option<[u64; 6]>
    requires one { IsArmOfCode one.now }
    requires other { IsArmOfCode other.now }
    ensures none { IfNone result (ClashesWithNone narrow (arm_of one.now) (arm_of other.now)) }
    ensures fits { IfSome result (λ args. (arch nr : ℕ) → arch < 2 ^ 32 → nr < 2 ^ 32 → FitsBoth narrow one.now.conditions.items other.now.conditions.items (call_of arch nr args)) }
    ensures differ { IfSome result (λ _. one.now.value ≢ other.now.value) }
{
    if one.value == other.value {
        return None;
    }
    fitting(narrow, &one.conditions, &other.conditions)
}

// The arguments of a call that all conditions hold of, if there is one.
fn fitting(narrow: bool, conditions: &[Condition], others: &[Condition]) -> Option<[u64; 6]>
    requires asked { AreAsked conditions.now }
    requires others { AreAsked others.now }
    ensures none { IfNone result ((call : Record) → FitsBoth narrow conditions.now others.now call → ⊥) }
    ensures fits { IfSome result (λ args. (arch nr : ℕ) → arch < 2 ^ 32 → nr < 2 ^ 32 → FitsBoth narrow conditions.now others.now (call_of arch nr args)) }
{
    let first = argument(narrow, conditions, others, 0)?;
    let second = argument(narrow, conditions, others, 1)?;
    let third = argument(narrow, conditions, others, 2)?;
    let fourth = argument(narrow, conditions, others, 3)?;
    let fifth = argument(narrow, conditions, others, 4)?;
    let sixth = argument(narrow, conditions, others, 5)?;
    Some([first, second, third, fourth, fifth, sixth])
}

// What the argument with this index may be.
fn argument(narrow: bool, conditions: &[Condition], others: &[Condition], index: u8) -> Option<u64>
    requires asked { AreAsked conditions.now }
    requires others { AreAsked others.now }
    ensures both { IfSome result (MeetsBoth narrow conditions.now others.now index) }
    ensures none { IfNone result ((number : ℕ) → number < limit narrow → meets_on index conditions.now number ≡ true → meets_on index others.now number ≡ true → ⊥) }
{
    let one = on(conditions, index);
    let other = on(others, index);
    let number = common(one, other)?;
    if narrow && number > u64::from(u32::MAX) {
        return None;
    }
    Some(number)
}

// The condition on the argument with this index; where there is none, one that holds of every number.
#[tactic(auto, using(crate::proofs::Clearing::on_this, crate::proofs::Clearing::on_others, crate::proofs::Clearing::on_nothing, crate::proofs::Clearing::asked_rest))]
fn on(conditions: &[Condition], index: u8) -> Condition
    requires asked { AreAsked conditions.now }
    ensures same { (number : ℕ) → meets_on index conditions.now number ≡ meets result number }
{
    let Some((condition, rest)) = conditions.split_first() else {
        return Condition {
            index,
            test: Test::AtLeast,
            value: 0,
        };
    };
    if condition.index == index {
        return *condition;
    }
    on(rest, index)
}
