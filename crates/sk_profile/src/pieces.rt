//! The instructions of what is said of the calls of one number. Arms that ask one argument for numbers with the same upper
//! half, and have the same value, test that half once.
ghost use Rattle.std.specs.Prelude.{◌≡◌, true, false, slice_get, Some, IfNone, ◌+◌, ◌<◌, ◌≤◌, ◌++◌, ◌∷◌, [], length, map, take, drop, OnOk, IfOk, IfSome, IsTrue, All};
ghost use Rattle.sk_insn.specs.declared.operation.Comparison.TheVariants.{Equal};
ghost use Rattle.sk_profile.specs.declared.saying.Arm.{Arm};
ghost use Rattle.sk_profile.specs.Sayings.{asks, low};
ghost use Rattle.sk_profile.specs.Alike.{asks_for_one, is_alike};
ghost use Rattle.sk_profile.specs.Code.{branch, high, half_code, lows_code, passed_over};
ghost use Rattle.sk_profile.specs.CodeViews.{arm_of, saying_of, asked_for, Asks, PutsPiece, PutsPieces, PutsSaying, IsArmOfCode, IsSayingOfCode};

use crate::condition::Test;
use crate::emit::push_conditions;
use crate::instructions::{answer, branch, load};
use crate::saying::{Arm, Saying};
use sk_insn::{Comparison, Insn};
use std::alloc::AllocError;

// At most so many arms share what they ask: a jump reaches over their tests.
const MOST_JOINED: usize = 200;

// An argument that is compared with a number for equality, and the value where it is equal.
#[derive(Clone, Copy)]
struct Question {
    index: u8,
    number: u64,
    value: u32,
}

// Asks for the lower halves of numbers, of which the first stands before the others.
fn push_lows(code: &mut Vec<Insn>, first: u64, others: &[Arm]) -> Result<(), AllocError>
    requires few { length others.now ≤ MOST_JOINED }
    ensures code { OnOk result (code.new.items ≡ code.old.items ++ lows_code (first ∷ map asked_for others.now)) }
{
    code.push(ask_low(first, others))?;
    let mut left = others;
    while let Some((arm, rest)) = left.split_first() {
        code.push(ask_low(number_of(arm), rest))?;
        left = rest;
    }
    Ok(())
}

// Asks for the lower half of a number, before others.
fn ask_low(number: u64, others: &[Arm]) -> Insn
    requires few { length others.now ≤ MOST_JOINED }
    ensures insn { result ≡ branch Equal (low number) (length others.now) (passed_over (map asked_for others.now)) }
{
    branch(
        Comparison::Equal,
        (number % 0x1_0000_0000) as u32,
        others.len() as u8,
        u8::from(others.is_empty()),
    )
}

// The number that the arm's condition has.
fn number_of(arm: &Arm) -> u64
    ensures number { result ≡ asked_for arm.now }
{
    match arm.conditions.first() {
        Some(condition) => condition.value,
        None => 0,
    }
}

// Which argument an arm with one condition compares for equality, with which number, and its value.
#[tactic(auto, using(crate::proofs::Alike::asks_nothing, crate::proofs::Alike::asks_more, crate::proofs::Alike::asks_otherwise))]
fn asked_by(arm: &Arm) -> Option<Question>
    ensures asks { IfSome result (λ it. arm_of arm.now ≡ asks it.index it.value it.number) }
    ensures none { IfNone result (asks_for_one (arm_of arm.now).conditions ≡ false) }
{
    let condition = arm.conditions.first()?;
    if arm.conditions.len() != 1 || condition.test != Test::Is {
        return None;
    }
    Some(Question {
        index: condition.index,
        number: condition.value,
        value: arm.value,
    })
}

// Whether the arm asks the same argument for a number with the same upper half, and has the same value.
#[tactic(auto, using(crate::proofs::Alike::of_another, crate::proofs::Alike::of_alike))]
fn is_like(first: Question, arm: &Arm) -> bool
    ensures like { IsTrue result → Asks first.index first.value (high first.number) arm.now }
    ensures exact { result ≡ is_alike first.index first.value (high first.number) (arm_of arm.now) }
{
    match asked_by(arm) {
        Some(other) => {
            first.index == other.index
                && first.number / 0x1_0000_0000 == other.number / 0x1_0000_0000
                && first.value == other.value
        }
        None => false,
    }
}

// How many of the arms, from the first of them on, are like that: at most so many as are joined.
fn alike(first: Question, arms: &[Arm]) -> usize
    ensures inside { result ≤ length arms.now }
    ensures few { result ≤ MOST_JOINED }
    ensures like { All (Asks first.index first.value (high first.number)) (take result arms.now) }
    ensures most { result < MOST_JOINED → (next : Arm) → slice_get arms.now result ≡ Some next → is_alike first.index first.value (high first.number) (arm_of next) ≡ false }
{
    for (at, arm) in arms.iter().enumerate() {
        if at == MOST_JOINED || !is_like(first, arm) {
            return at;
        }
    }
    arms.len()
}

// Asks for the upper half of a number, before so many more.
fn push_half(
    code: &mut Vec<Insn>,
    narrow: bool,
    first: Question,
    more: u8,
) -> Result<(), AllocError>
    requires index { first.index < 6 }
    requires few { more ≤ MOST_JOINED }
    ensures code { OnOk result (code.new.items ≡ code.old.items ++ half_code narrow first.index first.number more) }
{
    if narrow {
        return Ok(());
    }
    let high = (first.number / 0x1_0000_0000) as u32;
    code.push(load(20 + 8 * u32::from(first.index)))?;
    code.push(branch(Comparison::Equal, high, 0, 3 + more))?;
    Ok(())
}

// An arm and those behind it that share what it asks.
fn push_joined(
    code: &mut Vec<Insn>,
    narrow: bool,
    first: Question,
    others: &[Arm],
) -> Result<(), AllocError>
    requires index { first.index < 6 }
    requires within { narrow ≡ true → high first.number ≡ 0 }
    requires few { length others.now ≤ MOST_JOINED }
    requires like { All (Asks first.index first.value (high first.number)) others.now }
    ensures piece { OnOk result (PutsPiece narrow code.old.items code.new.items
        (asks first.index first.value first.number ∷ map arm_of others.now)) }
{
    push_half(code, narrow, first, others.len() as u8)?;
    code.push(load(16 + 8 * u32::from(first.index)))?;
    push_lows(code, first.number, others)?;
    code.push(answer(first.value))?;
    Ok(())
}

// An arm by itself.
fn push_single(code: &mut Vec<Insn>, narrow: bool, arm: &Arm) -> Result<(), AllocError>
    requires arm { IsArmOfCode arm.now }
    ensures piece { OnOk result (PutsPiece narrow code.old.items code.new.items (arm_of arm.now ∷ [])) }
{
    push_conditions(code, narrow, &arm.conditions, 1)?;
    code.push(answer(arm.value))?;
    Ok(())
}

// The first arm, with those of the rest that it is joined with: so many.
fn push_piece(
    code: &mut Vec<Insn>,
    narrow: bool,
    arm: &Arm,
    rest: &[Arm],
) -> Result<usize, AllocError>
    requires arm { IsArmOfCode arm.now }
    ensures inside { IfOk result (λ joined. joined ≤ length rest.now) }
    ensures piece { IfOk result (λ joined. PutsPiece narrow code.old.items code.new.items
        (arm_of arm.now ∷ map arm_of (take joined rest.now))) }
{
    let Some(first) = asked_by(arm) else {
        push_single(code, narrow, arm)?;
        return Ok(0);
    };
    let joined = alike(first, rest);
    if joined == 0 || !is_within(narrow, first.number) {
        push_single(code, narrow, arm)?;
        return Ok(0);
    }
    push_joined(code, narrow, first, &rest[..joined])?;
    Ok(joined)
}

// Whether an argument can be this number.
fn is_within(narrow: bool, number: u64) -> bool
    ensures within { IsTrue result → narrow ≡ true → high number ≡ 0 }
{
    !narrow || number / 0x1_0000_0000 == 0
}

// What the arms answer. What they leave stands behind.
fn push_arms(code: &mut Vec<Insn>, narrow: bool, arms: &[Arm]) -> Result<(), AllocError>
    requires arms { All IsArmOfCode arms.now }
    ensures pieces { OnOk result (PutsPieces narrow code.old.items code.new.items (map arm_of arms.now)) }
{
    let mut left = arms;
    while let Some((arm, rest)) = left.split_first() {
        let joined = push_piece(code, narrow, arm, rest)?;
        left = &rest[joined..];
    }
    Ok(())
}

// How many arms there are without those at the end that answer what is answered without them.
fn needed(saying: &Saying) -> usize
    ensures inside { result ≤ length saying.now.arms.items }
    ensures rest { All (λ (arm : Arm). arm.value ≡ saying.now.otherwise) (drop result saying.now.arms.items) }
    ensures none { All (λ (arm : Arm). arm.value ≡ saying.now.otherwise) saying.now.arms.items → result ≡ 0 }
{
    let mut count = 0;
    for (at, arm) in saying.arms.iter().enumerate() {
        if arm.value != saying.otherwise {
            count = at + 1;
        }
    }
    count
}

/// Appends the instructions of what is said of the calls of one number.
pub fn push_saying(code: &mut Vec<Insn>, saying: &Saying) -> Result<(), AllocError>
    requires arms { IsSayingOfCode saying.now }
    ensures code { OnOk result (PutsSaying code.old.items code.new.items (saying_of saying.now)) }
{
    push_arms(code, saying.narrow, &saying.arms[..needed(saying)])?;
    code.push(answer(saying.otherwise))?;
    Ok(())
}
