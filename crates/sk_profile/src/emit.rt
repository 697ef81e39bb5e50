//! The instructions of conditions.
ghost use Rattle.std.specs.Prelude.{ℕ, ◌≡◌, ◌+◌, ◌*◌, ◌<◌, ◌≤◌, ◌++◌, length, OnOk, All};
ghost use Rattle.sk_profile.specs.declared.condition.Condition.{Condition};
ghost use Rattle.sk_profile.specs.Code.{high_code, low_code, upper_code, is_short, test_code, conditions_code};

use crate::condition::{Condition, Test};
use crate::instructions::{branch, constant, load, with};
use sk_insn::{Comparison, Insn};
use std::alloc::AllocError;

// Whether an argument is compared with a number at once, by its lower half alone.
fn is_short(narrow: bool, value: u64) -> bool
    ensures short { result ≡ is_short narrow value }
{
    narrow && value / 0x1_0000_0000 == 0
}

// How many instructions compare an argument.
fn length_of(narrow: bool, condition: Condition) -> usize
    ensures exact { (away : ℕ) → length (test_code narrow condition.test condition.index condition.value away) ≡ result }
    ensures few { result ≤ 6 }
{
    let short = is_short(narrow, condition.value);
    match condition.test {
        Test::Is | Test::IsNot => if short { 2 } else { 4 },
        Test::Below | Test::AtMost | Test::Above | Test::AtLeast => if short { 2 } else { 5 },
        Test::Masked(_) => if short { 3 } else { 6 },
    }
}

// The upper half of an argument.
fn upper(narrow: bool, index: u8) -> Insn
    requires index { index < 6 }
    ensures insn { result ≡ upper_code narrow index }
{
    if narrow {
        constant(0)
    } else {
        load(20 + 8 * u32::from(index))
    }
}

// What is asked of the upper half of an argument, which A holds, before the lower half is.
fn push_high(code: &mut Vec<Insn>, test: Test, high: u32, away: u8) -> Result<(), AllocError>
    requires near { away ≤ 200 }
    ensures code { OnOk result (code.new.items ≡ code.old.items ++ high_code test high away) }
{
    match test {
        Test::Is => code.push(branch(Comparison::Equal, high, 0, 2 + away))?,
        Test::IsNot => code.push(branch(Comparison::Equal, high, 0, 2))?,
        Test::Below | Test::AtMost => {
            code.push(branch(Comparison::Greater, high, 3 + away, 0))?;
            code.push(branch(Comparison::Equal, high, 0, 2))?;
        }
        Test::Above | Test::AtLeast => {
            code.push(branch(Comparison::Greater, high, 3, 0))?;
            code.push(branch(Comparison::Equal, high, 0, 2 + away))?;
        }
        Test::Masked(mask) => {
            code.push(with((mask / 0x1_0000_0000) as u32))?;
            code.push(branch(Comparison::Equal, high, 0, 3 + away))?;
        }
    }
    Ok(())
}

// What is asked of the lower half, which A holds then.
fn push_low(code: &mut Vec<Insn>, test: Test, low: u32, away: u8) -> Result<(), AllocError>
    ensures code { OnOk result (code.new.items ≡ code.old.items ++ low_code test low away) }
{
    if let Test::Masked(mask) = test {
        code.push(with((mask % 0x1_0000_0000) as u32))?;
    }
    code.push(match test {
        Test::Is | Test::Masked(_) => branch(Comparison::Equal, low, 0, away),
        Test::IsNot => branch(Comparison::Equal, low, away, 0),
        Test::Below => branch(Comparison::GreaterOrEqual, low, away, 0),
        Test::AtMost => branch(Comparison::Greater, low, away, 0),
        Test::Above => branch(Comparison::Greater, low, 0, away),
        Test::AtLeast => branch(Comparison::GreaterOrEqual, low, 0, away),
    })?;
    Ok(())
}

// Compares an argument, and goes on where the test holds.
fn push_test(
    code: &mut Vec<Insn>,
    narrow: bool,
    condition: Condition,
    away: u8,
) -> Result<(), AllocError>
    requires index { condition.index < 6 }
    requires near { away ≤ 200 }
    ensures code { OnOk result (code.new.items ≡
        code.old.items ++ test_code narrow condition.test condition.index condition.value away) }
{
    if !is_short(narrow, condition.value) {
        code.push(upper(narrow, condition.index))?;
        let high = (condition.value / 0x1_0000_0000) as u32;
        push_high(code, condition.test, high, away)?;
    }
    code.push(load(16 + 8 * u32::from(condition.index)))?;
    let low = (condition.value % 0x1_0000_0000) as u32;
    push_low(code, condition.test, low, away)
}

// How many instructions compare all arguments of a rule.
fn length_of_all(narrow: bool, conditions: &[Condition]) -> u8
    requires few { length conditions.now ≤ 6 }
    ensures exact { (away : ℕ) → length (conditions_code narrow conditions.now away) ≡ result }
    ensures bound { result ≤ 6 * length conditions.now }
{
    match conditions.split_first() {
        None => 0,
        Some((condition, rest)) => length_of(narrow, *condition) as u8
            + length_of_all(narrow, rest),
    }
}

/// Compares all arguments of a rule, and goes on where all tests hold. Where `narrow` is set an argument is its lower half.
pub fn push_conditions(
    code: &mut Vec<Insn>,
    narrow: bool,
    conditions: &[Condition],
    away: u8,
) -> Result<(), AllocError>
    requires indices { All (λ (c : Condition). c.index < 6) conditions.now }
    requires few { length conditions.now ≤ 6 }
    requires near { away ≤ 100 }
    ensures code { OnOk result (code.new.items ≡ code.old.items ++ conditions_code narrow conditions.now away) }
{
    match conditions.split_first() {
        None => Ok(()),
        Some((condition, rest)) => {
            push_test(code, narrow, *condition, length_of_all(narrow, rest) + away)?;
            push_conditions(code, narrow, rest, away)
        }
    }
}
