//! What the rules of a part say of the calls of one number.
ghost use Rattle.std.specs.Prelude.{◌≡◌, ◌++◌, ◌∷◌, map, slice_get, All, IfOk, OnOk, []};
ghost use Rattle.std.specs.Option.{option_map};
ghost use Rattle.sk_profile.specs.CodeViews.{arm_of, saying_of, IsArmOfCode, IsSayingOfCode};
ghost use Rattle.sk_profile.specs.Clashes.{entries_for};
ghost use Rattle.sk_profile.specs.Profiles.{is_for, is_narrow, plain_rule, arms_for, arm_of_rule, saying_of_rules};
ghost use Rattle.sk_profile.specs.Sayings.{always};
ghost use Rattle.sk_profile.specs.Rows.{AreGood, IsGood};
ghost use Rattle.sk_profile.specs.Views.{rule_of, part_of};

use crate::condition::Condition;
use crate::profile::{Part, Rule};
use crate::rows::X32;
use crate::saying::{Arm, Saying};
use std::alloc::{AllocError, Global};

/// What the rules say of the calls with this number, or the default where none of them fits.
#[tactic(auto, using(crate::proofs::Settling::settled_plain, crate::proofs::Settling::settled_empty, crate::proofs::Settling::settled_arms))]
pub fn saying(alloc: Global, default: u32, part: &Part, nr: u32) -> Result<Saying, AllocError>
    requires good { AreGood part.now }
    ensures saying { IfOk result (λ saying. saying_of saying ≡ saying_of_rules (part_of part.now) default nr) }
    ensures good { IfOk result IsSayingOfCode }
{
    if let Some(value) = plain_value(default, &part.rules, nr) {
        return Ok(plain(alloc, value));
    }
    let arms = arms(alloc, default, &part.rules, nr)?;
    if arms.is_empty() {
        return Ok(plain(alloc, default));
    }
    Ok(Saying {
        narrow: is_narrow(part, nr),
        arms,
        otherwise: default,
    })
}

// Whether the calls with this number have arguments of 32 bits.
fn is_narrow(part: &Part, nr: u32) -> bool
    ensures narrow { result ≡ is_narrow (part_of part.now) nr }
{
    part.narrow || X32 <= nr
}

/// The same of every call.
pub fn plain(alloc: Global, value: u32) -> Saying
    ensures saying { saying_of result ≡ always value }
    ensures good { IsSayingOfCode result }
{
    Saying {
        narrow: false,
        arms: Vec::new(alloc),
        otherwise: value,
    }
}

// The value of the first rule for the number that has no conditions.
fn plain_value(default: u32, rules: &[Rule], nr: u32) -> Option<u32>
    ensures value { result ≡ option_map (λ rule. rule.value) (plain_rule default (map rule_of rules.now) nr) }
{
    let mut left = rules;
    while let Some((rule, rest)) = left.split_first() {
        if is_for(default, nr, rule) && rule.conditions.is_empty() {
            return Some(rule.value);
        }
        left = rest;
    }
    None
}

// Whether the rule is for the number and says something else than the default.
fn is_for(default: u32, nr: u32, rule: &Rule) -> bool
    ensures is_for { result ≡ is_for default nr (rule_of rule.now) }
{
    rule.number == nr && rule.value != default
}

// The rules for the number.
fn arms(alloc: Global, default: u32, rules: &[Rule], nr: u32) -> Result<Vec<Arm>, AllocError>
    requires good { All IsGood rules.now }
    ensures good { IfOk result (λ arms. All IsArmOfCode arms.items) }
    ensures arms { IfOk result (λ arms. map arm_of arms.items ≡ arms_for default (map rule_of rules.now) nr) }
{
    let mut arms = Vec::new(alloc);
    let mut left = rules;
    while let Some((rule, rest)) = left.split_first() {
        if is_for(default, nr, rule) {
            push_arm(alloc, &mut arms, rule)?;
        }
        left = rest;
    }
    Ok(arms)
}

fn push_arm(alloc: Global, arms: &mut Vec<Arm>, rule: &Rule) -> Result<(), AllocError>
    requires good { IsGood rule.now }
    ensures good { OnOk result (All IsArmOfCode arms.old.items → All IsArmOfCode arms.new.items) }
    ensures arms { OnOk result (map arm_of arms.new.items ≡ map arm_of arms.old.items ++ arm_of_rule (rule_of rule.now) ∷ []) }
{
    let conditions: Vec<Condition> = rule.conditions.to_vec(alloc)?;
    arms.push(Arm {
        conditions,
        value: rule.value,
    })?;
    Ok(())
}

/// The entry of the rule at this place among those that count for a number.
pub fn entry_at(default: u32, part: &Part, nr: u32, place: usize) -> Option<usize>
    ensures entry { result ≡ slice_get (entries_for default (part_of part.now) nr) place }
{
    let mut left = place;
    let mut rules: &[Rule] = &part.rules;
    while let Some((rule, rest)) = rules.split_first() {
        if is_for(default, nr, rule) {
            if left == 0 {
                return Some(rule.entry);
            }
            left -= 1;
        }
        rules = rest;
    }
    None
}
