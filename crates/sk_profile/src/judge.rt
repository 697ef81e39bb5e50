//! Which rules a profile may have.
ghost use Rattle.std.specs.Prelude.{◌≡◌, nat_lt, IfSome, IfNone};
ghost use Rattle.std.specs.List.{list_all, list_any};
ghost use Rattle.sk_profile.specs.declared.condition.Condition.{Condition};
ghost use Rattle.sk_profile.specs.Faults.{is_good, IsWrongAt, IsWrongIn};
ghost use Rattle.sk_profile.specs.Rows.{AreGood, AreAllGood};
ghost use Rattle.sk_profile.specs.Sayings.{are_apart, is_on};
ghost use Rattle.sk_profile.specs.Views.{part_of, profile_of, rule_of};

use crate::condition::Condition;
use crate::fault::RulePlace;
use crate::profile::{Part, Profile, Rule};

/// The first rule that has conditions which no call can be asked about.
pub fn wrong_rule(profile: &Profile) -> Option<RulePlace>
    ensures none { IfNone result (AreAllGood profile.now) }
    ensures place { IfSome result (IsWrongAt (profile_of profile.now)) }
{
    let mut part = 0;
    let mut left: &[Part] = &profile.parts;
    while let Some((first, rest)) = left.split_first() {
        if let Some(rule) = wrong_in(first) {
            return Some(RulePlace { part, rule });
        }
        part += 1;
        left = rest;
    }
    None
}

// The place of the first such rule of a part.
fn wrong_in(part: &Part) -> Option<usize>
    ensures none { IfNone result (AreGood part.now) }
    ensures place { IfSome result (IsWrongIn (part_of part.now).rules) }
{
    let mut place = 0;
    let mut left: &[Rule] = &part.rules;
    while let Some((rule, rest)) = left.split_first() {
        if !is_good(rule) {
            return Some(place);
        }
        place += 1;
        left = rest;
    }
    None
}

fn is_good(rule: &Rule) -> bool
    ensures good { result ≡ is_good (rule_of rule.now) }
{
    rule.conditions.len() <= 6 && are_apart(&rule.conditions) && are_asked(&rule.conditions)
}

// Whether each condition is on one of six arguments.
fn are_asked(conditions: &[Condition]) -> bool
    ensures all { result ≡ list_all (λ (c : Condition). nat_lt c.index 6) conditions.now }
{
    conditions.iter().all(|condition| condition.index < 6)
}

/// Whether each condition is on another argument.
pub fn are_apart(conditions: &[Condition]) -> bool
    ensures apart { result ≡ are_apart conditions.now }
{
    let mut left = conditions;
    while let Some((condition, rest)) = left.split_first() {
        if is_on_any(condition.index, rest) {
            return false;
        }
        left = rest;
    }
    true
}

fn is_on_any(index: u8, conditions: &[Condition]) -> bool
    ensures any { result ≡ list_any (is_on index) conditions.now }
{
    conditions.iter().any(|condition| condition.index == index)
}
