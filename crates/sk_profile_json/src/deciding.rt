//! What of a profile decides on a call.
ghost use Rattle.std.specs.Prelude.{◌≡◌, ◌&&◌, map, find};
ghost use Rattle.std.specs.Option.{option_map};
ghost use Rattle.sk_profile.specs.Profiles.{has_none, has_x32_bit, is_above, is_for, is_unknown, is_x32, plain_rule};
ghost use Rattle.sk_profile.specs.Views.{part_of, profile_of, rule_of};
ghost use Rattle.sk_profile_json.specs.Deciding.{decider_by, decider_if, decider_in, decider_of, deciding_rule, is_met};

use crate::parting::{all_hold, is_for, is_narrow, part_for, seen};
use sk_insn::Record;
use sk_profile::{Part, Profile, Rule};

/// What of a profile the verdict on a call comes from.
#[derive(Clone, Copy, Debug, Drop, PartialEq, Eq)]
pub enum Decider {
    /// A rule of the entry with this number, from 0 on.
    Entry(usize),
    /// The default: no entry says otherwise.
    Default,
    /// Instructions of runc's own before the filter, which know no call with the number.
    NoCall,
    /// Nothing: the call is of an architecture that the profile is not for.
    Foreign,
}

/// What of a profile the verdict on a call comes from.
pub fn decider_by(profile: &Profile, call: &Record) -> Decider
    ensures decides { result ≡ decider_by (profile_of profile.now) call.now }
{
    let part = part_for(&profile.parts, call.arch);
    decider_if(profile.default, part, call)
}

fn decider_if(default: u32, part: Option<&Part>, call: &Record) -> Decider
    ensures decides { result ≡ decider_if default (option_map (λ part. part_of part.now) part.entry) call.now }
{
    match part {
        Some(part) => decider_in(default, part, call),
        None => Decider::Foreign,
    }
}

fn decider_in(default: u32, part: &Part, call: &Record) -> Decider
    ensures decides { result ≡ decider_in default (part_of part.now) call.now }
{
    if is_unknown(part, call.nr) {
        Decider::NoCall
    } else if part.without_x32 && is_x32(call.nr) {
        Decider::Foreign
    } else {
        let as_seen = seen(is_narrow(part, call.nr), call);
        decider_of(deciding_rule(default, call.nr, &as_seen, &part.rules))
    }
}

fn decider_of(rule: Option<&Rule>) -> Decider
    ensures decides { result ≡ decider_of (option_map (λ rule. rule_of rule.now) rule.entry) }
{
    match rule {
        Some(rule) => Decider::Entry(rule.entry),
        None => Decider::Default,
    }
}

fn deciding_rule<'a>(default: u32, nr: u32, call: &Record, rules: &'a [Rule]) -> Option<&'a Rule>
    ensures rule { option_map (λ rule. rule_of rule.now) result ≡ deciding_rule default nr call.now (map rule_of rules.now) }
{
    match plain_rule(default, nr, rules) {
        Some(rule) => Some(rule),
        None => met_rule(default, nr, call, rules),
    }
}

// The first rule for a number that has no conditions.
fn plain_rule(default: u32, nr: u32, rules: &[Rule]) -> Option<&Rule>
    ensures first { option_map (λ rule. rule_of rule.now) result ≡ plain_rule default (map rule_of rules.now) nr }
{
    for rule in rules {
        if is_plain(default, nr, rule) {
            return Some(rule);
        }
    }
    None
}

// The first rule for a number whose conditions hold.
fn met_rule<'a>(default: u32, nr: u32, call: &Record, rules: &'a [Rule]) -> Option<&'a Rule>
    ensures first { option_map (λ rule. rule_of rule.now) result ≡ find (is_met default nr call.now) (map rule_of rules.now) }
{
    for rule in rules {
        if is_met(default, nr, call, rule) {
            return Some(rule);
        }
    }
    None
}

fn is_plain(default: u32, nr: u32, rule: &Rule) -> bool
    ensures is { result ≡ (is_for default nr (rule_of rule.now) && has_none rule.now.conditions.items) }
{
    is_for(default, nr, rule) && rule.conditions.is_empty()
}

fn is_met(default: u32, nr: u32, call: &Record, rule: &Rule) -> bool
    ensures is { result ≡ is_met default nr call.now (rule_of rule.now) }
{
    is_for(default, nr, rule) && all_hold(&rule.conditions, call)
}

fn is_x32(nr: u32) -> bool
    ensures x32 { result ≡ is_x32 nr }
{
    0x4000_0000 <= nr && nr < 0xffff_ffff
}

// Whether instructions of runc's own know no call with the number.
fn is_unknown(part: &Part, nr: u32) -> bool
    ensures unknown { result ≡ is_unknown (part_of part.now) nr }
{
    if has_x32_bit(nr) {
        is_above(part.x32_top, nr)
    } else {
        is_above(part.top, nr)
    }
}

fn is_above(top: u32, nr: u32) -> bool
    ensures above { result ≡ is_above top nr }
{
    0 < top && top < nr
}

fn has_x32_bit(nr: u32) -> bool
    ensures bit { result ≡ has_x32_bit nr }
{
    nr / 0x4000_0000 % 2 == 1
}
