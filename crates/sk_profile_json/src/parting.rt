//! The entries of a profile that part two calls.
ghost use Rattle.std.specs.Prelude.{◌≡◌, ◌++◌, [], IfOk, OnOk, find, map, slice_index_or};
ghost use Rattle.std.specs.List.{cons_option, dedup, filter_map};
ghost use Rattle.std.specs.Option.{option_map};
ghost use Rattle.sk_profile.specs.Sayings.{all_hold, compares, holds_of, low, seen};
ghost use Rattle.sk_profile.specs.Profiles.{is_for, is_narrow};
ghost use Rattle.sk_profile.specs.Views.{part_of, profile_of, rule_of};
ghost use Rattle.sk_profile_json.specs.Partings.{is_of, is_same_entry, parting_by, parting_for, partings_if, partings_in, partings_of, parts};

use sk_insn::Record;
use sk_profile::{Condition, Part, Profile, Rule, Test};
use std::alloc::{AllocError, Global};

/// An entry of a profile, from 0 on, with the first of its conditions that one of two calls meets and the other does not.
#[derive(Clone, Copy, Debug, Drop, PartialEq, Eq)]
pub struct Parting {
    pub entry: usize,
    pub condition: Condition,
}

/// The entries of a profile that part two calls with one number, in their order: of each a rule that one call meets and the other does not.
pub fn partings(
    alloc: Global,
    profile: &Profile,
    one: &Record,
    other: &Record,
) -> Result<Vec<Parting>, AllocError>
    ensures are { IfOk result (λ it. it.items ≡ partings_of (profile_of profile.now) one.now other.now) }
{
    let part = part_for(&profile.parts, one.arch);
    partings_if(alloc, profile.default, one, other, part)
}

/// The part for an architecture.
pub(crate) fn part_for(parts: &[Part], arch: u32) -> Option<&Part>
    ensures first { option_map (λ part. part_of part.now) result ≡ find (is_of arch) (map part_of parts.now) }
{
    for part in parts {
        if is_of(arch, part) {
            return Some(part);
        }
    }
    None
}

fn is_of(arch: u32, part: &Part) -> bool
    ensures is { result ≡ is_of arch (part_of part.now) }
{
    part.audit == arch
}

fn partings_if(
    alloc: Global,
    default: u32,
    one: &Record,
    other: &Record,
    part: Option<&Part>,
) -> Result<Vec<Parting>, AllocError>
    ensures are { IfOk result (λ it. it.items ≡ partings_if default one.now other.now (option_map (λ part. part_of part.now) part.entry)) }
{
    match part {
        Some(part) => partings_in(alloc, default, one, other, part),
        None => Ok(Vec::new(alloc)),
    }
}

fn partings_in(
    alloc: Global,
    default: u32,
    one: &Record,
    other: &Record,
    part: &Part,
) -> Result<Vec<Parting>, AllocError>
    ensures are { IfOk result (λ it. it.items ≡ partings_in default one.now other.now (part_of part.now)) }
{
    let narrow = is_narrow(part, one.nr);
    let mut partings = Vec::new(alloc);
    push_partings(
        &mut partings,
        default,
        &seen(narrow, one),
        &seen(narrow, other),
        &part.rules,
    )?;
    Ok(each_once(partings))
}

// Each entry once: those of one stand together.
fn each_once(partings: Vec<Parting>) -> Vec<Parting>
    ensures once { result.items ≡ dedup is_same_entry partings.items }
{
    let mut partings = partings;
    partings.dedup_by(|it, last| it.entry == last.entry);
    partings
}

/// Whether arguments of the calls with a number have 32 bits.
pub(crate) fn is_narrow(part: &Part, nr: u32) -> bool
    ensures narrow { result ≡ is_narrow (part_of part.now) nr }
{
    part.narrow || 0x4000_0000 <= nr
}

/// The call as its conditions see it.
pub(crate) fn seen(narrow: bool, call: &Record) -> Record
    ensures seen { result ≡ seen narrow call.now }
{
    if narrow {
        Record {
            args: lows(&call.args),
            ..*call
        }
    } else {
        *call
    }
}

#[tactic(auto, using(crate::proofs::Seeing::lows))]
fn lows(args: &[u64; 6]) -> [u64; 6]
    ensures lows { result ≡ map low args.now }
{
    [
        low(args[0]),
        low(args[1]),
        low(args[2]),
        low(args[3]),
        low(args[4]),
        low(args[5]),
    ]
}

fn low(number: u64) -> u64
    ensures low { result ≡ low number }
{
    number % 0x1_0000_0000
}

fn push_partings(
    partings: &mut Vec<Parting>,
    default: u32,
    one: &Record,
    other: &Record,
    rules: &[Rule],
) -> Result<(), AllocError>
    ensures pushed { OnOk result (partings.new.items ≡
        partings.old.items ++ filter_map (parting_for default one.now other.now) (map rule_of rules.now)) }
{
    for rule in rules {
        push_parting_for(partings, default, one, other, rule)?;
    }
    Ok(())
}

fn push_parting_for(
    partings: &mut Vec<Parting>,
    default: u32,
    one: &Record,
    other: &Record,
    rule: &Rule,
) -> Result<(), AllocError>
    ensures pushed { OnOk result (partings.new.items ≡
        partings.old.items ++ cons_option (parting_for default one.now other.now (rule_of rule.now)) []) }
{
    if let Some(it) = parting_for(default, one, other, rule) {
        partings.push(it)?;
    }
    Ok(())
}

fn parting_for(default: u32, one: &Record, other: &Record, rule: &Rule) -> Option<Parting>
    ensures parting { result ≡ parting_for default one.now other.now (rule_of rule.now) }
{
    if is_for(default, one.nr, rule) {
        parting_by(one, other, rule)
    } else {
        None
    }
}

/// Whether a rule is for a number, and says something else than the default.
pub(crate) fn is_for(default: u32, nr: u32, rule: &Rule) -> bool
    ensures is { result ≡ is_for default nr (rule_of rule.now) }
{
    rule.number == nr && rule.value != default
}

fn parting_by(one: &Record, other: &Record, rule: &Rule) -> Option<Parting>
    ensures parting { result ≡ parting_by one.now other.now (rule_of rule.now) }
{
    if all_hold(&rule.conditions, one) == all_hold(&rule.conditions, other) {
        return None;
    }
    let condition = first_parting(&rule.conditions, one, other)?;
    Some(Parting {
        entry: rule.entry,
        condition,
    })
}

fn first_parting(conditions: &[Condition], one: &Record, other: &Record) -> Option<Condition>
    ensures first { result ≡ find (parts one.now other.now) conditions.now }
{
    conditions
        .iter()
        .copied()
        .find(|condition| parts(condition, one, other))
}

fn parts(condition: &Condition, one: &Record, other: &Record) -> bool
    ensures parts { result ≡ parts one.now other.now condition.now }
{
    holds(condition, one) != holds(condition, other)
}

/// Whether conditions hold of a call.
pub(crate) fn all_hold(conditions: &[Condition], call: &Record) -> bool
    ensures all { result ≡ all_hold conditions.now call.now }
{
    let Some((first, others)) = conditions.split_first() else {
        return true;
    };
    holds(first, call) && all_hold(others, call)
}

fn holds(condition: &Condition, call: &Record) -> bool
    ensures holds { result ≡ holds_of condition.now call.now }
{
    let argument = argument(&call.args, condition.index);
    compares(condition.test, argument, condition.value)
}

fn argument(args: &[u64], index: u8) -> u64
    ensures argument { result ≡ slice_index_or args.now index 0 }
{
    args.get(usize::from(index)).copied().unwrap_or(0)
}

fn compares(test: Test, one: u64, other: u64) -> bool
    ensures compares { result ≡ compares test one other }
{
    match test {
        Test::Is => one == other,
        Test::IsNot => one != other,
        Test::Below => one < other,
        Test::AtMost => one <= other,
        Test::Above => one > other,
        Test::AtLeast => one >= other,
        Test::Masked(mask) => one & mask == other,
    }
}
