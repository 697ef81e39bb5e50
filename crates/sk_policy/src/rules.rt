//! The instructions of rules: the numbers are cut in two, again and again.
ghost use Rattle.std.specs.Prelude.{◌≡◌, ◌<◌, ◌≤◌, ◌++◌, ◌∷◌, ◌+◌, [], length, OnOk, IfErr, IfSome, true, All};
ghost use Rattle.std.specs.List.{list_all};
ghost use Rattle.sk_profile.specs.Code.{answer};
ghost use Rattle.sk_policy.specs.declared.fault.CodeFault.TheVariants.{TooLong};
ghost use Rattle.sk_policy.specs.Code.{head_code};
ghost use Rattle.sk_policy.specs.Emitting.{adds_nothing, joins, joins_all, end_of, Emits};
ghost use Rattle.sk_policy.specs.Policies.{AreApart, AreWithin, RuleThere};
ghost use Rattle.sk_policy.specs.Sizes.{cases_most, rules_most, gap_most};

use crate::backward::{Backward, put_one};
use crate::cases::put_cases;
use crate::fault::CodeFault;
use crate::policy::Rule;
use sk_insn::Comparison;
use sk_profile::instructions::{answer, branch, jump};
use sk_profile::{Numbers, weight};

// Passes over so many instructions where A is not below the number.
fn put_head(code: &mut Backward, number: u32, below: usize) -> Result<(), CodeFault>
    requires room { below ≤ 4096 }
    ensures code { OnOk result (code.new ≡ head_code number below ++ code.old) }
    ensures few { OnOk result (length code.new ≤ 4096) }
    ensures size { OnOk result (length code.new ≤ length code.old + 2) }
    ensures long { IfErr result (λ fault. fault ≡ TooLong → 4096 < length code.old + 2) }
{
    if below <= 255 {
        return put_one(
            code,
            branch(Comparison::GreaterOrEqual, number, below as u8, 0),
        );
    }
    put_one(code, jump(below as u32))?;
    put_one(code, branch(Comparison::GreaterOrEqual, number, 0, 1))
}

// Whether the rule says what is said without it, as is seen without asking for an argument.
fn adds_nothing(rule: &Rule, default: u32) -> bool
    ensures nothing { result ≡ adds_nothing default rule.now }
{
    rule.cases.is_empty() && rule.otherwise == default
}

// Whether so it is of each rule.
fn say_nothing(rules: &[Rule], default: u32) -> bool
    ensures nothing { result ≡ list_all (adds_nothing default) rules.now }
{
    rules.iter().all(|rule| adds_nothing(rule, default))
}

// Whether a rule begins one number behind another, and says what that one says, as is seen without asking for an argument.
fn joins(rule: &Rule, next: &Rule) -> bool
    ensures joins { result ≡ joins rule.now next.now }
{
    rule.cases.is_empty()
        && next.cases.is_empty()
        && u64::from(rule.last) + 1 == u64::from(next.first)
        && rule.otherwise == next.otherwise
}

// The last number of rules of which each joins the one before it, if they do.
fn end_of_run(rule: &Rule, rules: &[Rule]) -> Option<u32>
    ensures run { IfSome result (λ end. (joins_all rule.now rules.now ≡ true) × (end ≡ end_of rule.now rules.now)) }
{
    let mut last = rule;
    let mut left = rules;
    while let Some((next, rest)) = left.split_first() {
        if !joins(last, next) {
            return None;
        }
        last = next;
        left = rest;
    }
    if last.cases.is_empty() {
        Some(last.last)
    } else {
        None
    }
}

// By how much the sides of a cut at a number differ. Each rule of a side weighs 1 besides its numbers.
fn difference(numbers: Numbers, number: u32, below: usize, above: usize) -> usize {
    let (low, high) = numbers.cut_at(number);
    let before = weight(low).saturating_add(below);
    let behind = weight(high).saturating_add(above);
    before.abs_diff(behind)
}

// At which rule to cut: between two that do not join, and so that both sides weigh as near to the same as can be. Any but the
// first is right.
// Where rules that join, and the numbers up to the next one, span the middle of the weight, one cut leaves them at an end of
// their part, and the next one by themselves. So two cuts leave parts of two thirds of the weight at most, and their depth is
// bounded by the logarithm of what the numbers and the rules weigh.
fn cut(rules: &[Rule], numbers: Numbers) -> usize
    requires some { 1 < length rules.now }
    ensures behind { 0 < result }
    ensures inside { result < length rules.now }
{
    let mut best = 1;
    let mut least = usize::MAX;
    for at in 1..rules.len() {
        let apart = difference(numbers, rules[at].first, at, rules.len() - at);
        if apart < least && !joins(&rules[at - 1], &rules[at]) {
            best = at;
            least = apart;
        }
    }
    best
}

// Answers one value for the numbers up to one, and behind it the default.
fn put_run(
    code: &mut Backward,
    value: u32,
    end: u32,
    default: u32,
    to: u32,
) -> Result<(), CodeFault>
    ensures short { to ≤ end → OnOk result (code.new ≡ answer value ∷ code.old) }
    ensures more { end < to → OnOk result (code.new ≡ head_code (end + 1) 1 ++ (answer value ∷ answer default ∷ code.old)) }
    ensures few { OnOk result (length code.new ≤ 4096) }
    ensures size { OnOk result (length code.new ≤ length code.old + 4) }
    ensures long { IfErr result (λ fault. fault ≡ TooLong → 4096 < length code.old + 4) }
{
    if to <= end {
        return put_one(code, answer(value));
    }
    put_one(code, answer(default))?;
    put_one(code, answer(value))?;
    put_head(code, end + 1, 1)
}

// Answers what is said of the numbers up to one, where this rule is for the first of them.
fn put_alone(code: &mut Backward, rule: &Rule, default: u32, to: u32) -> Result<(), CodeFault>
    requires room { length code.old ≤ 4096 }
    requires there { RuleThere rule.now }
    requires some { rule.now.first ≤ rule.now.last }
    ensures emits { OnOk result (Emits code.old code.new (rule.now ∷ []) default rule.now.first to) }
    ensures few { OnOk result (length code.new ≤ 4096) }
    ensures size { OnOk result (length code.new ≤ length code.old + cases_most rule.now.cases.items + 3) }
    ensures long { IfErr result (λ fault. fault ≡ TooLong → 4096 < length code.old + cases_most rule.now.cases.items + 3) }
{
    if to <= rule.last {
        return put_cases(code, &rule.cases, rule.otherwise);
    }
    put_one(code, answer(default))?;
    let above = code.len();
    put_cases(code, &rule.cases, rule.otherwise)?;
    let below = code.len() - above;
    put_head(code, rule.last + 1, below)
}

/// Answers what the rules say of these numbers, where A holds the call's number. Those that are called often are reached soon.
pub fn put_rules(
    code: &mut Backward,
    rules: &[Rule],
    default: u32,
    often: &'static [(u32, usize)],
    from: u32,
    to: u32,
) -> Result<(), CodeFault>
    requires room { length code.old ≤ 4096 }
    requires apart { AreApart rules.now }
    requires within { AreWithin from to rules.now }
    requires there { All RuleThere rules.now }
    ensures emits { OnOk result (Emits code.old code.new rules.now default from to) }
    ensures few { OnOk result (length code.new ≤ 4096) }
    ensures size { OnOk result (length code.new + 2 ≤ length code.old + rules_most rules.now + gap_most from rules.now) }
    ensures long { IfErr result (λ fault. fault ≡ TooLong → 4096 < length code.old + rules_most rules.now + gap_most from rules.now) }
{
    if say_nothing(rules, default) {
        return put_one(code, answer(default));
    }
    let first = &rules[0];
    if from < first.first {
        put_rules(code, rules, default, often, first.first, to)?;
        let above = code.len();
        put_one(code, answer(default))?;
        let below = code.len() - above;
        return put_head(code, first.first, below);
    }
    if let Some(end) = end_of_run(first, &rules[1..]) {
        return put_run(code, first.otherwise, end, default, to);
    }
    if rules.len() == 1 {
        return put_alone(code, first, default, to);
    }
    let numbers = Numbers {
        from,
        to: to.saturating_add(1),
        often,
    };
    let at = cut(rules, numbers);
    let middle = &rules[at];
    put_rules(code, &rules[at..], default, often, middle.first, to)?;
    let above = code.len();
    put_rules(code, &rules[..at], default, often, from, middle.first - 1)?;
    let below = code.len() - above;
    put_head(code, middle.first, below)
}
