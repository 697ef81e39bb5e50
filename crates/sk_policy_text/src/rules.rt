//! The rules of rows.
ghost use Rattle.std.specs.Prelude.{◌≡◌, ◌<◌, ◌≤◌, ◌+◌, ℕ, map, All, Some, IfOk, IfErr, IfNone, IfSome};
ghost use Rattle.sk_insn.specs.declared.record.Record.{Record};
ghost use Rattle.sk_policy.specs.Policies.{IsWhole, CaseThere, said};
ghost use Rattle.sk_policy.specs.Sizes.{cases_most, rules_most};
ghost use Rattle.sk_policy_text.specs.PolicyRows.{sentences_of, else_below};
ghost use Rattle.sk_policy_text.specs.PolicySays.{SaysCases};
ghost use Rattle.sk_policy_text.specs.PolicyRanges.{part_of, PartsApart};
ghost use Rattle.sk_policy_text.specs.PolicyRules.{IsRuleOf, AreRulesOf, AreUnruled, HasElse, IsUnreadBelow};
ghost use Rattle.sk_policy_text.specs.PolicySizes.{words_of_row, cases_bound, row_bound, parts_bound};

use crate::counting::behind_words;
use crate::draft::Span;
use crate::gaps::push_gap;
use crate::policy_fault::{Misplaced, PolicyFault, Wrong};
use crate::right::case_in;
use crate::stated::{Stated, else_below};
use sk_names::Architecture;
use sk_policy::{Case, Rule};
use std::alloc::Global;

/// The most words of conditions that are read for ranges: a row's conditions are read again for each of its ranges.
const MOST_WORDS: usize = 1 << 20;

// The cases that a text begins with.
fn cases_of(alloc: Global, text: &[Stated<'_>]) -> Result<Vec<Case>, PolicyFault>
    ensures says { IfOk result (λ cases. (otherwise : ℕ) → else_below (sentences_of text.now) ≡ Some otherwise → (call : Record) → IsWhole call
        → SaysCases (sentences_of text.now) call (said cases.items otherwise call)) }
    ensures there { IfOk result (λ cases. All CaseThere cases.items) }
    ensures size { IfOk result (λ cases. cases_most cases.items ≤ cases_bound (sentences_of text.now) + 1) }
    ensures fault { IfErr result (IsUnreadBelow text.now) }
{
    let mut cases = Vec::new(alloc);
    let (_, mut left) = text.split_at(0);
    while let Some((first, rest)) = left.split_first() {
        let Some(case) = case_in(alloc, first)? else {
            return Ok(cases);
        };
        cases.push(case)?;
        left = rest;
    }
    Ok(cases)
}

// The rule of a range.
fn rule_of(alloc: Global, span: &Span<'_>) -> Result<Rule, PolicyFault>
    requires closed { HasElse (part_of span.now) }
    ensures rule { IfOk result (IsRuleOf (part_of span.now)) }
    ensures size { IfOk result (λ rule. cases_most rule.cases.items ≤ row_bound span.now.verdict (sentences_of span.now.behind.now) + 1) }
    ensures fault { IfErr result (IsUnreadBelow span.now.behind.now) }
{
    let (cases, otherwise) = match span.verdict {
        Some(verdict) => (Vec::new(alloc), verdict),
        None => {
            let cases = cases_of(alloc, span.behind)?;
            let Some(otherwise) = else_below(span.behind) else {
                return Err(PolicyFault::Wrong(span.line, Wrong::Misplaced(Misplaced::NoElse)));
            };
            (cases, otherwise)
        }
    };
    Ok(Rule {
        first: span.first,
        last: span.last,
        cases,
        otherwise,
    })
}

// What is left of so many words behind those that are read for a range, if they are enough.
fn behind_span(most: usize, span: &Span<'_>) -> Option<usize>
    ensures left { IfSome result (λ left. left + words_of_row span.now.verdict (sentences_of span.now.behind.now) ≡ most) }
    ensures none { IfNone result (most < words_of_row span.now.verdict (sentences_of span.now.behind.now)) }
{
    match span.verdict {
        Some(_) => Some(most),
        None => behind_words(most, span.behind),
    }
}

/// The rules of ranges and of x32's numbers between them. Conditions of more words than 1,048,576, those of a row once for each of its
/// ranges, are too long.
pub fn rules_of(
    alloc: Global,
    architecture: Architecture,
    others: u32,
    spans: &[Span<'_>],
) -> Result<Vec<Rule>, PolicyFault>
    requires apart { PartsApart (map part_of spans.now) }
    requires closed { All HasElse (map part_of spans.now) }
    ensures rules { IfOk result (λ rules. AreRulesOf architecture others (map part_of spans.now) rules.items) }
    ensures size { IfOk result (λ rules. rules_most rules.items ≤ parts_bound (map part_of spans.now) + 6) }
    ensures fault { IfErr result (AreUnruled (map part_of spans.now)) }
{
    let mut rules = Vec::new(alloc);
    let mut next: u64 = 0;
    let mut room = MOST_WORDS;
    let (_, mut left) = spans.split_at(0);
    while let Some((span, rest)) = left.split_first() {
        push_gap(
            alloc,
            &mut rules,
            architecture,
            others,
            next,
            u64::from(span.first),
        )?;
        let Some(behind) = behind_span(room, span) else {
            return Err(PolicyFault::TooLong);
        };
        room = behind;
        let rule = rule_of(alloc, span)?;
        rules.push(rule)?;
        next = u64::from(span.last) + 1;
        left = rest;
    }
    push_gap(alloc, &mut rules, architecture, others, next, 1 << 32)?;
    Ok(rules)
}
