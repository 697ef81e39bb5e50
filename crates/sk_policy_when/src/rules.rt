//! Rows of `ask when` as rules of a policy.
ghost use Rattle.std.specs.Prelude.{◌≡◌, ◌↔◌, IfNone, IfOk, IfSome, IsTrue, Some};
ghost use Rattle.std.specs.List.{All};
ghost use Rattle.sk_policy.specs.Policies.{AllThere, AsksThere, CaseThere, IsThere, RuleThere};
ghost use Rattle.sk_policy_when.specs.Again.{AreCasesOf, AreRulesOf, IsRuleOf};
ghost use Rattle.sk_policy_when.specs.Smaller.{CanBeCase, CanBeRule};

use sk_policy::{Case, Rule};
use sk_terms::{Choice, Line, Register};
use sk_when::ConditionalRow;
use std::alloc::{AllocError, Global};

/// Rows as rules; none where a line has no verdict, or asks for a register that no call has.
pub(crate) fn rules_of(
    alloc: Global,
    rows: Vec<ConditionalRow>,
) -> Result<Option<Vec<Rule>>, AllocError>
    ensures are { IfOk result (λ found. IfSome found (λ rules. AreRulesOf rows.items rules.items)) }
    ensures there { IfOk result (λ found. IfSome found (λ rules. All RuleThere rules.items)) }
    ensures none { IfOk result (λ found. IfNone found (All CanBeRule rows.items → ⊥)) }
{
    let mut rules = Vec::with_capacity(alloc, rows.len())?;
    for told in rows {
        let Some(rule) = rule_of(alloc, told)? else {
            return Ok(None);
        };
        rules.push(rule)?;
    }
    Ok(Some(rules))
}

fn rule_of(alloc: Global, told: ConditionalRow) -> Result<Option<Rule>, AllocError>
    ensures is { IfOk result (λ found. IfSome found (IsRuleOf told)) }
    ensures there { IfOk result (λ found. IfSome found RuleThere) }
    ensures none { IfOk result (λ found. IfNone found (CanBeRule told → ⊥)) }
{
    let Some(otherwise) = told.otherwise else {
        return Ok(None);
    };
    let (first, last) = (told.row.first, told.row.last);
    let Some(cases) = cases_of(alloc, told.lines)? else {
        return Ok(None);
    };
    Ok(Some(Rule {
        first,
        last,
        cases,
        otherwise,
    }))
}

fn cases_of(alloc: Global, lines: Vec<Line>) -> Result<Option<Vec<Case>>, AllocError>
    ensures are { IfOk result (λ found. IfSome found (λ cases. AreCasesOf lines.items cases.items)) }
    ensures there { IfOk result (λ found. IfSome found (λ cases. All CaseThere cases.items)) }
    ensures none { IfOk result (λ found. IfNone found (All CanBeCase lines.items → ⊥)) }
{
    let mut cases = Vec::with_capacity(alloc, lines.len())?;
    for line in lines {
        let Some(it) = case_of(line) else {
            return Ok(None);
        };
        cases.push(it)?;
    }
    Ok(Some(cases))
}

fn case_of(line: Line) -> Option<Case>
    ensures value { IfSome result (λ it. line.value ≡ Some it.value) }
    ensures choices { IfSome result (λ it. line.choices.items ≡ it.choices.items) }
    ensures there { IfSome result CaseThere }
    ensures none { IfNone result (CanBeCase line → ⊥) }
{
    let value = line.value?;
    if !all_there(&line.choices) {
        return None;
    }
    Some(Case {
        value,
        choices: line.choices,
    })
}

fn all_there(choices: &[Choice]) -> bool
    ensures there { IsTrue result ↔ AllThere choices.now }
{
    choices.iter().all(|choice| is_choice_there(choice))
}

fn is_choice_there(choice: &Choice) -> bool
    ensures there { IsTrue result ↔ All AsksThere choice.now.terms.items }
{
    choice.terms.iter().all(|term| is_there(term.register))
}

// Whether a call has the register: struct seccomp_data has six arguments.
fn is_there(register: Register) -> bool
    ensures there { IsTrue result ↔ IsThere register }
{
    match register {
        Register::Number | Register::Pointer => true,
        Register::Argument(i) => i < 6,
    }
}
