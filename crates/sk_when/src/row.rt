//! A row: neighbouring numbers, and under which terms each verdict of their calls comes.
ghost use Rattle.std.specs.Prelude.{◌≡◌, ◌≤◌, true, false, [], ◌∷◌, IfOk, IfSome, Some};
ghost use Rattle.std.specs.List.{All};
ghost use Rattle.sk_survey.specs.Answers.{ChainAnswersAmong, answers_of};
ghost use Rattle.sk_conditions.specs.Followed.{AreFollowed};
ghost use Rattle.sk_conditions.specs.Steps.{GoOneWay};
ghost use Rattle.sk_when.specs.Lines.{IsExact, IsMet, IsTold};

use sk_conditions::{Budgets, Numbers, chain_tree};
use sk_filter::Chain;
use sk_survey::{Answers, Row};
use sk_terms::{LeftOut, Line, decide, heaviest, lines_of};
use std::alloc::{AllocError, Global};

/// A row of a survey with its lines, and what the line `else` tells; none stands for what the survey's row answers.
#[derive(Drop)]
pub struct ConditionalRow {
    pub row: Row,
    pub lines: Vec<Line>,
    pub otherwise: Option<u32>,
}

/// A row of the chain's survey with its lines. What lies beyond the budget is told by the survey's verdicts.
pub fn conditions_of_row(
    alloc: Global,
    chain: &Chain,
    row: Row,
    budgets: &mut Budgets,
) -> Result<ConditionalRow, AllocError>
    requires range { row.first ≤ row.last }
    requires among { ChainAnswersAmong chain.now row.first row.last (answers_of row.answers) }
    ensures row { IfOk result (λ told. told.row ≡ row) }
    ensures told { IfOk result (IsTold chain.now) }
    ensures met { IfOk result (IsMet chain.now) }
    ensures exact { IfOk result (λ told. All AreFollowed chain.now → budgets.new.is_spent ≡ false → IsExact chain.now told) }
    ensures spent { budgets.new.is_spent ≡ false → budgets.old.is_spent ≡ false }
    ensures one_way { All (GoOneWay row.first row.last) chain.now → budgets.old.is_spent ≡ false → budgets.new.is_spent ≡ false }
{
    if let Some(value) = only_answer(&row.answers) {
        return Ok(ConditionalRow {
            row,
            lines: Vec::new(alloc),
            otherwise: Some(value),
        });
    }
    let numbers = Numbers {
        first: row.first,
        last: row.last,
    };
    let mut left = budgets.row(u64::from(chain.cost()) + 1);
    let tree = chain_tree(alloc, chain, numbers, &mut left)?;
    budgets.put_back(left);
    let decision = decide(alloc, &tree)?;
    let all = lines_of(alloc, &decision, LeftOut::Nothing)?;
    let otherwise = heaviest(alloc, &all)?;
    let lines = lines_of(alloc, &decision, LeftOut::End(otherwise))?;
    Ok(ConditionalRow {
        row,
        lines,
        otherwise,
    })
}

// The one value, where the answers are no other.
fn only_answer(answers: &Answers) -> Option<u32>
    ensures only { IfSome result (λ value. answers_of answers.now ≡ Some (value ∷ [])) }
{
    match answers {
        Answers::Any => None,
        Answers::Among(values) => only_value(values),
    }
}

fn only_value(values: &[u32]) -> Option<u32>
    ensures only { IfSome result (λ value. values.now ≡ value ∷ []) }
{
    match values {
        [value] => Some(*value),
        _ => None,
    }
}
