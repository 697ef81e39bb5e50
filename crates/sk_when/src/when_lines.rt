//! The text of rows: verdicts, and the conditions under which they come, in expressions of C.
ghost use Rattle.std.specs.Prelude.{◌≡◌, ◌++◌, IfOk, OnOk, string_bytes, flat_map};
ghost use Rattle.sk_survey.specs.Answers.{answers_of};
ghost use Rattle.sk_when.specs.WhenText.{value_text, before_text, line_text, ends_text, row_text, when_text};

use crate::filling::push_filled;
use crate::names::{Names, constants_of};
use crate::row::ConditionalRow;
use sk_filter::push_verdict;
use sk_show::{name_of_numbers, push_answers, push_numbers};
use sk_survey::Answers;
use sk_terms::Line;
use std::alloc::{AllocError, Global};

/// The text of rows, as calls are named and numbers written.
pub fn when_text(alloc: Global, names: Names, rows: &[ConditionalRow]) -> Result<String, AllocError>
    ensures text { IfOk result (λ text. string_bytes text ≡ when_text names rows.now) }
{
    let mut text = String::new(alloc);
    for row in rows {
        push_row(&mut text, names, row)?;
    }
    Ok(text)
}

#[tactic(auto, unfolding(crate::specs::WhenText::row_text))]
fn push_row(text: &mut String, names: Names, told: &ConditionalRow) -> Result<(), AllocError>
    ensures text { OnOk result (string_bytes text.new ≡ string_bytes text.old ++ row_text names told.now) }
{
    push_numbers(text, told.row.first, told.row.last)?;
    text.push_str(" ")?;
    text.push_str(name_of_numbers(names.architecture, told.row.first, told.row.last))?;
    let call = constants_of(names, told.row.first, told.row.last);
    push_ends(text, call, &told.row.answers, told.otherwise, &told.lines)
}

// One verdict in the same line, or the lines below it.
fn push_ends(
    text: &mut String,
    call: Option<u32>,
    answers: &Answers,
    otherwise: Option<u32>,
    lines: &[Line],
) -> Result<(), AllocError>
    ensures text { OnOk result (string_bytes text.new ≡ string_bytes text.old ++ ends_text call (answers_of answers.now) otherwise lines.now) }
{
    if lines.is_empty() {
        text.push_str(" ")?;
        push_value(text, answers, otherwise)?;
        return text.push_str("\n");
    }
    text.push_str("\n")?;
    push_lines(text, call, answers, lines)?;
    text.push_str("  ")?;
    push_value(text, answers, otherwise)?;
    text.push_str(" else\n")
}

fn push_lines(
    text: &mut String,
    call: Option<u32>,
    answers: &Answers,
    lines: &[Line],
) -> Result<(), AllocError>
    ensures text { OnOk result (string_bytes text.new ≡ string_bytes text.old ++ flat_map (line_text call (answers_of answers.now)) lines.now) }
{
    for line in lines {
        push_line(text, call, answers, line)?;
    }
    Ok(())
}

#[tactic(auto, unfolding(crate::specs::WhenText::line_text))]
fn push_line(
    text: &mut String,
    call: Option<u32>,
    answers: &Answers,
    line: &Line,
) -> Result<(), AllocError>
    ensures text { OnOk result (string_bytes text.new ≡ string_bytes text.old ++ line_text call (answers_of answers.now) line.now) }
{
    let start = text.len();
    push_before(text, answers, line.value)?;
    let column = text.len() - start;
    push_filled(text, column, call, line)?;
    text.push_str("\n")
}

// What stands before a condition.
#[tactic(auto, unfolding(crate::specs::WhenText::before_text))]
fn push_before(text: &mut String, answers: &Answers, value: Option<u32>) -> Result<(), AllocError>
    ensures text { OnOk result (string_bytes text.new ≡ string_bytes text.old ++ before_text (answers_of answers.now) value) }
{
    text.push_str("  ")?;
    push_value(text, answers, value)?;
    text.push_str(" where ")
}

fn push_value(text: &mut String, answers: &Answers, value: Option<u32>) -> Result<(), AllocError>
    ensures text { OnOk result (string_bytes text.new ≡ string_bytes text.old ++ value_text (answers_of answers.now) value) }
{
    match value {
        Some(value) => push_verdict(text, value),
        None => push_answers(text, answers),
    }
}
