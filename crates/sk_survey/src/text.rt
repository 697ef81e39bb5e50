//! How it is written what filters answer to architectures.
ghost use Rattle.std.specs.Prelude.{◌≡◌, ◌++◌, flat_map, IfOk, OnOk, string_bytes};
ghost use Rattle.sk_survey.specs.Answers.{answers_of};
ghost use Rattle.sk_survey.specs.AnswersByArchitecture.{only_value};
ghost use Rattle.sk_survey.specs.Text.{answered_text, arches_text, judged_text, other_text, there_text, warning_text, warnings_text};

use crate::Answers;
use crate::answered::Answered;
use crate::other::Other;
use crate::told::{Told, judges_calls};
use sk_filter::push_verdict;
use sk_names::{Architecture, number};
use std::alloc::{AllocError, Global};
use std::fmt::Write;

/// The lines of the architectures, and those that warn.
pub fn arches_text(alloc: Global, told: &Told) -> Result<String, AllocError>
    ensures text { IfOk result (λ text. string_bytes text ≡ arches_text told.now) }
{
    let mut text = String::new(alloc);
    push_all(&mut text, &told.all)?;
    push_other(&mut text, told.other)?;
    if judges_calls(&told.all) {
        push_warnings(&mut text, told)?;
    }
    Ok(text)
}

fn push_all(text: &mut String, all: &[Answered]) -> Result<(), AllocError>
    ensures text { OnOk result (string_bytes text.new ≡ string_bytes text.old ++ flat_map answered_text all.now) }
{
    for it in all {
        push_answered(text, it)?;
    }
    Ok(())
}

// Appends a line: the architecture, and the verdict on all its calls, or that they are judged one by one.
#[tactic(auto, unfolding(crate::specs::Text::answered_text))]
fn push_answered(text: &mut String, it: &Answered) -> Result<(), AllocError>
    ensures text { OnOk result (string_bytes text.new ≡ string_bytes text.old ++ answered_text it.now) }
{
    text.push_str(it.architecture.text())?;
    text.push(' ')?;
    push_judged(text, only_value(&it.row.answers))?;
    text.push('\n')
}

// Appends the line of every other architecture.
fn push_other(text: &mut String, other: Other) -> Result<(), AllocError>
    ensures text { OnOk result (string_bytes text.new ≡ string_bytes text.old ++ other_text other) }
{
    text.push_str("any other ")?;
    match other {
        Other::Verdict(value) => push_judged(text, Some(value))?,
        Other::Several => push_judged(text, None)?,
        Other::Unknown => text.push_str("not followed: each word of a call is loaded")?,
    }
    text.push('\n')
}

fn push_judged(text: &mut String, value: Option<u32>) -> Result<(), AllocError>
    ensures text { OnOk result (string_bytes text.new ≡ string_bytes text.old ++ judged_text value) }
{
    match value {
        Some(value) => push_verdict(text, value),
        None => text.push_str("judged call by call"),
    }
}

/// The one value that may be answered, if it is one.
pub(crate) fn only_value(answers: &Answers) -> Option<u32>
    ensures value { result ≡ only_value (answers_of answers.now) }
{
    match answers {
        Answers::Among(values) if values.len() == 1 => Some(values[0]),
        _ => None,
    }
}

fn push_warnings(text: &mut String, told: &Told) -> Result<(), AllocError>
    ensures text { OnOk result (string_bytes text.new ≡ string_bytes text.old ++ warnings_text told.now) }
{
    if told.i386 {
        push_warning(text, Architecture::I386)?;
    }
    if told.x32 {
        push_warning(text, Architecture::X32)?;
    }
    Ok(())
}

fn push_warning(text: &mut String, architecture: Architecture) -> Result<(), AllocError>
    ensures text { OnOk result (string_bytes text.new ≡ string_bytes text.old ++ warning_text architecture) }
{
    text.push_str("warning: ")?;
    text.push_str(architecture.text())?;
    text.push_str(" calls are judged by x86-64's numbers")?;
    push_there(text, number(architecture, b"ptrace"))?;
    text.push('\n')
}

// Which call one of them is.
fn push_there(text: &mut String, number: Option<u32>) -> Result<(), AllocError>
    ensures text { OnOk result (string_bytes text.new ≡ string_bytes text.old ++ there_text number) }
{
    match number {
        Some(number) => write!(text, ": {number} is ptrace there"),
        None => Ok(()),
    }
}
