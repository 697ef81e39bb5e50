//! How numbers, names and verdicts are written.
ghost use Rattle.std.specs.Prelude.{◌≡◌, ◌++◌, OnOk, string_bytes, codes, flat_map};
ghost use Rattle.sk_survey.specs.Answers.{answers_of};
ghost use Rattle.sk_filter.specs.VerdictText.{verdict_text};
ghost use Rattle.sk_show.specs.Text.{numbers_text, name_text, values_text, answers_text};

use sk_filter::push_verdict;
use sk_names::{Architecture, name};
use sk_survey::Answers;
use std::alloc::AllocError;
use std::fmt::Write;

/// Appends a number, or a range of them.
pub fn push_numbers(text: &mut String, first: u32, last: u32) -> Result<(), AllocError>
    ensures text { OnOk result (string_bytes text.new ≡ string_bytes text.old ++ numbers_text first last) }
{
    if first == last {
        write!(text, "{first}")
    } else {
        write!(text, "{first}-{last}")
    }
}

/// The name that a single number has on an architecture, else `-`.
pub fn name_of_numbers(architecture: Architecture, first: u32, last: u32) -> &'static str
    ensures text { result.now ≡ name_text architecture first last }
{
    if first != last {
        return "-";
    }
    match name(architecture, first) {
        Some(name) => name,
        None => "-",
    }
}

/// Appends the verdicts that may come, with a bar between two.
pub fn push_answers(text: &mut String, answers: &Answers) -> Result<(), AllocError>
    ensures text { OnOk result (string_bytes text.new ≡ string_bytes text.old ++ answers_text (answers_of answers.now)) }
{
    match answers {
        Answers::Any => text.push_str("any"),
        Answers::Among(values) => push_values(text, values),
    }
}

fn push_values(text: &mut String, values: &[u32]) -> Result<(), AllocError>
    ensures text { OnOk result (string_bytes text.new ≡ string_bytes text.old ++ values_text values.now) }
{
    let Some((first, others)) = values.split_first() else {
        return Ok(());
    };
    push_verdict(text, *first)?;
    push_others(text, others)
}

fn push_others(text: &mut String, values: &[u32]) -> Result<(), AllocError>
    ensures text { OnOk result (string_bytes text.new ≡
        string_bytes text.old ++ flat_map (λ other. codes " | " ++ verdict_text other) values.now) }
{
    for value in values {
        push_other(text, *value)?;
    }
    Ok(())
}

fn push_other(text: &mut String, value: u32) -> Result<(), AllocError>
    ensures text { OnOk result (string_bytes text.new ≡ string_bytes text.old ++ (codes " | " ++ verdict_text value)) }
{
    text.push_str(" | ")?;
    push_verdict(text, value)
}
