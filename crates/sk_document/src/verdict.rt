//! Verdicts in documents.
ghost use Rattle.std.specs.Prelude.{◌≡◌, ◌++◌, flat_map, OnOk};
ghost use Rattle.sk_survey.specs.Answers.{answers_of};
ghost use Rattle.sk_document.specs.Verdicts.{judged, maybe_verdict, verdict, verdict_list, verdicts, verdicts_at};

use crate::document::Document;
use sk_filter::push_verdict;
use sk_insn::Action;
use sk_survey::Answers;
use std::alloc::AllocError;

/// Adds what a value asks for, with what is written of it.
#[tactic(auto, unfolding(crate::specs::Verdicts::judged))]
pub fn add_judged(to: &mut Document, value: u32, text: &str) -> Result<(), AllocError>
    ensures added { OnOk result (to.new ≡ to.old ++ judged value text.now) }
{
    to.begin_object()?;
    to.number_at("value", u64::from(value))?;
    to.string_at("action", Action::of(value).name())?;
    to.number_at("data", u64::from(value % 0x1_0000))?;
    to.string_at("text", text)?;
    to.end_object()
}

/// Adds a verdict.
pub fn add_verdict(to: &mut Document, value: u32) -> Result<(), AllocError>
    ensures added { OnOk result (to.new ≡ to.old ++ verdict value) }
{
    let mut text = to.text();
    push_verdict(&mut text, value)?;
    add_judged(to, value, text.as_str())
}

/// Adds the verdict that is told, if one is.
pub fn add_maybe_verdict(to: &mut Document, value: Option<u32>) -> Result<(), AllocError>
    ensures added { OnOk result (to.new ≡ to.old ++ maybe_verdict value) }
{
    match value {
        Some(value) => add_verdict(to, value),
        None => to.null(),
    }
}

/// Adds the verdicts that may come.
#[tactic(auto, unfolding(crate::specs::Verdicts::verdicts_at))]
pub fn add_verdicts_at(to: &mut Document, answers: &Answers) -> Result<(), AllocError>
    ensures added { OnOk result (to.new ≡ to.old ++ verdicts_at (answers_of answers.now)) }
{
    to.at("verdicts")?;
    add_verdicts(to, answers)
}

fn add_verdicts(to: &mut Document, answers: &Answers) -> Result<(), AllocError>
    ensures added { OnOk result (to.new ≡ to.old ++ verdicts (answers_of answers.now)) }
{
    match answers {
        Answers::Any => to.null(),
        Answers::Among(values) => add_list(to, values),
    }
}

fn add_list(to: &mut Document, values: &[u32]) -> Result<(), AllocError>
    ensures added { OnOk result (to.new ≡ to.old ++ verdict_list values.now) }
{
    to.begin_array()?;
    add_each(to, values)?;
    to.end_array()
}

fn add_each(to: &mut Document, values: &[u32]) -> Result<(), AllocError>
    ensures added { OnOk result (to.new ≡ to.old ++ flat_map verdict values.now) }
{
    for value in values {
        add_verdict(to, *value)?;
    }
    Ok(())
}
