//! What `ask arches` tells, as a document.
ghost use Rattle.std.specs.Prelude.{◌≡◌, ◌++◌, flat_map, IfOk, OnOk};
ghost use Rattle.sk_survey.specs.Answers.{answers_of};
ghost use Rattle.sk_survey.specs.AnswersByArchitecture.{only_value};
ghost use Rattle.sk_document.specs.Documents.{counted, maybe};
ghost use Rattle.sk_document.specs.ArchesDocument.{answered, arches_document, arches_tokens, architectures_at, followed, other_answered, other_at, ptrace_at, warned, warning, warnings, warnings_at};

use crate::document::Document;
use crate::numbers::add_architecture;
use crate::verdict::add_maybe_verdict;
use sk_names::{Architecture, number};
use sk_survey::{Answered, Answers, Other, Told};
use std::alloc::{AllocError, Global};

/// What filters answer to the calls of each architecture.
pub fn arches_document(alloc: Global, told: &Told) -> Result<Vec<u8>, AllocError>
    ensures document { IfOk result (λ text. text.items ≡ arches_document told.now) }
{
    let mut document = Document::new(alloc);
    add_told(&mut document, told)?;
    document.finished()
}

#[tactic(auto, unfolding(crate::specs::ArchesDocument::arches_tokens))]
fn add_told(to: &mut Document, told: &Told) -> Result<(), AllocError>
    ensures added { OnOk result (to.new ≡ to.old ++ arches_tokens told.now) }
{
    to.begin_object()?;
    to.word_at("arches")?;
    add_architectures(to, told)?;
    add_other_at(to, told)?;
    add_warnings_at(to, told)?;
    to.end_object()
}

#[tactic(auto, unfolding(crate::specs::ArchesDocument::architectures_at))]
fn add_architectures(to: &mut Document, told: &Told) -> Result<(), AllocError>
    ensures added { OnOk result (to.new ≡ to.old ++ architectures_at told.now) }
{
    to.at("architectures")?;
    to.begin_array()?;
    add_all(to, &told.all)?;
    to.end_array()
}

fn add_all(to: &mut Document, all: &[Answered]) -> Result<(), AllocError>
    ensures added { OnOk result (to.new ≡ to.old ++ flat_map answered all.now) }
{
    for it in all {
        add_answered(to, it)?;
    }
    Ok(())
}

#[tactic(auto, unfolding(crate::specs::ArchesDocument::answered))]
fn add_answered(to: &mut Document, it: &Answered) -> Result<(), AllocError>
    ensures added { OnOk result (to.new ≡ to.old ++ answered it.now) }
{
    to.begin_object()?;
    to.string_at("name", it.architecture.text())?;
    to.at("verdict")?;
    add_maybe_verdict(to, only_value(&it.row.answers))?;
    to.end_object()
}

// The one value that may be answered, if it is one.
pub(crate) fn only_value(answers: &Answers) -> Option<u32>
    ensures value { result ≡ only_value (answers_of answers.now) }
{
    match answers {
        Answers::Among(values) if values.len() == 1 => values.first().copied(),
        _ => None,
    }
}

#[tactic(auto, unfolding(crate::specs::ArchesDocument::other_at))]
fn add_other_at(to: &mut Document, told: &Told) -> Result<(), AllocError>
    ensures added { OnOk result (to.new ≡ to.old ++ other_at told.now) }
{
    to.at("other")?;
    add_other(to, told.other)
}

fn add_other(to: &mut Document, other: Other) -> Result<(), AllocError>
    ensures added { OnOk result (to.new ≡ to.old ++ other_answered other) }
{
    match other {
        Other::Verdict(value) => add_followed(to, true, Some(value)),
        Other::Several => add_followed(to, true, None),
        Other::Unknown => add_followed(to, false, None),
    }
}

#[tactic(auto, unfolding(crate::specs::ArchesDocument::followed))]
fn add_followed(to: &mut Document, is: bool, value: Option<u32>) -> Result<(), AllocError>
    ensures added { OnOk result (to.new ≡ to.old ++ followed is value) }
{
    to.begin_object()?;
    to.boolean_at("followed", is)?;
    to.at("verdict")?;
    add_maybe_verdict(to, value)?;
    to.end_object()
}

#[tactic(auto, unfolding(crate::specs::ArchesDocument::warnings_at))]
fn add_warnings_at(to: &mut Document, told: &Told) -> Result<(), AllocError>
    ensures added { OnOk result (to.new ≡ to.old ++ warnings_at told.now) }
{
    to.at("warnings")?;
    to.begin_array()?;
    add_warnings(to, told)?;
    to.end_array()
}

fn add_warnings(to: &mut Document, told: &Told) -> Result<(), AllocError>
    ensures added { OnOk result (to.new ≡ to.old ++ warnings told.now) }
{
    if !told.warns() {
        return Ok(());
    }
    add_warned(to, told.i386, Architecture::I386)?;
    add_warned(to, told.x32, Architecture::X32)
}

fn add_warned(to: &mut Document, is: bool, by: Architecture) -> Result<(), AllocError>
    ensures added { OnOk result (to.new ≡ to.old ++ warned is by) }
{
    if is { add_warning(to, by) } else { Ok(()) }
}

#[tactic(auto, unfolding(crate::specs::ArchesDocument::warning))]
fn add_warning(to: &mut Document, by: Architecture) -> Result<(), AllocError>
    ensures added { OnOk result (to.new ≡ to.old ++ warning by) }
{
    to.begin_object()?;
    add_architecture(to, by)?;
    add_ptrace(to, by)?;
    to.end_object()
}

#[tactic(auto, unfolding(crate::specs::ArchesDocument::ptrace_at))]
fn add_ptrace(to: &mut Document, by: Architecture) -> Result<(), AllocError>
    ensures added { OnOk result (to.new ≡ to.old ++ ptrace_at by) }
{
    to.at("ptrace")?;
    add_number(to, number(by, b"ptrace"))
}

// A number, if there is one.
fn add_number(to: &mut Document, number: Option<u32>) -> Result<(), AllocError>
    ensures added { OnOk result (to.new ≡ to.old ++ maybe counted number) }
{
    match number {
        Some(number) => to.number(u64::from(number)),
        None => to.null(),
    }
}
