//! What `ask calls` tells, as a document.
ghost use Rattle.std.specs.Prelude.{◌≡◌, ◌++◌, flat_map, IfOk, OnOk};
ghost use Rattle.sk_survey.specs.Answers.{answers_of};
ghost use Rattle.sk_document.specs.Documents.{maybe};
ghost use Rattle.sk_document.specs.CallsDocument.{answers_at, calls_document, calls_row, calls_tokens, example, examples_at, looks_at, rows_at, shown};

use crate::call::add_call;
use crate::document::Document;
use crate::numbers::{add_architecture, add_numbers};
use crate::verdict::{add_verdict, add_verdicts_at};
use sk_arguments::Naming;
use sk_names::Architecture;
use sk_show::{Example, Line, Shown, push_answers};
use sk_survey::Answers;
use sk_when::Names;
use std::alloc::{AllocError, Global};

/// The rows of an architecture, and whether the filters look at it.
pub fn calls_document(
    alloc: Global,
    architecture: Architecture,
    looks: bool,
    lines: &[Line],
) -> Result<Vec<u8>, AllocError>
    ensures document { IfOk result (λ text. text.items ≡ calls_document architecture looks lines.now) }
{
    let mut document = Document::new(alloc);
    add_calls(&mut document, architecture, looks, lines)?;
    document.finished()
}

#[tactic(auto, unfolding(crate::specs::CallsDocument::calls_tokens))]
fn add_calls(
    to: &mut Document,
    architecture: Architecture,
    looks: bool,
    lines: &[Line],
) -> Result<(), AllocError>
    ensures added { OnOk result (to.new ≡ to.old ++ calls_tokens architecture looks lines.now) }
{
    let names = Names {
        naming: Naming::Constants,
        architecture,
    };
    to.begin_object()?;
    to.word_at("calls")?;
    add_architecture(to, architecture)?;
    add_looks(to, looks)?;
    add_rows_at(to, names, lines)?;
    to.end_object()
}

#[tactic(auto, unfolding(crate::specs::CallsDocument::rows_at))]
fn add_rows_at(to: &mut Document, names: Names, lines: &[Line]) -> Result<(), AllocError>
    ensures added { OnOk result (to.new ≡ to.old ++ rows_at names lines.now) }
{
    to.at("rows")?;
    to.begin_array()?;
    add_rows(to, names, lines)?;
    to.end_array()
}

#[tactic(auto, unfolding(crate::specs::CallsDocument::looks_at))]
fn add_looks(to: &mut Document, looks: bool) -> Result<(), AllocError>
    ensures added { OnOk result (to.new ≡ to.old ++ looks_at looks) }
{
    to.boolean_at("looks_at_architecture", looks)
}

fn add_rows(to: &mut Document, names: Names, lines: &[Line]) -> Result<(), AllocError>
    ensures added { OnOk result (to.new ≡ to.old ++ flat_map (calls_row names) lines.now) }
{
    for line in lines {
        add_row(to, names, line)?;
    }
    Ok(())
}

#[tactic(auto, unfolding(crate::specs::CallsDocument::calls_row))]
fn add_row(to: &mut Document, names: Names, line: &Line) -> Result<(), AllocError>
    ensures added { OnOk result (to.new ≡ to.old ++ calls_row names line.now) }
{
    to.begin_object()?;
    add_numbers(to, names.architecture, line.row.first, line.row.last)?;
    add_answers(to, &line.row.answers)?;
    add_examples_at(to, names, line)?;
    to.end_object()
}

#[tactic(auto, unfolding(crate::specs::CallsDocument::examples_at))]
fn add_examples_at(to: &mut Document, names: Names, line: &Line) -> Result<(), AllocError>
    ensures added { OnOk result (to.new ≡ to.old ++ examples_at names line.now) }
{
    to.at("examples")?;
    to.begin_array()?;
    add_examples(to, names, &line.shown)?;
    to.end_array()
}

#[tactic(auto, unfolding(crate::specs::CallsDocument::answers_at))]
fn add_answers(to: &mut Document, answers: &Answers) -> Result<(), AllocError>
    ensures added { OnOk result (to.new ≡ to.old ++ answers_at (answers_of answers.now)) }
{
    add_verdicts_at(to, answers)?;
    let mut text = to.text();
    push_answers(&mut text, answers)?;
    to.string_at("text", text.as_str())
}

fn add_examples(to: &mut Document, names: Names, examples: &[Shown]) -> Result<(), AllocError>
    ensures added { OnOk result (to.new ≡ to.old ++ flat_map (shown names) examples.now) }
{
    for it in examples {
        add_shown(to, names, it)?;
    }
    Ok(())
}

#[tactic(auto, unfolding(crate::specs::CallsDocument::shown))]
fn add_shown(to: &mut Document, names: Names, it: &Shown) -> Result<(), AllocError>
    ensures added { OnOk result (to.new ≡ to.old ++ shown names it.now) }
{
    to.begin_object()?;
    to.at("verdict")?;
    add_verdict(to, it.value)?;
    to.at("found")?;
    add_found(to, names, it.found)?;
    to.end_object()
}

fn add_found(to: &mut Document, names: Names, found: Option<Example>) -> Result<(), AllocError>
    ensures added { OnOk result (to.new ≡ to.old ++ maybe (example names) found) }
{
    match found {
        Some(found) => add_example(to, names, found),
        None => to.null(),
    }
}

#[tactic(auto, unfolding(crate::specs::CallsDocument::example))]
fn add_example(to: &mut Document, names: Names, it: Example) -> Result<(), AllocError>
    ensures added { OnOk result (to.new ≡ to.old ++ example names it) }
{
    to.begin_object()?;
    to.number_at("filter", it.filter as u64)?;
    to.number_at("instruction", it.place as u64)?;
    to.at("call")?;
    add_call(to, names, it.call)?;
    to.end_object()
}
