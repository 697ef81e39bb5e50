//! The text of `ask calls`.
ghost use Rattle.std.specs.Prelude.{◌≡◌, ◌++◌, IfOk, OnOk, string_bytes, flat_map};
ghost use Rattle.hex.specs.Hex.{encode_lower};
ghost use Rattle.sk_insn.specs.Record.{record_bytes};
ghost use Rattle.sk_engines.specs.Output.{line};
ghost use Rattle.sk_ask.specs.Architectures.{call_on};
ghost use Rattle.sk_ask.specs.CallsText.{row_text, found_text, shown_text, line_text, calls_text, unseen_text};

use sk_filter::push_verdict;
use sk_insn::Record;
use sk_names::Architecture;
use sk_show::{Example, Line, Shown, name_of_numbers, push_answers, push_numbers};
use sk_survey::Row;
use sk_text::HexDigits;
use std::alloc::{AllocError, Global};
use std::fmt::Write;

/// The text of these lines, whose signs it does not show, and whether no filter sees the architecture.
pub fn calls_text(
    alloc: Global,
    architecture: Architecture,
    lines: &[Line],
    unseen: bool,
) -> Result<String, AllocError>
    ensures text { IfOk result (λ text. string_bytes text ≡ calls_text architecture lines.now unseen) }
{
    let mut text = String::new(alloc);
    push_lines(&mut text, architecture, lines)?;
    text.push_str(unseen_text(unseen))?;
    Ok(text)
}

fn unseen_text(unseen: bool) -> &'static str
    ensures text { result.now ≡ unseen_text unseen }
{
    if unseen {
        "warning: no filter looks at the architecture: calls of each are judged by their numbers alone\n"
    } else {
        ""
    }
}

fn push_lines(
    text: &mut String,
    architecture: Architecture,
    lines: &[Line],
) -> Result<(), AllocError>
    ensures text { OnOk result (string_bytes text.new ≡ string_bytes text.old ++ flat_map (line_text architecture) lines.now) }
{
    for line in lines {
        push_line(text, architecture, line)?;
    }
    Ok(())
}

#[tactic(auto, unfolding(crate::specs::CallsText::line_text))]
fn push_line(text: &mut String, architecture: Architecture, line: &Line) -> Result<(), AllocError>
    ensures text { OnOk result (string_bytes text.new ≡ string_bytes text.old ++ line_text architecture line.now) }
{
    push_row(text, architecture, &line.row)?;
    push_all_shown(text, architecture, &line.shown)
}

#[tactic(auto, unfolding(crate::specs::CallsText::row_text))]
fn push_row(text: &mut String, architecture: Architecture, row: &Row) -> Result<(), AllocError>
    ensures text { OnOk result (string_bytes text.new ≡ string_bytes text.old ++ row_text architecture row.now) }
{
    push_numbers(text, row.first, row.last)?;
    text.push_str(" ")?;
    text.push_str(name_of_numbers(architecture, row.first, row.last))?;
    text.push_str(" ")?;
    push_answers(text, &row.answers)?;
    text.push_str("\n")
}

fn push_all_shown(
    text: &mut String,
    architecture: Architecture,
    all: &[Shown],
) -> Result<(), AllocError>
    ensures text { OnOk result (string_bytes text.new ≡ string_bytes text.old ++ flat_map (shown_text architecture) all.now) }
{
    for shown in all {
        push_shown(text, architecture, *shown)?;
    }
    Ok(())
}

#[tactic(auto, unfolding(crate::specs::CallsText::shown_text))]
fn push_shown(text: &mut String, architecture: Architecture, shown: Shown) -> Result<(), AllocError>
    ensures text { OnOk result (string_bytes text.new ≡ string_bytes text.old ++ shown_text architecture shown) }
{
    text.push_str("  ")?;
    push_verdict(text, shown.value)?;
    push_found(text, architecture, shown.found)?;
    text.push_str("\n")
}

fn push_found(
    text: &mut String,
    architecture: Architecture,
    found: Option<Example>,
) -> Result<(), AllocError>
    ensures text { OnOk result (string_bytes text.new ≡ string_bytes text.old ++ found_text architecture found) }
{
    match found {
        Some(example) => push_example(text, architecture, example),
        None => text.push_str(" ?"),
    }
}

fn push_example(
    text: &mut String,
    architecture: Architecture,
    example: Example,
) -> Result<(), AllocError>
    ensures text { OnOk result (string_bytes text.new ≡ string_bytes text.old ++ found_text architecture (Some example)) }
{
    let Example {
        call,
        filter,
        place,
    } = example;
    let shown = call_on(architecture, call);
    let record = HexDigits::<128>::of(&shown.bytes());
    write!(text, " filter {filter} at {place} record {record}")
}

// The call of x86-64 as one of the architecture.
fn call_on(architecture: Architecture, call: Record) -> Record
    ensures call { result ≡ call_on architecture call }
{
    Record {
        arch: architecture.audit(),
        ..call
    }
}
