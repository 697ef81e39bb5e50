//! What filters answer to the calls of each architecture, on a page.
ghost use Rattle.std.specs.Prelude.{◌≡◌, ◌++◌, codes, flat_map, OnOk};
ghost use Rattle.sk_document.specs.PageArches.{answered_row, arches_section, architecture_row, architecture_table, judged_shown, other_shown, warned_shown, warning_begun, warning_ended, warning_shown, warnings_shown};

use crate::arches::only_value;
use crate::html::Html;
use crate::page_parts::{add_verdict, begin_section, begin_table};
use sk_names::Architecture;
use sk_survey::{Answered, Other, Told};
use std::alloc::AllocError;

/// What stands before an architecture that is warned of, and behind it.
pub const WARNING: &str = "Warning: calls of ";

pub const MISJUDGED: &str = " are judged by the numbers of x86-64.";

/// The columns of the table.
pub const COLUMNS: [&str; 2] = ["Architecture", "Verdict on all its calls"];

/// Adds what is told of architectures.
#[tactic(auto, unfolding(crate::specs::PageArches::arches_section))]
pub fn add_arches(to: &mut Html, told: &Told) -> Result<(), AllocError>
    ensures added { OnOk result (to.new ≡ to.old ++ arches_section told.now) }
{
    begin_section(to, "arches", "Architectures")?;
    add_warnings(to, told)?;
    add_table(to, told)?;
    to.end("section")
}

fn add_warnings(to: &mut Html, told: &Told) -> Result<(), AllocError>
    ensures added { OnOk result (to.new ≡ to.old ++ warnings_shown told.now) }
{
    if !told.warns() {
        return Ok(());
    }
    add_warned(to, told.i386, Architecture::I386)?;
    add_warned(to, told.x32, Architecture::X32)
}

fn add_warned(to: &mut Html, is: bool, by: Architecture) -> Result<(), AllocError>
    ensures added { OnOk result (to.new ≡ to.old ++ warned_shown is by) }
{
    if is { add_warning(to, by) } else { Ok(()) }
}

#[tactic(auto, unfolding(crate::specs::PageArches::warning_shown))]
fn add_warning(to: &mut Html, by: Architecture) -> Result<(), AllocError>
    ensures added { OnOk result (to.new ≡ to.old ++ warning_shown by) }
{
    to.begin("p")?;
    begin_warning(to)?;
    to.markup(by.text())?;
    end_warning(to)?;
    to.end("p")
}

#[tactic(auto, unfolding(crate::specs::PageArches::architecture_table, crate::specs::PageArches::architecture_columns))]
fn add_table(to: &mut Html, told: &Told) -> Result<(), AllocError>
    ensures added { OnOk result (to.new ≡ to.old ++ architecture_table told.now) }
{
    begin_table(
        to,
        "Of each architecture the verdict on all its calls, if it is one",
        &COLUMNS,
    )?;
    to.begin("tbody")?;
    add_all(to, &told.all)?;
    add_other(to, told.other)?;
    to.end("tbody")?;
    to.end("table")
}

fn add_all(to: &mut Html, all: &[Answered]) -> Result<(), AllocError>
    ensures added { OnOk result (to.new ≡ to.old ++ flat_map answered_row all.now) }
{
    for it in all {
        add_answered(to, it)?;
    }
    Ok(())
}

#[tactic(auto, unfolding(crate::specs::PageArches::answered_row, crate::specs::PageArches::architecture_row))]
fn add_answered(to: &mut Html, it: &Answered) -> Result<(), AllocError>
    ensures added { OnOk result (to.new ≡ to.old ++ answered_row it.now) }
{
    to.begin("tr")?;
    to.element_at("th", "scope", "row", it.architecture.text())?;
    to.begin("td")?;
    add_judged(to, only_value(&it.row.answers))?;
    to.end("td")?;
    to.end("tr")
}

#[tactic(auto, unfolding(crate::specs::PageArches::architecture_row))]
fn add_other(to: &mut Html, other: Other) -> Result<(), AllocError>
    ensures added { OnOk result (to.new ≡ to.old ++ architecture_row (codes "any other") (other_shown other)) }
{
    to.begin("tr")?;
    to.element_at("th", "scope", "row", "any other")?;
    to.begin("td")?;
    add_other_judged(to, other)?;
    to.end("td")?;
    to.end("tr")
}

fn add_other_judged(to: &mut Html, other: Other) -> Result<(), AllocError>
    ensures added { OnOk result (to.new ≡ to.old ++ other_shown other) }
{
    match other {
        Other::Verdict(value) => add_judged(to, Some(value)),
        Other::Several => add_judged(to, None),
        Other::Unknown => to.markup("not followed: each word of a call is loaded"),
    }
}

fn add_judged(to: &mut Html, value: Option<u32>) -> Result<(), AllocError>
    ensures added { OnOk result (to.new ≡ to.old ++ judged_shown value) }
{
    match value {
        Some(value) => add_verdict(to, value),
        None => to.markup("judged call by call"),
    }
}

#[tactic(auto, unfolding(crate::specs::PageArches::warning_begun))]
fn begin_warning(to: &mut Html) -> Result<(), AllocError>
    ensures added { OnOk result (to.new ≡ to.old ++ warning_begun) }
{
    to.markup(WARNING)
}

#[tactic(auto, unfolding(crate::specs::PageArches::warning_ended))]
fn end_warning(to: &mut Html) -> Result<(), AllocError>
    ensures added { OnOk result (to.new ≡ to.old ++ warning_ended) }
{
    to.markup(MISJUDGED)
}
