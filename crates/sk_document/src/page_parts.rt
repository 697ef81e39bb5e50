//! What the pages for reviewers are made of.
ghost use Rattle.std.specs.Prelude.{◌≡◌, ◌++◌, OnOk, codes, flat_map, map, string_bytes};
ghost use Rattle.sk_document.specs.Html.{attribute, begun};
ghost use Rattle.sk_document.specs.PageParts.{call_shown, column, condition_shown, counted, nothing, place, row_head, section_begun, table_begun, table_head, verdict_shown};

use crate::html::Html;
use sk_filter::push_verdict;
use sk_insn::Record;
use sk_names::Architecture;
use sk_show::{name_of_numbers, push_numbers};
use sk_terms::{Line, push_condition};
use sk_when::{Names, push_call};
use std::alloc::AllocError;
use std::fmt::Write;

/// Begins a section, with the heading that names it.
#[tactic(auto, unfolding(crate::specs::PageParts::section_begun))]
pub fn begin_section(to: &mut Html, id: &str, heading: &str) -> Result<(), AllocError>
    ensures added { OnOk result (to.new ≡ to.old ++ section_begun id.now heading.now) }
{
    to.begin_at("section", "aria-labelledby", id)?;
    to.element_at("h2", "id", id, heading)
}

/// The same with a heading that counts calls.
pub fn begin_counted(to: &mut Html, id: &str, heading: &str, count: usize) -> Result<(), AllocError>
    ensures added { OnOk result (to.new ≡ to.old ++ section_begun id.now (counted heading.now count)) }
{
    let mut text = to.text();
    push_counted(&mut text, heading, count)?;
    begin_section(to, id, text.as_str())
}

/// Adds a heading that counts calls.
#[tactic(auto, unfolding(crate::specs::PageParts::counted))]
pub fn push_counted(text: &mut String, heading: &str, count: usize) -> Result<(), AllocError>
    ensures text { OnOk result (string_bytes text.new ≡ string_bytes text.old ++ counted heading.now count) }
{
    text.push_str(heading)?;
    write!(text, ": {count}")
}

/// Says that there is nothing to be told.
#[tactic(auto, unfolding(crate::specs::PageParts::nothing))]
pub fn add_nothing(to: &mut Html) -> Result<(), AllocError>
    ensures added { OnOk result (to.new ≡ to.old ++ nothing) }
{
    to.element("p", "None.")
}

/// Begins a table, with what it is about and its columns.
#[tactic(auto, unfolding(crate::specs::PageParts::table_begun))]
pub fn begin_table(to: &mut Html, caption: &str, columns: &[&str]) -> Result<(), AllocError>
    ensures added { OnOk result (to.new ≡ to.old ++ table_begun caption.now (map (λ name. name.now) columns.now)) }
{
    to.begin("table")?;
    to.element("caption", caption)?;
    add_head(to, columns)
}

#[tactic(auto, unfolding(crate::specs::PageParts::table_head))]
fn add_head(to: &mut Html, columns: &[&str]) -> Result<(), AllocError>
    ensures added { OnOk result (to.new ≡ to.old ++ table_head (map (λ name. name.now) columns.now)) }
{
    to.begin("thead")?;
    to.begin("tr")?;
    add_columns(to, columns)?;
    to.end("tr")?;
    to.end("thead")
}

fn add_columns(to: &mut Html, columns: &[&str]) -> Result<(), AllocError>
    ensures added { OnOk result (to.new ≡ to.old ++ flat_map column (map (λ name. name.now) columns.now)) }
{
    for heading in columns {
        add_column(to, heading)?;
    }
    Ok(())
}

#[tactic(auto, unfolding(crate::specs::PageParts::column))]
fn add_column(to: &mut Html, heading: &str) -> Result<(), AllocError>
    ensures added { OnOk result (to.new ≡ to.old ++ column heading.now) }
{
    to.element_at("th", "scope", "col", heading)
}

/// Begins the element whose key links name, by a number.
pub fn begin_place(to: &mut Html, name: &str, kind: &str, first: u32) -> Result<(), AllocError>
    ensures added { OnOk result (to.new ≡ to.old ++ begun name.now (attribute (codes "id") (place kind.now first))) }
{
    let mut text = to.text();
    push_place(&mut text, kind, first)?;
    to.begin_at(name, "id", text.as_str())
}

#[tactic(auto, unfolding(crate::specs::PageParts::place))]
fn push_place(text: &mut String, kind: &str, first: u32) -> Result<(), AllocError>
    ensures text { OnOk result (string_bytes text.new ≡ string_bytes text.old ++ place kind.now first) }
{
    text.push_str(kind)?;
    write!(text, "-{first}")
}

/// Adds the head of a row: numbers, and the name that a single one has.
#[tactic(auto, unfolding(crate::specs::PageParts::row_head))]
pub fn add_row_head(
    to: &mut Html,
    architecture: Architecture,
    first: u32,
    last: u32,
) -> Result<(), AllocError>
    ensures added { OnOk result (to.new ≡ to.old ++ row_head architecture first last) }
{
    let mut text = to.text();
    push_numbers(&mut text, first, last)?;
    text.push_str(" ")?;
    text.push_str(name_of_numbers(architecture, first, last))?;
    to.begin_at("th", "scope", "row")?;
    to.shown(text.as_bytes())?;
    to.end("th")
}

/// Adds a verdict.
pub fn add_verdict(to: &mut Html, value: u32) -> Result<(), AllocError>
    ensures added { OnOk result (to.new ≡ to.old ++ verdict_shown value) }
{
    let mut text = to.text();
    push_verdict(&mut text, value)?;
    to.shown_in("b", text.as_bytes())
}

/// Adds a condition of C, with the constants of a call where one is given by its number on x86-64.
pub fn add_condition(to: &mut Html, constants: Option<u32>, line: &Line) -> Result<(), AllocError>
    ensures added { OnOk result (to.new ≡ to.old ++ condition_shown constants line.now) }
{
    let mut text = to.text();
    push_condition(&mut text, constants, line)?;
    to.shown_in("code", text.as_bytes())
}

/// Adds a call as syscall(2) makes it.
pub fn add_call(to: &mut Html, names: Names, call: Record) -> Result<(), AllocError>
    ensures added { OnOk result (to.new ≡ to.old ++ call_shown names call) }
{
    let mut text = to.text();
    push_call(&mut text, names, call)?;
    to.shown_in("code", text.as_bytes())
}
