//! The calls of each group on a page.
ghost use Rattle.std.specs.Prelude.{◌≡◌, ◌++◌, count_by, flat_map, OnOk, string_bytes};
ghost use Rattle.sk_survey.specs.Answers.{answers_of};
ghost use Rattle.sk_when.specs.WhenText.{value_text};
ghost use Rattle.sk_document.specs.Groups.{is_in};
ghost use Rattle.sk_document.specs.PageParts.{told_of};
ghost use Rattle.sk_document.specs.PageRows.{case_shown, else_shown, ends_shown, group_caption, group_heading, group_id, group_section, group_table, groups, row_of_group, row_shown, value_shown};

use crate::group::{Group, is_in};
use crate::html::Html;
use crate::page_parts::{
    add_condition, add_nothing, add_row_head, begin_counted, begin_place, begin_table,
};
use sk_filter::push_verdict;
use sk_show::push_answers;
use sk_survey::Answers;
use sk_terms::Line;
use sk_when::{ConditionalRow, Names, constants_of};
use std::alloc::AllocError;

/// The columns of each group.
pub const COLUMNS: [&str; 2] = ["Call", "Verdict"];

/// Adds rows by their groups.
#[tactic(auto, unfolding(crate::specs::PageRows::groups))]
pub fn add_groups(to: &mut Html, names: Names, rows: &[ConditionalRow]) -> Result<(), AllocError>
    ensures added { OnOk result (to.new ≡ to.old ++ groups names rows.now) }
{
    add_group(to, names, rows, Group::Refused)?;
    add_group(to, names, rows, Group::Conditional)?;
    add_group(to, names, rows, Group::Allowed)
}

#[tactic(auto, unfolding(crate::specs::PageRows::group_section))]
fn add_group(
    to: &mut Html,
    names: Names,
    rows: &[ConditionalRow],
    group: Group,
) -> Result<(), AllocError>
    ensures added { OnOk result (to.new ≡ to.old ++ group_section names rows.now group) }
{
    let count = count_in(group, rows);
    begin_counted(to, group_id(group), group_heading(group), count)?;
    add_counted(to, count, names, rows, group)?;
    to.end("section")
}

// How many rows are in a group.
fn count_in(group: Group, rows: &[ConditionalRow]) -> usize
    ensures count { result ≡ count_by (is_in group) rows.now }
{
    rows.iter().filter(|told| is_in(group, told)).count()
}

fn add_counted(
    to: &mut Html,
    count: usize,
    names: Names,
    rows: &[ConditionalRow],
    group: Group,
) -> Result<(), AllocError>
    ensures added { OnOk result (to.new ≡ to.old ++ told_of count (group_table names rows.now group)) }
{
    if count == 0 {
        add_nothing(to)
    } else {
        add_table(to, names, rows, group)
    }
}

#[tactic(auto, unfolding(crate::specs::PageRows::group_table, crate::specs::PageRows::row_columns))]
fn add_table(
    to: &mut Html,
    names: Names,
    rows: &[ConditionalRow],
    group: Group,
) -> Result<(), AllocError>
    ensures added { OnOk result (to.new ≡ to.old ++ group_table names rows.now group) }
{
    begin_table(to, group_caption(group), &COLUMNS)?;
    to.begin("tbody")?;
    add_rows(to, names, rows, group)?;
    to.end("tbody")?;
    to.end("table")
}

fn group_id(group: Group) -> &'static str
    ensures id { result.now ≡ group_id group }
{
    match group {
        Group::Refused => "refused",
        Group::Conditional => "conditional",
        Group::Allowed => "allowed",
    }
}

fn group_heading(group: Group) -> &'static str
    ensures heading { result.now ≡ group_heading group }
{
    match group {
        Group::Refused => "Refused",
        Group::Conditional => "Under conditions",
        Group::Allowed => "Allowed",
    }
}

fn group_caption(group: Group) -> &'static str
    ensures caption { result.now ≡ group_caption group }
{
    match group {
        Group::Refused =>
            "Whatever their arguments are, the filters let none of these calls through",
        Group::Conditional => {
            "By their arguments these calls get one verdict or another: the first whose condition of C holds, or the one with else"
        }
        Group::Allowed => "Whatever their arguments are, all these calls are performed",
    }
}

fn add_rows(
    to: &mut Html,
    names: Names,
    rows: &[ConditionalRow],
    group: Group,
) -> Result<(), AllocError>
    ensures added { OnOk result (to.new ≡ to.old ++ flat_map (row_of_group names group) rows.now) }
{
    for told in rows {
        add_row_of(to, names, group, told)?;
    }
    Ok(())
}

#[tactic(auto, unfolding(crate::specs::PageRows::row_of_group))]
fn add_row_of(
    to: &mut Html,
    names: Names,
    group: Group,
    told: &ConditionalRow,
) -> Result<(), AllocError>
    ensures added { OnOk result (to.new ≡ to.old ++ row_of_group names group told.now) }
{
    if is_in(group, told) {
        add_row(to, names, told)
    } else {
        Ok(())
    }
}

#[tactic(auto, unfolding(crate::specs::PageRows::row_shown))]
fn add_row(to: &mut Html, names: Names, told: &ConditionalRow) -> Result<(), AllocError>
    ensures added { OnOk result (to.new ≡ to.old ++ row_shown names told.now) }
{
    begin_place(to, "tr", "call", told.row.first)?;
    add_row_head(to, names.architecture, told.row.first, told.row.last)?;
    to.begin("td")?;
    let constants = constants_of(names, told.row.first, told.row.last);
    add_ends(
        to,
        constants,
        &told.row.answers,
        told.otherwise,
        &told.lines,
    )?;
    to.end("td")?;
    to.end("tr")
}

// One verdict alone, or a list of cases.
fn add_ends(
    to: &mut Html,
    constants: Option<u32>,
    answers: &Answers,
    otherwise: Option<u32>,
    lines: &[Line],
) -> Result<(), AllocError>
    ensures added { OnOk result (to.new ≡ to.old ++ ends_shown constants (answers_of answers.now) otherwise lines.now) }
{
    if lines.is_empty() {
        return add_value(to, answers, otherwise);
    }
    to.begin("ul")?;
    add_cases(to, constants, answers, lines)?;
    add_else(to, answers, otherwise)?;
    to.end("ul")
}

fn add_cases(
    to: &mut Html,
    constants: Option<u32>,
    answers: &Answers,
    lines: &[Line],
) -> Result<(), AllocError>
    ensures added { OnOk result (to.new ≡ to.old ++ flat_map (case_shown constants (answers_of answers.now)) lines.now) }
{
    for line in lines {
        add_case(to, constants, answers, line)?;
    }
    Ok(())
}

#[tactic(auto, unfolding(crate::specs::PageRows::case_shown))]
fn add_case(
    to: &mut Html,
    constants: Option<u32>,
    answers: &Answers,
    line: &Line,
) -> Result<(), AllocError>
    ensures added { OnOk result (to.new ≡ to.old ++ case_shown constants (answers_of answers.now) line.now) }
{
    to.begin("li")?;
    add_value(to, answers, line.value)?;
    to.markup(" where ")?;
    add_condition(to, constants, line)?;
    to.end("li")
}

#[tactic(auto, unfolding(crate::specs::PageRows::else_shown))]
fn add_else(to: &mut Html, answers: &Answers, value: Option<u32>) -> Result<(), AllocError>
    ensures added { OnOk result (to.new ≡ to.old ++ else_shown (answers_of answers.now) value) }
{
    to.begin("li")?;
    add_value(to, answers, value)?;
    to.markup(" else")?;
    to.end("li")
}

fn add_value(to: &mut Html, answers: &Answers, value: Option<u32>) -> Result<(), AllocError>
    ensures added { OnOk result (to.new ≡ to.old ++ value_shown (answers_of answers.now) value) }
{
    let mut text = to.text();
    push_value(&mut text, answers, value)?;
    to.shown_in("b", text.as_bytes())
}

fn push_value(text: &mut String, answers: &Answers, value: Option<u32>) -> Result<(), AllocError>
    ensures text { OnOk result (string_bytes text.new ≡ string_bytes text.old ++ value_text (answers_of answers.now) value) }
{
    match value {
        Some(value) => push_verdict(text, value),
        None => push_answers(text, answers),
    }
}
