//! What decides on a call in the text that a filter is made of.
ghost use Rattle.std.specs.Prelude.{◌≡◌, ◌++◌, OnOk, flat_map, map};
ghost use Rattle.sk_document.specs.Documents.{counted, maybe};
ghost use Rattle.sk_document.specs.Deciding.{by_name, decision_of, decisions_at, entry_of, kind_name, line_of, pair_of, where_at};

use crate::document::Document;
use std::alloc::AllocError;

/// What of a text decides on a call: of a profile's, or of a policy's.
#[derive(Clone, Copy, Debug, Drop, PartialEq, Eq)]
pub enum Decider {
    /// A profile's entry, from 0 on, and the line in which it begins, if it has one.
    Entry(usize, Option<usize>),
    /// A profile's default: no entry says otherwise.
    NoEntry,
    /// Instructions of runc's own, which know no call with the number.
    NoCall,
    /// Nothing: the profile is not for calls of the architecture.
    Foreign,
    /// A policy's row, by the line of its verdict.
    Row(Option<usize>),
    /// A policy's `default`, by its line.
    Default(Option<usize>),
    /// A policy's `others`, by its line, if there is one.
    Others(Option<usize>),
}

/// What decides on a call in the text of a file with this name.
#[derive(Clone, Copy, Drop)]
pub struct Decision<'a> {
    pub file: &'a str,
    pub decider: Decider,
}

fn kind_name(decider: Decider) -> &'static str
    ensures name { result.now ≡ kind_name decider }
{
    match decider {
        Decider::Entry(_, _) | Decider::NoEntry | Decider::NoCall | Decider::Foreign => "profile",
        Decider::Row(_) | Decider::Default(_) | Decider::Others(_) => "policy",
    }
}

fn by_name(decider: Decider) -> &'static str
    ensures name { result.now ≡ by_name decider }
{
    match decider {
        Decider::Entry(_, _) => "entry",
        Decider::NoEntry => "no_entry",
        Decider::NoCall => "no_call",
        Decider::Foreign => "foreign",
        Decider::Row(_) => "row",
        Decider::Default(_) => "default",
        Decider::Others(_) => "others",
    }
}

// The entry that decides.
fn entry_of(decider: Decider) -> Option<usize>
    ensures entry { result ≡ entry_of decider }
{
    match decider {
        Decider::Entry(entry, _) => Some(entry),
        _ => None,
    }
}

// The line that decides, or in which the entry begins.
fn line_of(decider: Decider) -> Option<usize>
    ensures line { result ≡ line_of decider }
{
    match decider {
        Decider::Entry(_, line) => line,
        Decider::Row(line) => line,
        Decider::Default(line) => line,
        Decider::Others(line) => line,
        _ => None,
    }
}

/// Adds what decides in each of the texts, in their order.
#[tactic(auto, unfolding(crate::specs::Deciding::decisions_at))]
pub(crate) fn add_decisions_at(
    to: &mut Document,
    decisions: &[Decision<'_>],
) -> Result<(), AllocError>
    ensures added { OnOk result (to.new ≡ to.old ++ decisions_at (map pair_of decisions.now)) }
{
    to.at("entries")?;
    to.begin_array()?;
    add_decisions(to, decisions)?;
    to.end_array()
}

fn add_decisions(to: &mut Document, decisions: &[Decision<'_>]) -> Result<(), AllocError>
    ensures added { OnOk result (to.new ≡ to.old ++ flat_map decision_of (map pair_of decisions.now)) }
{
    for it in decisions {
        add_decision(to, *it)?;
    }
    Ok(())
}

#[tactic(auto, unfolding(crate::specs::Deciding::decision))]
fn add_decision(to: &mut Document, it: Decision<'_>) -> Result<(), AllocError>
    ensures added { OnOk result (to.new ≡ to.old ++ decision_of (pair_of it.entry)) }
{
    to.begin_object()?;
    to.string_at("file", it.file)?;
    to.string_at("kind", kind_name(it.decider))?;
    to.string_at("by", by_name(it.decider))?;
    add_where_at(to, it.decider)?;
    to.end_object()
}

#[tactic(auto, unfolding(crate::specs::Deciding::where_at))]
fn add_where_at(to: &mut Document, decider: Decider) -> Result<(), AllocError>
    ensures added { OnOk result (to.new ≡ to.old ++ where_at decider) }
{
    to.at("entry")?;
    add_counted(to, entry_of(decider))?;
    to.at("line")?;
    add_counted(to, line_of(decider))
}

fn add_counted(to: &mut Document, number: Option<usize>) -> Result<(), AllocError>
    ensures added { OnOk result (to.new ≡ to.old ++ maybe counted number) }
{
    match number {
        Some(number) => to.number(number as u64),
        None => to.null(),
    }
}
