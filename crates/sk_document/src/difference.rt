//! What is told of a part of a comparison in documents.
ghost use Rattle.std.specs.Prelude.{◌≡◌, ◌++◌, OnOk, string_bytes};
ghost use Rattle.sk_when.specs.DiffText.{expected_text};
ghost use Rattle.sk_document.specs.Verdicts.{judged, verdict};
ghost use Rattle.sk_document.specs.Differences.{difference, differences_name, holds, holds_at, no_pair, old_and_new, old_verdict, pair, shown_call};

use crate::call::add_call;
use crate::document::Document;
use crate::terms::add_meeting;
use crate::verdict::{add_judged, add_verdict};
use sk_conditions::{Expectation, Numbers, Verdicts};
use sk_filter::push_verdict;
use sk_when::{Finding, Names, Outcome, Part, Relation, constants_of};
use std::alloc::AllocError;

/// Adds whether all is as it is asked for.
#[tactic(auto, unfolding(crate::specs::Differences::holds_at))]
pub fn add_holds(to: &mut Document, finding: Finding) -> Result<(), AllocError>
    ensures added { OnOk result (to.new ≡ to.old ++ holds_at finding) }
{
    to.boolean_at("holds", holds(finding))
}

/// Adds the name below which the differences stand.
#[tactic(auto, unfolding(crate::specs::Differences::differences_name))]
pub fn add_differences_name(to: &mut Document) -> Result<(), AllocError>
    ensures added { OnOk result (to.new ≡ to.old ++ differences_name) }
{
    to.at("differences")
}

fn holds(finding: Finding) -> bool
    ensures holds { result ≡ holds finding }
{
    matches!(finding, Finding::Holds)
}

/// Adds the verdicts, the condition under which they come, and a call that shows them.
#[tactic(auto, unfolding(crate::specs::Differences::difference))]
pub fn add_difference(
    to: &mut Document,
    relation: Relation,
    names: Names,
    numbers: Numbers,
    part: &Part,
) -> Result<(), AllocError>
    ensures added { OnOk result (to.new ≡ to.old ++ difference relation names numbers part.now) }
{
    add_pair(to, relation, part.outcome)?;
    let constants = constants_of(names, numbers.first, numbers.last);
    add_meeting(to, constants, &part.calls)?;
    to.at("call")?;
    add_shown(to, names, part.outcome)
}

fn add_pair(to: &mut Document, relation: Relation, outcome: Outcome) -> Result<(), AllocError>
    ensures added { OnOk result (to.new ≡ to.old ++ pair relation outcome) }
{
    match outcome {
        Outcome::Undecided => add_no_pair(to),
        Outcome::Apart(pair, _) => add_verdicts(to, relation, pair),
    }
}

#[tactic(auto, unfolding(crate::specs::Differences::no_pair))]
fn add_no_pair(to: &mut Document) -> Result<(), AllocError>
    ensures added { OnOk result (to.new ≡ to.old ++ no_pair) }
{
    to.at("old")?;
    to.null()?;
    to.at("new")?;
    to.null()
}

#[tactic(auto, unfolding(crate::specs::Differences::old_and_new))]
fn add_verdicts(to: &mut Document, relation: Relation, it: Verdicts) -> Result<(), AllocError>
    ensures added { OnOk result (to.new ≡ to.old ++ old_and_new relation it) }
{
    to.at("old")?;
    add_old(to, relation, it.old)?;
    to.at("new")?;
    add_verdict(to, it.new)
}

// The verdict of the old chain, or what it expects.
fn add_old(to: &mut Document, relation: Relation, value: u32) -> Result<(), AllocError>
    ensures added { OnOk result (to.new ≡ to.old ++ old_verdict relation value) }
{
    match relation {
        Relation::Same | Relation::AsStrict => add_verdict(to, value),
        Relation::Expected => add_expected(to, value),
    }
}

fn add_expected(to: &mut Document, value: u32) -> Result<(), AllocError>
    ensures added { OnOk result (to.new ≡ to.old ++ judged value (expected_text value)) }
{
    let mut text = to.text();
    push_expected(&mut text, value)?;
    add_judged(to, value, text.as_str())
}

fn push_expected(text: &mut String, value: u32) -> Result<(), AllocError>
    ensures text { OnOk result (string_bytes text.new ≡ string_bytes text.old ++ expected_text value) }
{
    text.push_str("expected ")?;
    match Expectation::of(value).name() {
        Some(name) => text.push_str(name),
        None => push_verdict(text, value),
    }
}

fn add_shown(to: &mut Document, names: Names, outcome: Outcome) -> Result<(), AllocError>
    ensures added { OnOk result (to.new ≡ to.old ++ shown_call names outcome) }
{
    match outcome {
        Outcome::Undecided => to.null(),
        Outcome::Apart(_, call) => add_call(to, names, call),
    }
}
