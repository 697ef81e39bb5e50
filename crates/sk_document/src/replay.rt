//! What `ask replay` tells, as a document.
ghost use Rattle.std.specs.Prelude.{◌≡◌, ◌++◌, codes, flat_map, IfOk, OnOk};
ghost use Rattle.std.specs.Fmt.{decimal};
ghost use Rattle.sk_replay.specs.Replaying.{logged_name};
ghost use Rattle.sk_document.specs.Documents.{said};
ghost use Rattle.sk_document.specs.ReplayDocument.{judged_at, lines_at, logged_at, logged_said, made, replay_document, replay_row, replay_rows_at, replay_tokens, shown_args_at, strace_at, told_verdict, undecided_at, undecided_said, value_said, verdict_at};

use crate::call::add_hexadecimal;
use crate::document::Document;
use crate::numbers::{add_architecture, add_name};
use crate::verdict::add_verdict;
use sk_names::{Architecture, name};
use sk_replay::{Call, Judged, Replay, Row, Value, push_call, push_logged_name};
use std::alloc::{AllocError, Global};
use std::fmt::Write;

/// The verdicts on the calls of a log, which a process of an architecture made.
pub fn replay_document(
    alloc: Global,
    architecture: Architecture,
    replay: &Replay,
) -> Result<Vec<u8>, AllocError>
    ensures document { IfOk result (λ text. text.items ≡
        replay_document architecture replay.now.rows.items replay.now.events replay.now.unclear) }
{
    let mut document = Document::new(alloc);
    add_replay(&mut document, architecture, replay)?;
    document.finished()
}

#[tactic(auto, unfolding(crate::specs::ReplayDocument::replay_tokens))]
fn add_replay(
    to: &mut Document,
    architecture: Architecture,
    replay: &Replay,
) -> Result<(), AllocError>
    ensures added { OnOk result (to.new ≡
        to.old ++ replay_tokens architecture replay.now.rows.items replay.now.events replay.now.unclear) }
{
    to.begin_object()?;
    to.word_at("replay")?;
    add_architecture(to, architecture)?;
    to.boolean_at("denies", replay.denies())?;
    add_rows_at(to, architecture, &replay.rows)?;
    add_lines_at(to, replay.events, replay.unclear)?;
    to.end_object()
}

#[tactic(auto, unfolding(crate::specs::ReplayDocument::replay_rows_at))]
fn add_rows_at(
    to: &mut Document,
    architecture: Architecture,
    rows: &[Row],
) -> Result<(), AllocError>
    ensures added { OnOk result (to.new ≡ to.old ++ replay_rows_at architecture rows.now) }
{
    to.at("rows")?;
    to.begin_array()?;
    add_rows(to, architecture, rows)?;
    to.end_array()
}

#[tactic(auto, unfolding(crate::specs::ReplayDocument::lines_at))]
fn add_lines_at(to: &mut Document, events: u64, unclear: u64) -> Result<(), AllocError>
    ensures added { OnOk result (to.new ≡ to.old ++ lines_at events unclear) }
{
    to.number_at("no_calls", events)?;
    to.number_at("not_understood", unclear)
}

fn add_rows(to: &mut Document, architecture: Architecture, rows: &[Row]) -> Result<(), AllocError>
    ensures added { OnOk result (to.new ≡ to.old ++ flat_map (replay_row architecture) rows.now) }
{
    for row in rows {
        add_row(to, architecture, row)?;
    }
    Ok(())
}

#[tactic(auto, unfolding(crate::specs::ReplayDocument::replay_row))]
fn add_row(to: &mut Document, architecture: Architecture, row: &Row) -> Result<(), AllocError>
    ensures added { OnOk result (to.new ≡ to.old ++ replay_row architecture row.now) }
{
    to.begin_object()?;
    to.number_at("times", row.times)?;
    add_made(to, architecture, row.call)?;
    add_judged_at(to, row)?;
    add_logged_at(to, row.call.logged)?;
    add_strace_at(to, architecture, row.call)?;
    to.end_object()
}

#[tactic(auto, unfolding(crate::specs::ReplayDocument::made))]
fn add_made(to: &mut Document, architecture: Architecture, call: Call) -> Result<(), AllocError>
    ensures added { OnOk result (to.new ≡ to.old ++ made architecture call) }
{
    to.number_at("number", u64::from(call.nr))?;
    add_name(to, name(architecture, call.nr))?;
    add_shown_args_at(to, call)
}

#[tactic(auto, unfolding(crate::specs::ReplayDocument::shown_args_at))]
fn add_shown_args_at(to: &mut Document, call: Call) -> Result<(), AllocError>
    ensures added { OnOk result (to.new ≡ to.old ++ shown_args_at call) }
{
    to.at("args")?;
    to.begin_array()?;
    add_values(to, call.shown_args())?;
    to.end_array()
}

fn add_values(to: &mut Document, args: &[Value]) -> Result<(), AllocError>
    ensures added { OnOk result (to.new ≡ to.old ++ flat_map value_said args.now) }
{
    for value in args {
        add_value(to, *value)?;
    }
    Ok(())
}

fn add_value(to: &mut Document, value: Value) -> Result<(), AllocError>
    ensures added { OnOk result (to.new ≡ to.old ++ value_said value) }
{
    match value {
        Value::Told(number) => add_hexadecimal(to, number),
        Value::Unknown => to.null(),
    }
}

#[tactic(auto, unfolding(crate::specs::ReplayDocument::judged_at))]
fn add_judged_at(to: &mut Document, row: &Row) -> Result<(), AllocError>
    ensures added { OnOk result (to.new ≡ to.old ++ judged_at row.now) }
{
    to.boolean_at("performed", row.is_performed())?;
    add_verdict_at(to, row.judged)?;
    add_undecided_at(to, row.judged)
}

#[tactic(auto, unfolding(crate::specs::ReplayDocument::verdict_at))]
fn add_verdict_at(to: &mut Document, judged: Judged) -> Result<(), AllocError>
    ensures added { OnOk result (to.new ≡ to.old ++ verdict_at judged) }
{
    to.at("verdict")?;
    add_told(to, judged)
}

#[tactic(auto, unfolding(crate::specs::ReplayDocument::undecided_at))]
fn add_undecided_at(to: &mut Document, judged: Judged) -> Result<(), AllocError>
    ensures added { OnOk result (to.new ≡ to.old ++ undecided_at judged) }
{
    to.at("undecided_by")?;
    add_undecided(to, judged)
}

fn add_told(to: &mut Document, judged: Judged) -> Result<(), AllocError>
    ensures added { OnOk result (to.new ≡ to.old ++ told_verdict judged) }
{
    match judged {
        Judged::Verdict(value) => add_verdict(to, value),
        Judged::Undecided(_) => to.null(),
    }
}

#[tactic(auto, unfolding(crate::specs::ReplayDocument::undecided_said))]
fn add_undecided(to: &mut Document, judged: Judged) -> Result<(), AllocError>
    ensures added { OnOk result (to.new ≡ to.old ++ undecided_said judged) }
{
    match judged {
        Judged::Verdict(_) => to.null(),
        Judged::Undecided(argument) => add_argument(to, argument),
    }
}

fn add_argument(to: &mut Document, argument: usize) -> Result<(), AllocError>
    ensures added { OnOk result (to.new ≡ to.old ++ said (codes "args[" ++ (decimal argument ++ codes "]"))) }
{
    let mut text = to.text();
    write!(text, "args[{argument}]")?;
    to.string(text.as_str())
}

#[tactic(auto, unfolding(crate::specs::ReplayDocument::logged_at))]
pub(crate) fn add_logged_at(to: &mut Document, logged: Option<u32>) -> Result<(), AllocError>
    ensures added { OnOk result (to.new ≡ to.old ++ logged_at logged) }
{
    to.at("logged")?;
    add_logged(to, logged)
}

fn add_logged(to: &mut Document, logged: Option<u32>) -> Result<(), AllocError>
    ensures added { OnOk result (to.new ≡ to.old ++ logged_said logged) }
{
    match logged {
        Some(value) => add_logged_name(to, value),
        None => to.null(),
    }
}

fn add_logged_name(to: &mut Document, value: u32) -> Result<(), AllocError>
    ensures added { OnOk result (to.new ≡ to.old ++ said (logged_name value)) }
{
    let mut text = to.text();
    push_logged_name(&mut text, value)?;
    to.string(text.as_str())
}

#[tactic(auto, unfolding(crate::specs::ReplayDocument::strace_at))]
fn add_strace_at(
    to: &mut Document,
    architecture: Architecture,
    call: Call,
) -> Result<(), AllocError>
    ensures added { OnOk result (to.new ≡ to.old ++ strace_at architecture call) }
{
    let mut text = to.text();
    push_call(&mut text, architecture, call)?;
    to.string_at("text", text.as_str())
}
