//! The text of a replay.
ghost use Rattle.std.specs.Prelude.{◌≡◌, ◌++◌, IfOk, OnOk, codes, false, flat_map, string_bytes, true};
ghost use Rattle.sk_names.specs.Names.{name_on};
ghost use Rattle.sk_replay.specs.Replaying.{argument_text, arguments_text, name_text, number_text, call_text, judged_text, row_text, one_text, part_text, count_text, tally_text};

use crate::action::push_logged;
use crate::answer::Replay;
use crate::call::Call;
use crate::judged::Judged;
use crate::row::Row;
use crate::value::Value;
use sk_filter::push_verdict;
use sk_names::{Architecture, name};
use std::alloc::{AllocError, Global};
use std::fmt::Write;

/// The text of a replay of the log of a process of an architecture.
pub fn replay_text(
    alloc: Global,
    architecture: Architecture,
    replay: &Replay,
) -> Result<String, AllocError>
    ensures text { IfOk result (λ text. string_bytes text ≡
        tally_text architecture replay.now.rows.items replay.now.events replay.now.unclear) }
{
    let Replay {
        rows,
        events,
        unclear,
        unclear_lines: _,
    } = replay;
    tally_text(alloc, architecture, rows, *events, *unclear)
}

// The text of these rows, and of so many lines that are no calls, or are not understood.
fn tally_text(
    alloc: Global,
    architecture: Architecture,
    rows: &[Row],
    events: u64,
    unclear: u64,
) -> Result<String, AllocError>
    ensures text { IfOk result (λ text. string_bytes text ≡ tally_text architecture rows.now events unclear) }
{
    let mut text = String::new(alloc);
    push_denied(&mut text, architecture, rows)?;
    push_performed(&mut text, architecture, rows)?;
    push_events(&mut text, events)?;
    push_unclear(&mut text, unclear)?;
    Ok(text)
}

fn push_denied(
    text: &mut String,
    architecture: Architecture,
    rows: &[Row],
) -> Result<(), AllocError>
    ensures text { OnOk result (string_bytes text.new ≡ string_bytes text.old ++ part_text architecture false rows.now) }
{
    push_part(text, architecture, rows, false)
}

fn push_performed(
    text: &mut String,
    architecture: Architecture,
    rows: &[Row],
) -> Result<(), AllocError>
    ensures text { OnOk result (string_bytes text.new ≡ string_bytes text.old ++ part_text architecture true rows.now) }
{
    push_part(text, architecture, rows, true)
}

fn push_events(text: &mut String, count: u64) -> Result<(), AllocError>
    ensures text { OnOk result (string_bytes text.new ≡
        string_bytes text.old ++ count_text count (codes "line is no call") (codes "lines are no calls")) }
{
    push_count(text, count, "line is no call", "lines are no calls")
}

fn push_unclear(text: &mut String, count: u64) -> Result<(), AllocError>
    ensures text { OnOk result (string_bytes text.new ≡
        string_bytes text.old ++ count_text count (codes "line is not understood") (codes "lines are not understood")) }
{
    push_count(
        text,
        count,
        "line is not understood",
        "lines are not understood",
    )
}

// Writes the rows that are performed, or those that are not.
fn push_part(
    text: &mut String,
    architecture: Architecture,
    rows: &[Row],
    performed: bool,
) -> Result<(), AllocError>
    ensures text { OnOk result (string_bytes text.new ≡ string_bytes text.old ++ part_text architecture performed rows.now) }
{
    for row in rows {
        push_one(text, architecture, row, performed)?;
    }
    Ok(())
}

#[tactic(auto, unfolding(crate::specs::Replaying::one_text))]
fn push_one(
    text: &mut String,
    architecture: Architecture,
    row: &Row,
    performed: bool,
) -> Result<(), AllocError>
    ensures text { OnOk result (string_bytes text.new ≡
        string_bytes text.old ++ one_text architecture performed row.now) }
{
    if row.is_performed() == performed {
        push_row(text, architecture, row)?;
    }
    Ok(())
}

#[tactic(auto, unfolding(crate::specs::Replaying::row_text))]
fn push_row(text: &mut String, architecture: Architecture, row: &Row) -> Result<(), AllocError>
    ensures text { OnOk result (string_bytes text.new ≡ string_bytes text.old ++ row_text architecture row.now) }
{
    let Row {
        call,
        times,
        judged,
    } = *row;
    write!(text, "{times} ")?;
    push_call(text, architecture, call)?;
    text.push_str(" ")?;
    push_judged(text, judged)?;
    push_logged(text, &call)?;
    text.push_str("\n")
}

fn push_judged(text: &mut String, judged: Judged) -> Result<(), AllocError>
    ensures text { OnOk result (string_bytes text.new ≡ string_bytes text.old ++ judged_text judged) }
{
    match judged {
        Judged::Verdict(value) => push_verdict(text, value),
        Judged::Undecided(i) => write!(text, "depends on args[{i}], which the log does not show"),
    }
}

/// Writes a call as strace(1) does with `-e raw=all`, with `?` for what the log shows no number of.
#[tactic(auto, unfolding(crate::specs::Replaying::call_text))]
pub fn push_call(
    text: &mut String,
    architecture: Architecture,
    call: Call,
) -> Result<(), AllocError>
    ensures text { OnOk result (string_bytes text.new ≡ string_bytes text.old ++ call_text architecture call) }
{
    push_name(text, architecture, call.nr)?;
    text.push_str("(")?;
    push_arguments(text, call.shown_args())?;
    text.push_str(")")
}

fn push_name(text: &mut String, architecture: Architecture, nr: u32) -> Result<(), AllocError>
    ensures text { OnOk result (string_bytes text.new ≡ string_bytes text.old ++ name_text (name_on architecture nr) nr) }
{
    match name(architecture, nr) {
        Some(name) => text.push_str(name),
        None => write!(text, "syscall_0x{nr:x}"),
    }
}

fn push_arguments(text: &mut String, args: &[Value]) -> Result<(), AllocError>
    ensures text { OnOk result (string_bytes text.new ≡ string_bytes text.old ++ arguments_text args.now) }
{
    let Some((first, others)) = args.split_first() else {
        return Ok(());
    };
    push_argument(text, *first)?;
    push_others(text, others)
}

fn push_others(text: &mut String, args: &[Value]) -> Result<(), AllocError>
    ensures text { OnOk result (string_bytes text.new ≡
        string_bytes text.old ++ flat_map (λ other. codes ", " ++ argument_text other) args.now) }
{
    for argument in args {
        push_other(text, *argument)?;
    }
    Ok(())
}

fn push_other(text: &mut String, argument: Value) -> Result<(), AllocError>
    ensures text { OnOk result (string_bytes text.new ≡ string_bytes text.old ++ (codes ", " ++ argument_text argument)) }
{
    text.push_str(", ")?;
    push_argument(text, argument)
}

fn push_argument(text: &mut String, argument: Value) -> Result<(), AllocError>
    ensures text { OnOk result (string_bytes text.new ≡ string_bytes text.old ++ argument_text argument) }
{
    match argument {
        Value::Told(number) => push_number(text, number),
        Value::Unknown => text.push_str("?"),
    }
}

/// Writes a number as strace(1) does with `-e raw=all`.
#[tactic(auto, unfolding(crate::specs::Replaying::number_text))]
pub(crate) fn push_number(text: &mut String, number: u64) -> Result<(), AllocError>
    ensures text { OnOk result (string_bytes text.new ≡ string_bytes text.old ++ number_text number) }
{
    if number == 0 {
        text.push_str("0")
    } else {
        write!(text, "0x{number:x}")
    }
}

#[tactic(auto, unfolding(crate::specs::Replaying::count_text))]
fn push_count(text: &mut String, count: u64, one: &str, many: &str) -> Result<(), AllocError>
    ensures text { OnOk result (string_bytes text.new ≡ string_bytes text.old ++ count_text count one.now many.now) }
{
    match count {
        0 => Ok(()),
        1 => write!(text, "1 {one}\n"),
        _ => write!(text, "{count} {many}\n"),
    }
}
