//! Long conditions in lines of at most 110 columns.
ghost use Rattle.std.specs.Prelude.{◌≡◌, ◌≤◌, ◌<◌, ◌++◌, ◌^◌, OnOk, length, take, drop, string_bytes};
ghost use Rattle.sk_terms.specs.Text.{condition_text};
ghost use Rattle.sk_when.specs.Filling.{break_text, depth_behind, filled, filled_behind, joins, part_length, until_operator};

use sk_terms::{Line, push_condition};
use std::alloc::AllocError;

/// The most columns of a line.
const MOST_COLUMNS: usize = 110;

/// What stands between two lines of a condition, before the blank of an operator.
const BREAK: &str = "\n     ";

/// The room for a part behind it.
const ROOM_OF_LINE: usize = 105;

/// Adds the condition of a line behind so many columns, with the constants of a call where one is given.
#[tactic(auto, unfolding(crate::specs::Filling::filled_behind))]
pub fn push_filled(
    text: &mut String,
    column: usize,
    call: Option<u32>,
    line: &Line,
) -> Result<(), AllocError>
    ensures text { OnOk result (string_bytes text.new ≡ string_bytes text.old ++ filled_behind column (condition_text call line.now)) }
{
    let mut condition = String::new(*text.allocator());
    push_condition(&mut condition, call, line)?;
    push_parts(text, MOST_COLUMNS.saturating_sub(column), &condition)
}

// The first part stands behind what there is.
fn push_parts(text: &mut String, room: usize, condition: &str) -> Result<(), AllocError>
    ensures text { OnOk result (string_bytes text.new ≡ string_bytes text.old ++ filled room (part_length room condition.now) condition.now) }
{
    let (first, others) = first_part(condition, room);
    text.push_str(first)?;
    push_other_parts(text, room.saturating_sub(first.len()), others)
}

fn push_other_parts(text: &mut String, room: usize, condition: &str) -> Result<(), AllocError>
    ensures text { OnOk result (string_bytes text.new ≡ string_bytes text.old ++ filled room 0 condition.now) }
{
    let mut room = room;
    let mut rest = condition;
    while !rest.is_empty() {
        let (part, others) = first_part(rest, ROOM_OF_LINE);
        if part.len() > room {
            text.push_str(BREAK)?;
            room = ROOM_OF_LINE;
        }
        text.push_str(part)?;
        room = room.saturating_sub(part.len());
        rest = others;
    }
    Ok(())
}

// What stays in one line, and what is behind it.
#[tactic(auto, using(crate::proofs::Filled::part_boundary))]
fn first_part(text: &str, room: usize) -> (&str, &str)
    ensures part { result.0.now ≡ take (part_length room text.now) text.now }
    ensures others { result.1.now ≡ drop (part_length room text.now) text.now }
    ensures length { length result.0.now ≡ part_length room text.now }
{
    text.split_at(part_length(text.as_bytes(), room))
}

fn part_length(text: &[u8], room: usize) -> usize
    ensures length { result ≡ part_length room text.now }
{
    let Some((first, rest)) = text.split_first() else {
        return 0;
    };
    let depth = depth_behind(0, *first);
    let part = until_operator(rest, depth, false);
    if part < room {
        1 + part
    } else {
        1 + until_operator(rest, depth, true)
    }
}

// How much stands before the next operator that joins conditions, or the next one outside of brackets.
fn until_operator(text: &[u8], depth: usize, any: bool) -> usize
    requires few { depth ≤ 1 }
    ensures length { result ≡ until_operator any depth text.now }
    ensures within { result ≤ length text.now }
{
    let mut depth = depth;
    let mut at = 0;
    while at < text.len() && !((any || depth == 0) && joins(&text[at..])) {
        depth = depth_behind(depth, text[at]);
        at += 1;
    }
    at
}

fn joins(text: &[u8]) -> bool
    ensures joins { result ≡ joins text.now }
{
    text.starts_with(b" || ") || text.starts_with(b" && ")
}

// How many brackets are open behind a character.
fn depth_behind(depth: usize, c: u8) -> usize
    requires fits { depth < 2 ^ 63 }
    ensures depth { result ≡ depth_behind depth c }
{
    match c {
        b'(' => depth + 1,
        b')' => depth.saturating_sub(1),
        _ => depth,
    }
}
