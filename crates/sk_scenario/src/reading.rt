//! The lines, read one after the other.
ghost use Rattle.std.specs.Prelude.{◌≡◌, ◌≤◌, ◌<◌, ◌^◌, length, OnOk};
ghost use Rattle.sk_text.specs.Lines.{lines_of};
ghost use Rattle.sk_asm.specs.Block.{until_end};
ghost use Rattle.sk_scenario.specs.Reading.{is_open, inside, finished, within, stepped, closed, reading, nothing_yet, Nothing as NoBlock};
ghost use Rattle.sk_scenario.specs.Answers.{Answers, Judges};
ghost use Rattle.sk_scenario.specs.views.ScenarioCode.{known_seen, gained, block_seen};

use crate::TextFault;
use crate::calls::{add_call, read_call};
use crate::fault::ScenarioFault;
use crate::filters::{decide, grow};
use crate::state::{Block, Done, Names};
use crate::top::{check_line, read_top, start};
use indexmap::IndexMap;
use sk_asm::is_end;
use sk_text::Lines;
use std::alloc::{AllocError, Global};
use std::mem;

// Reads line `n` in the block that is open, where it is no `end`.
#[tactic(auto, unfolding(crate::specs::Reading::inside))]
fn inside(
    alloc: Global,
    known: Option<&Names<'_>>,
    n: usize,
    current: &mut Block,
    line: &[u8],
    ahead: &[u8],
) -> Result<(), ScenarioFault>
    requires first { 1 ≤ n }
    requires numbers { n < 2 ^ 63 }
    ensures exact { Answers (λ none. block_seen current.new) result
        (inside (known_seen known.entry) n (block_seen current.old) line.now (until_end (lines_of ahead.now))) }
{
    match current {
        Block::Nothing | Block::Code(_) => Ok(()),
        Block::Undecided => {
            check_line(n, line)?;
            *current = decide(alloc, known, n, line, ahead)?;
            Ok(())
        }
        Block::Bytes(image) => grow(alloc, n, image, line),
        Block::Calls(program) => {
            let said = read_call(n, line)?;
            add_call(program, known, n, said)
        }
    }
}

// Keeps what a block gave, at its `end`.
fn finish(alloc: Global, done: &mut Done<'_>, current: Block) -> Result<(), AllocError>
    ensures kept { OnOk result (gained done.new ≡ finished (gained done.old) (block_seen current)) }
{
    match current {
        Block::Nothing => {}
        Block::Undecided => done.filters.push(Vec::new(alloc))?,
        Block::Bytes(image) | Block::Code(image) => done.filters.push(image)?,
        Block::Calls(program) => done.programs.push(program)?,
    }
    Ok(())
}

fn is_open(current: &Block) -> bool
    ensures exact { result ≡ is_open (block_seen current.now) }
{
    !matches!(current, Block::Nothing)
}

// Reads line `n` in the block that is open.
#[tactic(auto, unfolding(crate::specs::Reading::within))]
fn within(
    alloc: Global,
    known: Option<&Names<'_>>,
    done: &mut Done<'_>,
    n: usize,
    current: &mut Block,
    line: &[u8],
    ahead: &[u8],
) -> Result<(), ScenarioFault>
    requires first { 1 ≤ n }
    requires numbers { n < 2 ^ 63 }
    ensures exact { Answers (λ none. (gained done.new, block_seen current.new)) result
        (within (known_seen known.entry) n (gained done.old) (block_seen current.old) line.now (lines_of ahead.now)) }
{
    if is_end(line) {
        finish(alloc, done, mem::replace(current, Block::Nothing))?;
        return Ok(());
    }
    inside(alloc, known, n, current, line, ahead)
}

// Reads line `n`, with which the text ahead begins.
#[tactic(auto, unfolding(crate::specs::Reading::stepped))]
fn step<'a>(
    alloc: Global,
    known: Option<&Names<'_>>,
    done: &mut Done<'a>,
    n: usize,
    current: &mut Block,
    line: &'a [u8],
    ahead: &[u8],
) -> Result<(), ScenarioFault>
    requires first { 1 ≤ n }
    requires numbers { n < 2 ^ 63 }
    ensures exact { Answers (λ none. (gained done.new, block_seen current.new)) result
        (stepped (known_seen known.entry) n (gained done.old) (block_seen current.old) line.now (lines_of ahead.now)) }
{
    if is_open(current) {
        return within(alloc, known, done, n, current, line, ahead);
    }
    let said = read_top(n, line)?;
    *current = start(alloc, done, n, said)?;
    Ok(())
}

// Whether all blocks are closed behind the last line, which line `n` would follow.
fn close(n: usize, current: &Block) -> Result<(), TextFault>
    ensures exact { Judges (λ none. none) result (closed n (block_seen current.now)) }
{
    if is_open(current) {
        return Err(TextFault::Line { n });
    }
    Ok(())
}

// The lines of a text, by these names or by none.
pub(crate) fn read_lines<'a>(
    alloc: Global,
    known: Option<&Names<'_>>,
    text: &'a [u8],
) -> Result<Done<'a>, ScenarioFault>
    requires limit { length text.now ≤ 1048576 }
    ensures exact { Answers gained result (reading (known_seen known.entry) 1 nothing_yet NoBlock (lines_of text.now)) }
{
    let mut done = Done {
        turns: None,
        subreapers: false,
        names: IndexMap::new(alloc),
        filters: Vec::new(alloc),
        programs: Vec::new(alloc),
    };
    let mut current = Block::Nothing;
    let mut n = 0;
    let mut ahead = text;
    let mut lines = Lines(text);
    while let Some(line) = lines.next() {
        n += 1;
        step(alloc, known, &mut done, n, &mut current, line, ahead)?;
        ahead = lines.0;
    }
    close(n + 1, &current)?;
    Ok(done)
}
