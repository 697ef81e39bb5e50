//! Lines at the top level.
ghost use Rattle.std.specs.Prelude.{◌≡◌, ◌<◌, false, is_some, MatchResult, Err};
ghost use Rattle.std.specs.Option.{option_map_or};
ghost use Rattle.sk_text.specs.Numbers.{number_of};
ghost use Rattle.sk_scenario.specs.Grammar.{Turns, Subreapers, heading_of};
ghost use Rattle.sk_scenario.specs.Reading.{plain, checked, remarked, given, opened, started};
ghost use Rattle.sk_scenario.specs.Scenario.{named_by};
ghost use Rattle.sk_scenario.specs.declared.call.Named.{Named};
ghost use Rattle.sk_scenario.specs.Answers.{Answers, Judges};
ghost use Rattle.sk_scenario.specs.views.ScenarioCode.{heading, gained, block_seen, numbered};

use crate::fault::ScenarioFault;
use crate::line::TopLine;
use crate::parse::top_line;
use crate::scenario::Program;
use crate::state::{Block, Done};
use crate::{Named, TextFault};
use sk_text::{is_printable, number_up_to};
use std::alloc::Global;

// The most bytes that a line may have.
const LONGEST_LINE: usize = 255;

// The most turns that a scenario may have.
const MOST_TURNS: u64 = 100_000;

// The most filters, and the most programs, that a scenario may have.
const MOST_OF_A_KIND: usize = 256;

// Whether line `n` is short enough and printable.
pub(crate) fn check_line(n: usize, line: &[u8]) -> Result<(), TextFault>
    ensures exact { Judges (λ none. none) result (plain n line.now) }
{
    if line.len() > LONGEST_LINE {
        return Err(TextFault::Limit { n });
    }
    if is_printable(line) {
        Ok(())
    } else {
        Err(TextFault::Line { n })
    }
}

// What line `n` says at the top level.
#[tactic(auto, unfolding(crate::specs::Reading::checked))]
pub(crate) fn read_top(n: usize, line: &[u8]) -> Result<TopLine<'_>, TextFault>
    ensures exact { Judges heading result (checked heading_of n line.now) }
{
    check_line(n, line)?;
    match top_line(line) {
        Some(said) => Ok(said),
        None => Err(TextFault::Line { n }),
    }
}

#[tactic(auto, unfolding(crate::specs::Reading::remarked))]
fn set_turns(done: &mut Done<'_>, n: usize, word: &[u8]) -> Result<(), TextFault>
    ensures exact { Judges (λ none. gained done.new) result (remarked n (gained done.old) (Turns (option_map_or (λ n. n) (number_of word.now) 0))) }
{
    if done.turns.is_some() {
        return Err(TextFault::Line { n });
    }
    let Some(turns) = number_up_to(word, MOST_TURNS) else {
        return Err(TextFault::Limit { n });
    };
    if turns == 0 {
        return Err(TextFault::Limit { n });
    }
    done.turns = Some(turns as u32);
    Ok(())
}

#[tactic(auto, unfolding(crate::specs::Reading::remarked))]
fn set_subreapers(done: &mut Done<'_>, n: usize) -> Result<(), TextFault>
    ensures exact { Judges (λ none. gained done.new) result (remarked n (gained done.old) Subreapers) }
{
    if done.subreapers {
        return Err(TextFault::Line { n });
    }
    done.subreapers = true;
    Ok(())
}

// Whether line `n` may give the name, where there are so many of its kind.
fn judge_name(done: &Done<'_>, n: usize, name: &[u8], count: usize) -> Result<(), TextFault>
    ensures exact { MatchResult result
        (λ none. (is_some (named_by (gained done.now).names name.now) ≡ false) × (count < 256))
        (λ why. (what : Named) → given n (gained done.now) name.now what count ≡ Err why) }
{
    if done.names.contains_key(name) {
        return Err(TextFault::Line { n });
    }
    if count >= MOST_OF_A_KIND {
        return Err(TextFault::Limit { n });
    }
    Ok(())
}

// Gives a name, where there are so many of its kind.
fn give<'a>(
    done: &mut Done<'a>,
    n: usize,
    name: &'a [u8],
    is_program: bool,
    count: usize,
) -> Result<(), ScenarioFault>
    ensures exact { Answers (λ none. gained done.new) result (given n (gained done.old) name.now (numbered is_program count) count) }
{
    judge_name(done, n, name, count)?;
    done.names.insert(name, numbered(is_program, count as u32))?;
    Ok(())
}

fn numbered(is_program: bool, number: u32) -> Named
    ensures exact { result ≡ numbered is_program number }
{
    if is_program {
        Named::Program(number)
    } else {
        Named::Filter(number)
    }
}

// What line `n` changes, and the block that it opens.
#[tactic(auto, unfolding(crate::specs::Reading::started, crate::specs::Reading::opened))]
pub(crate) fn start<'a>(
    alloc: Global,
    done: &mut Done<'a>,
    n: usize,
    line: TopLine<'a>,
) -> Result<Block, ScenarioFault>
    ensures exact { Answers (λ next. (gained done.new, block_seen next)) result (started n (gained done.old) (heading line.entry)) }
{
    match line {
        TopLine::Silent => Ok(Block::Nothing),
        TopLine::Turns(word) => {
            set_turns(done, n, word)?;
            Ok(Block::Nothing)
        }
        TopLine::Subreapers => {
            set_subreapers(done, n)?;
            Ok(Block::Nothing)
        }
        TopLine::Filter(name) => {
            let count = done.filters.len();
            give(done, n, name, false, count)?;
            Ok(Block::Undecided)
        }
        TopLine::Program(name, owner, setuid) => {
            let count = done.programs.len();
            give(done, n, name, true, count)?;
            Ok(Block::Calls(Program {
                owner,
                setuid,
                calls: Vec::new(alloc),
            }))
        }
    }
}
