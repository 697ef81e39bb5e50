//! The scenario reader.
ghost use Rattle.std.specs.Prelude.{◌≡◌, ◌<◌, ◌≤◌, length, IfOk, IfErr, MatchResult, Some};
ghost use Rattle.sk_text.specs.Lines.{lines_of};
ghost use Rattle.sk_scenario.specs.Reading.{reading, scenario, scenario_of, nothing_yet, setting, Nothing as NoBlock};
ghost use Rattle.sk_scenario.specs.Scenario.{IsScenarioText, Setting};
ghost use Rattle.sk_scenario.specs.Faults.{IsFirstFaultOfText};
ghost use Rattle.sk_scenario.specs.declared.text_fault.TextFault.{TextFault};
ghost use Rattle.sk_scenario.specs.declared.text_fault.TextFault.TheVariants.{Limit};
ghost use Rattle.sk_scenario.specs.Answers.{Answers, Finds, IsToldOf, Tells};
ghost use Rattle.sk_scenario.specs.views.ScenarioCode.{gained, names_seen};

use crate::TextFault;
use crate::fault::ScenarioFault;
use crate::reading::read_lines;
use crate::scenario::Scenario;
use crate::state::{Done, Names};
use sk_text::MOST_BYTES;
use std::alloc::Global;

/// The scenario that an input is, or the first of its faults.
#[tactic(auto, unfolding(crate::specs::Reading::scenario))]
pub fn read(alloc: Global, input: &[u8]) -> Result<Scenario, ScenarioFault>
    ensures exact { Answers (λ read. read) result (scenario input.now) }
    ensures stands { IfOk result (λ read. IsScenarioText input.now read) }
    ensures first { IfErr result (IsToldOf input.now) }
    ensures only { (setting : Setting) → IsScenarioText input.now setting → Finds (λ read. read) result setting }
    ensures told { (why : TextFault) → IsFirstFaultOfText input.now why → Tells result why }
{
    judge_length(input)?;
    read_twice(alloc, input)
}

fn judge_length(input: &[u8]) -> Result<(), TextFault>
    ensures exact { MatchResult result (λ none. length input.now ≤ 1048576) (λ why. (1048576 < length input.now) × (why ≡ Limit 0)) }
{
    if input.len() > MOST_BYTES {
        return Err(TextFault::Limit { n: 0 });
    }
    Ok(())
}

// A first reading finds the names, and a second one knows them.
#[tactic(auto, unfolding(crate::specs::Reading::scenario_of))]
fn read_twice(alloc: Global, text: &[u8]) -> Result<Scenario, ScenarioFault>
    requires limit { length text.now ≤ 1048576 }
    ensures exact { Answers (λ read. read) result (scenario_of (lines_of text.now)) }
{
    let unknown: Option<&Names<'_>> = None;
    let names = read_lines(alloc, unknown, text)?.names;
    let second = read_again(alloc, &names, text)?;
    Ok(setting(second))
}

// The scenario that was read.
fn setting(read: Done<'_>) -> Scenario
    ensures exact { result ≡ setting (gained read.entry) }
{
    Scenario {
        turns: read.turns.unwrap_or(1000),
        subreapers: read.subreapers,
        filters: read.filters,
        programs: read.programs,
    }
}

// The lines of a text, by these names.
fn read_again<'a>(
    alloc: Global,
    names: &Names<'_>,
    text: &'a [u8],
) -> Result<Done<'a>, ScenarioFault>
    requires limit { length text.now ≤ 1048576 }
    ensures exact { Answers gained result (reading (Some (names_seen names.now)) 1 nothing_yet NoBlock (lines_of text.now)) }
{
    read_lines(alloc, Some(names), text)
}
