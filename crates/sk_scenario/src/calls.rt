//! Lines in a program's block.
ghost use Rattle.std.specs.Prelude.{◌≡◌, ◌<◌, ◌≤◌, MatchResult};
ghost use Rattle.sk_scenario.specs.Grammar.{asked_of};
ghost use Rattle.sk_scenario.specs.Scenario.{call_of};
ghost use Rattle.sk_scenario.specs.Reading.{checked, resolved, called};
ghost use Rattle.sk_scenario.specs.declared.text_fault.TextFault.TheVariants.{Limit};
ghost use Rattle.sk_scenario.specs.Answers.{Answers, Judges};
ghost use Rattle.sk_scenario.specs.views.ScenarioCode.{call_seen, line_seen, names_seen, known_seen};

use crate::fault::ScenarioFault;
use crate::line::{CallLine, ProgramLine};
use crate::parse::program_line;
use crate::scenario::Program;
use crate::state::Names;
use crate::top::check_line;
use crate::values::{argument_value, child_of};
use crate::{ScriptCall, TextFault};
use sk_names::Call;

// The most calls that a program may have.
const MOST_CALLS: usize = 1000;

// What line `n` says in a program's block.
#[tactic(auto, unfolding(crate::specs::Reading::checked))]
pub(crate) fn read_call(n: usize, line: &[u8]) -> Result<ProgramLine<'_>, TextFault>
    ensures exact { Judges line_seen result (checked asked_of n line.now) }
{
    check_line(n, line)?;
    match program_line(line) {
        Some(said) => Ok(said),
        None => Err(TextFault::Line { n }),
    }
}

#[inline(always)]
#[tactic(auto, unfolding(crate::specs::Scenario::call_of))]
fn call_of(names: &Names<'_>, line: CallLine<'_>) -> Option<ScriptCall>
    ensures exact { result ≡ call_of (names_seen names.now) (call_seen line.entry) }
{
    let a = argument_value(names, line.arguments.a)?;
    let b = argument_value(names, line.arguments.b)?;
    let c = argument_value(names, line.arguments.c)?;
    let d = argument_value(names, line.arguments.d)?;
    let e = argument_value(names, line.arguments.e)?;
    let f = argument_value(names, line.arguments.f)?;
    let script = child_of(names, line.child)?;
    Some(ScriptCall {
        call: Call {
            nr: line.nr,
            args: [a, b, c, d, e, f],
        },
        script,
    })
}

// Any call, for a line whose names are not known yet.
const ANY: ScriptCall = ScriptCall {
    call: Call {
        nr: 0,
        args: [0; 6],
    },
    script: None,
};

// The call that line `n` asks for.
#[inline(always)]
#[tactic(auto, unfolding(crate::specs::Reading::resolved))]
fn resolve(known: Option<&Names<'_>>, n: usize, line: CallLine<'_>) -> Result<ScriptCall, TextFault>
    ensures exact { Judges (λ made. made) result (resolved (known_seen known.entry) n (call_seen line.entry)) }
{
    match known {
        None => Ok(ANY),
        Some(names) => match call_of(names, line) {
            Some(made) => Ok(made),
            None => Err(TextFault::Unresolved { n }),
        },
    }
}

// Whether line `n` may ask for a call, behind so many calls.
fn judge_count(n: usize, count: usize) -> Result<(), TextFault>
    ensures exact { MatchResult result (λ none. count < 1000) (λ why. (1000 ≤ count) × (why ≡ Limit n)) }
{
    if count >= MOST_CALLS {
        return Err(TextFault::Limit { n });
    }
    Ok(())
}

// Adds the call that line `n` asks for, if it does.
#[inline(always)]
#[tactic(auto, unfolding(crate::specs::Reading::called))]
pub(crate) fn add_call(
    program: &mut Program,
    known: Option<&Names<'_>>,
    n: usize,
    line: ProgramLine<'_>,
) -> Result<(), ScenarioFault>
    ensures exact { Answers (λ none. program.new) result (called (known_seen known.entry) n program.old (line_seen line.entry)) }
{
    match line {
        ProgramLine::Silent => Ok(()),
        ProgramLine::Call(line) => {
            judge_count(n, program.calls.len())?;
            let made = resolve(known, n, line)?;
            program.calls.push(made)?;
            Ok(())
        }
    }
}
