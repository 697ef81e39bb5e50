//! What the names in a program's lines stand for.
ghost use Rattle.std.specs.Prelude.{◌≡◌};
ghost use Rattle.std.specs.Option.{option_map};
ghost use Rattle.sk_scenario.specs.Scenario.{argument_value, child_of, named_by, program_number, number_of as number_of_named};
ghost use Rattle.sk_scenario.specs.views.ScenarioCode.{argument_seen, names_seen};

use crate::Named;
use crate::line::Argument;
use crate::state::Names;

fn named_by(names: &Names<'_>, name: &[u8]) -> Option<Named>
    ensures exact { result ≡ named_by (names_seen names.now) name.now }
{
    names.get(name).copied()
}

fn program_number(what: Named) -> Option<u32>
    ensures exact { result ≡ program_number what }
{
    match what {
        Named::Filter(_) => None,
        Named::Program(number) => Some(number),
    }
}

fn number_of(what: Named) -> u32
    ensures exact { result ≡ number_of_named what }
{
    match what {
        Named::Filter(number) | Named::Program(number) => number,
    }
}

pub(crate) fn argument_value(names: &Names<'_>, argument: Argument<'_>) -> Option<u64>
    ensures exact { result ≡ argument_value (names_seen names.now) (argument_seen argument.entry) }
{
    match argument {
        Argument::Plain(value) => Some(value),
        Argument::NumberOf(name) => {
            let what = named_by(names, name)?;
            Some(u64::from(number_of(what)))
        }
        Argument::HandlerOf(name) => {
            let what = named_by(names, name)?;
            let number = program_number(what)?;
            Some(u64::from(number) + 2)
        }
    }
}

pub(crate) fn child_of(names: &Names<'_>, child: Option<&[u8]>) -> Option<Option<u32>>
    ensures exact { result ≡ child_of (names_seen names.now) (option_map (λ name. name.now) child.entry) }
{
    match child {
        None => Some(None),
        Some(name) => {
            let what = named_by(names, name)?;
            let number = program_number(what)?;
            Some(Some(number))
        }
    }
}
