//! Conditions on calls in documents.
ghost use Rattle.std.specs.Prelude.{◌≡◌, ◌++◌, flat_map, OnOk};
ghost use Rattle.sk_document.specs.Terms.{argument_at, choice, choices, condition, condition_at, meeting, no_condition, term};

use crate::call::add_hexadecimal_at;
use crate::document::Document;
use sk_terms::{Choice, Line, Register, Term, push_condition};
use sk_when::Calls;
use std::alloc::AllocError;
use std::fmt::Write;

/// Adds the condition that calls meet, where it is not every call.
pub fn add_meeting(
    to: &mut Document,
    constants: Option<u32>,
    calls: &Calls,
) -> Result<(), AllocError>
    ensures added { OnOk result (to.new ≡ to.old ++ meeting constants calls.now) }
{
    match calls {
        Calls::Every => add_no_condition(to),
        Calls::Meeting(line) => add_condition(to, constants, line),
    }
}

#[tactic(auto, unfolding(crate::specs::Terms::no_condition))]
fn add_no_condition(to: &mut Document) -> Result<(), AllocError>
    ensures added { OnOk result (to.new ≡ to.old ++ no_condition) }
{
    to.at("choices")?;
    to.null()?;
    to.at("condition")?;
    to.null()
}

/// Adds the condition of a line, with the constants of a call where one is given by its number on x86-64.
#[tactic(auto, unfolding(crate::specs::Terms::condition))]
pub fn add_condition(
    to: &mut Document,
    constants: Option<u32>,
    line: &Line,
) -> Result<(), AllocError>
    ensures added { OnOk result (to.new ≡ to.old ++ condition constants line.now) }
{
    to.at("choices")?;
    to.begin_array()?;
    add_choices(to, &line.choices)?;
    to.end_array()?;
    add_condition_at(to, constants, line)
}

#[tactic(auto, unfolding(crate::specs::Terms::condition_at))]
fn add_condition_at(
    to: &mut Document,
    constants: Option<u32>,
    line: &Line,
) -> Result<(), AllocError>
    ensures added { OnOk result (to.new ≡ to.old ++ condition_at constants line.now) }
{
    let mut text = to.text();
    push_condition(&mut text, constants, line)?;
    to.string_at("condition", text.as_str())
}

fn add_choices(to: &mut Document, choices: &[Choice]) -> Result<(), AllocError>
    ensures added { OnOk result (to.new ≡ to.old ++ flat_map choice choices.now) }
{
    for choice in choices {
        add_choice(to, choice)?;
    }
    Ok(())
}

fn add_choice(to: &mut Document, it: &Choice) -> Result<(), AllocError>
    ensures added { OnOk result (to.new ≡ to.old ++ choice it.now) }
{
    to.begin_array()?;
    add_terms(to, &it.terms)?;
    to.end_array()
}

fn add_terms(to: &mut Document, terms: &[Term]) -> Result<(), AllocError>
    ensures added { OnOk result (to.new ≡ to.old ++ flat_map term terms.now) }
{
    for term in terms {
        add_term(to, *term)?;
    }
    Ok(())
}

#[tactic(auto, unfolding(crate::specs::Terms::term))]
fn add_term(to: &mut Document, it: Term) -> Result<(), AllocError>
    ensures added { OnOk result (to.new ≡ to.old ++ term it) }
{
    to.begin_object()?;
    add_argument(to, it.register)?;
    add_hexadecimal_at(to, "mask", it.mask)?;
    add_hexadecimal_at(to, "from", it.first)?;
    add_hexadecimal_at(to, "to", it.last)?;
    to.boolean_at("inside", it.inside)?;
    to.end_object()
}

#[tactic(auto, unfolding(crate::specs::Terms::argument_at))]
fn add_argument(to: &mut Document, register: Register) -> Result<(), AllocError>
    ensures added { OnOk result (to.new ≡ to.old ++ argument_at register) }
{
    match register {
        Register::Number => to.string_at("argument", "nr"),
        Register::Pointer => to.string_at("argument", "ip"),
        Register::Argument(i) => {
            let mut text = to.text();
            write!(text, "args[{i}]")?;
            to.string_at("argument", text.as_str())
        }
    }
}
