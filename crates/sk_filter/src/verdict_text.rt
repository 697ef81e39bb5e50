//! How a verdict is written: the action, its data, and the name of an error.
ghost use Rattle.std.specs.Prelude.{◌≡◌, ◌++◌, OnOk, string_bytes};
ghost use Rattle.sk_filter.specs.VerdictText.{verdict_text, data_text, error_text};
ghost use Rattle.sk_filter.specs.Errors.{error_named};

use crate::errors::error_name;
use sk_insn::Action;
use std::alloc::AllocError;
use std::fmt::Write;

/// Appends the verdict that a filter's value asks for.
#[tactic(auto, unfolding(crate::specs::VerdictText::verdict_text))]
pub fn push_verdict(text: &mut String, value: u32) -> Result<(), AllocError>
    ensures text { OnOk result (string_bytes text.new ≡ string_bytes text.old ++ verdict_text value) }
{
    let action = Action::of(value);
    text.push_str(action.name())?;
    push_data(text, action, value % 0x1_0000)
}

fn push_data(text: &mut String, action: Action, given: u32) -> Result<(), AllocError>
    ensures text { OnOk result (string_bytes text.new ≡ string_bytes text.old ++ data_text action given) }
{
    match action {
        Action::Errno => {
            write!(text, "/{given}")?;
            push_error(text, given)
        }
        _ if given == 0 => Ok(()),
        _ => write!(text, "/{given}"),
    }
}

fn push_error(text: &mut String, number: u32) -> Result<(), AllocError>
    ensures text { OnOk result (string_bytes text.new ≡ string_bytes text.old ++ error_text (error_named number)) }
{
    match error_name(number) {
        Some(name) => write!(text, " {name}"),
        None => Ok(()),
    }
}
