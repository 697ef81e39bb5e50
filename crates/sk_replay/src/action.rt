//! The action that a record of the kernel tells, as a text.
ghost use Rattle.std.specs.Prelude.{◌≡◌, ◌++◌, OnOk, codes, string_bytes};
ghost use Rattle.sk_replay.specs.Replaying.{action_text, logged_name, logged_text};

use crate::call::Call;
use crate::text::push_number;
use sk_insn::Action;
use std::alloc::AllocError;

/// Appends what a record of the kernel tells of a call behind the verdict on it, as ` (logged: kill_process)`.
pub fn push_logged(text: &mut String, call: &Call) -> Result<(), AllocError>
    ensures text { OnOk result (string_bytes text.new ≡ string_bytes text.old ++ logged_text call.now.logged) }
{
    match call.logged {
        Some(value) => push_between(text, value),
        None => Ok(()),
    }
}

fn push_between(text: &mut String, value: u32) -> Result<(), AllocError>
    ensures text { OnOk result (string_bytes text.new ≡
        string_bytes text.old ++ (codes " (logged: " ++ (logged_name value ++ codes ")"))) }
{
    text.push_str(" (logged: ")?;
    push_logged_name(text, value)?;
    text.push_str(")")
}

/// Appends the name of the action of a value, without its data, or the number of one that has no name.
#[tactic(auto, unfolding(crate::specs::Replaying::logged_name))]
pub fn push_logged_name(text: &mut String, value: u32) -> Result<(), AllocError>
    ensures text { OnOk result (string_bytes text.new ≡ string_bytes text.old ++ logged_name value) }
{
    push_action(text, Action::of(value), value)
}

fn push_action(text: &mut String, action: Action, value: u32) -> Result<(), AllocError>
    ensures text { OnOk result (string_bytes text.new ≡ string_bytes text.old ++ action_text action value) }
{
    match action {
        Action::Unknown => push_number(text, u64::from(value)),
        _ => text.push_str(action.name()),
    }
}
