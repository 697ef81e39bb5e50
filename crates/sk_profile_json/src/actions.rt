//! Actions by name, and the values that a filter answers for them.
ghost use Rattle.std.specs.Prelude.{◌≡◌, ◌≤◌, IfSome};
ghost use Rattle.std.specs.Option.{option_map};
ghost use Rattle.json.specs.Value.{value_view};
ghost use Rattle.sk_profile_json.specs.Actions.{action_named, takes_number, value_with, greatest_number, action_in, value_in, agree};
ghost use Rattle.sk_insn.specs.Actions.{has_value};
ghost use Rattle.sk_filter.specs.Errors.{error_number};

use crate::fault::{Field, Wrong};
use crate::fields::{number, text};
use json::Value;
use sk_filter::error_number;
use sk_insn::Action;

/// The error that stands where a profile gives none: EPERM.
const EPERM: u64 = 1;

/// The action with a name of the OCI runtime specification.
pub(crate) fn action_named(name: &str) -> Option<Action>
    ensures named { result ≡ action_named name.now }
{
    match name {
        "SCMP_ACT_KILL" | "SCMP_ACT_KILL_THREAD" => Some(Action::KillThread),
        "SCMP_ACT_KILL_PROCESS" => Some(Action::KillProcess),
        "SCMP_ACT_TRAP" => Some(Action::Trap),
        "SCMP_ACT_ERRNO" => Some(Action::Errno),
        "SCMP_ACT_TRACE" => Some(Action::Trace),
        "SCMP_ACT_LOG" => Some(Action::Log),
        "SCMP_ACT_NOTIFY" => Some(Action::UserNotif),
        "SCMP_ACT_ALLOW" => Some(Action::Allow),
        _ => None,
    }
}

/// Whether an action gives an error's number on.
pub(crate) fn takes_number(action: Action) -> bool
    ensures takes { result ≡ takes_number action }
{
    matches!(action, Action::Errno | Action::Trace)
}

// The greatest number that libseccomp takes beside an action.
fn greatest_number(action: Action) -> u64
    ensures greatest { result ≡ greatest_number action }
    ensures small { result ≤ 65535 }
{
    match action {
        Action::Trace => 65535,
        _ => 4094,
    }
}

/// The value that a filter answers for an action, with the number of an error if it has one.
pub(crate) fn value_with(action: Action, number: Option<u64>) -> u32
    requires small { IfSome number (λ n. n ≤ greatest_number action) }
    ensures value { result ≡ value_with action number }
{
    let data = if takes_number(action) {
        number.unwrap_or(EPERM)
    } else {
        0
    };
    action.value().unwrap_or(0) + data as u32
}

/// The action in a field.
pub(crate) fn action(object: &Value<'_>, field: Field) -> Result<Action, Wrong>
    ensures action { result ≡ action_in field (value_view object.now) }
{
    let name = text(object, field)?.ok_or(Wrong::Missing(field))?;
    action_named(name).ok_or(Wrong::NotTaken(field))
}

/// The value for an action, with the number and the name of its error in these fields.
pub(crate) fn value(
    object: &Value<'_>,
    action: Action,
    errno_ret: Field,
    errno: Field,
) -> Result<u32, Wrong>
    ensures value { result ≡ value_in errno_ret errno action (value_view object.now) }
{
    let given = number(object, errno_ret, greatest_number(action))?;
    let name = text(object, errno)?;
    if given.is_some() && !takes_number(action) {
        return Err(Wrong::Contradicts(errno_ret));
    }
    if !agree(given, name) {
        return Err(Wrong::Contradicts(errno));
    }
    Ok(value_with(action, given))
}

// Whether an error's name is that of its number.
fn agree(given: Option<u64>, name: Option<&str>) -> bool
    requires small { IfSome given (λ n. n ≤ 65535) }
    ensures agree { result ≡ agree given (option_map (λ s. s.now) name.entry) }
{
    match (given, name) {
        (_, None) => true,
        (None, Some(_)) => false,
        (Some(number), Some(name)) => has_number(name, number as u32),
    }
}

fn has_number(name: &str, number: u32) -> bool
    ensures number { result ≡ has_value number (error_number name.now) }
{
    match error_number(name.as_bytes()) {
        Some(known) => known == number,
        None => false,
    }
}
