//! The arguments of an entry: conditions on a call.
ghost use Rattle.std.specs.Prelude.{◌≡◌, ◌++◌, [], map, IfOk, OnOk};
ghost use Rattle.json.specs.Value.{value_view};
ghost use Rattle.sk_profile_json.specs.Conditions.{wrong_argument, conditions_of};
ghost use Rattle.std.specs.List.{cons_option};
ghost use Rattle.std.specs.Result.{result_ok};
ghost use Rattle.sk_profile_json.specs.Arguments.{condition_of};

use crate::argument::condition;
use crate::fault::Wrong;
use json::Value;
use sk_profile::Condition;
use std::alloc::{AllocError, Global};

/// What is wrong with an argument, and its number from 0.
#[derive(Clone, Copy, Debug, Drop, PartialEq, Eq)]
pub(crate) struct WrongArgument {
    pub place: usize,
    pub wrong: Wrong,
}

/// The first argument that is no condition.
pub(crate) fn wrong_argument(arguments: &[Value<'_>]) -> Option<WrongArgument>
    ensures first { result ≡ wrong_argument 0 (map value_view arguments.now) }
{
    for (place, argument) in arguments.iter().enumerate() {
        if let Err(wrong) = condition(argument) {
            return Some(WrongArgument { place, wrong });
        }
    }
    None
}

/// The conditions that arguments are, without those that are none.
pub(crate) fn conditions_of(
    alloc: Global,
    arguments: &[Value<'_>],
) -> Result<Vec<Condition>, AllocError>
    ensures all { IfOk result (λ conditions. conditions.items ≡ conditions_of (map value_view arguments.now)) }
{
    let mut conditions = Vec::new(alloc);
    for argument in arguments {
        push_condition(&mut conditions, argument)?;
    }
    Ok(conditions)
}

fn push_condition(conditions: &mut Vec<Condition>, argument: &Value<'_>) -> Result<(), AllocError>
    ensures pushed { OnOk result (conditions.new.items ≡ conditions.old.items ++ cons_option (result_ok (condition_of (value_view argument.now))) []) }
{
    if let Ok(condition) = condition(argument) {
        conditions.push(condition)?;
    }
    Ok(())
}
