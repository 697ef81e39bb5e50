//! One argument of an entry: a condition on a call.
ghost use Rattle.std.specs.Prelude.{◌≡◌, ◌≤◌};
ghost use Rattle.json.specs.Value.{value_view};
ghost use Rattle.sk_profile_json.specs.Arguments.{condition_of, comparison_in, operator_in, condition_with, test_named, greatest_index};

use crate::fault::{Field, Wrong};
use crate::fields::{number, text, wrong_keys};
use json::Value;
use sk_profile::{Condition, Test};

/// The fields that an argument may have.
const FIELDS: [Field; 4] = [Field::Index, Field::Value, Field::ValueTwo, Field::Op];

/// The last of a call's six arguments.
const GREATEST_INDEX: u64 = 5;

/// The condition that one of `args` is, or what is wrong with it.
pub(crate) fn condition(argument: &Value<'_>) -> Result<Condition, Wrong>
    ensures condition { result ≡ condition_of (value_view argument.now) }
{
    if let Some(wrong) = wrong_keys(&FIELDS, argument) {
        return Err(wrong);
    }
    let index = number(argument, Field::Index, GREATEST_INDEX)?.ok_or(Wrong::Missing(
        Field::Index,
    ))?;
    comparison(index as u8, argument)
}

fn comparison(index: u8, argument: &Value<'_>) -> Result<Condition, Wrong>
    ensures condition { result ≡ comparison_in index (value_view argument.now) }
{
    let value = number(argument, Field::Value, u64::MAX)?.ok_or(Wrong::Missing(Field::Value))?;
    let two = number(argument, Field::ValueTwo, u64::MAX)?.unwrap_or(0);
    let test = operator(value, argument)?;
    condition_with(index, value, two, test)
}

fn operator(value: u64, argument: &Value<'_>) -> Result<Test, Wrong>
    ensures test { result ≡ operator_in value (value_view argument.now) }
{
    let name = text(argument, Field::Op)?.ok_or(Wrong::Missing(Field::Op))?;
    test_named(name, value).ok_or(Wrong::NotTaken(Field::Op))
}

fn condition_with(index: u8, value: u64, two: u64, test: Test) -> Result<Condition, Wrong>
    ensures condition { result ≡ condition_with index value two test }
{
    match test {
        Test::Masked(mask) if two & mask == two => Ok(Condition {
            index,
            test,
            value: two,
        }),
        Test::Masked(_) => Err(Wrong::Contradicts(Field::ValueTwo)),
        _ if two == 0 => Ok(Condition { index, test, value }),
        _ => Err(Wrong::Contradicts(Field::ValueTwo)),
    }
}

/// The operator with a name of the OCI runtime specification, where `value` is this.
pub(crate) fn test_named(name: &str, value: u64) -> Option<Test>
    ensures named { result ≡ test_named name.now value }
{
    match name {
        "SCMP_CMP_NE" => Some(Test::IsNot),
        "SCMP_CMP_LT" => Some(Test::Below),
        "SCMP_CMP_LE" => Some(Test::AtMost),
        "SCMP_CMP_EQ" => Some(Test::Is),
        "SCMP_CMP_GE" => Some(Test::AtLeast),
        "SCMP_CMP_GT" => Some(Test::Above),
        "SCMP_CMP_MASKED_EQ" => Some(Test::Masked(value)),
        _ => None,
    }
}
