//! One entry of a profile: which calls it is for, and what it answers.
ghost use Rattle.std.specs.Prelude.{◌≡◌, [], map};
ghost use Rattle.std.specs.Option.{option_map};
ghost use Rattle.std.specs.Result.{result_map_both};
ghost use Rattle.json.specs.Value.{value_view};
ghost use Rattle.sk_profile_json.specs.Entries.{names_in, names_or, entry_value, value_unless_told, is_told, entry_of, entry_with};
ghost use Rattle.sk_profile_json.specs.EntryViews.{entry_view};

use crate::actions::{action, value};
use crate::fault::{Field, Wrong};
use crate::fields::{are_texts, given, has_text, is_text, list, wrong_keys};
use json::Value;
use sk_insn::Action;

/// The fields that an entry may have.
const FIELDS: [Field; 9] = [
    Field::Names,
    Field::Name,
    Field::Action,
    Field::ErrnoRet,
    Field::Errno,
    Field::Args,
    Field::Comment,
    Field::Includes,
    Field::Excludes,
];

/// The names that an entry is for, the value that it answers, and its arguments.
#[derive(Clone, Copy, Debug, Drop)]
pub(crate) struct Entry<'v, 'a> {
    pub names: &'v [Value<'a>],
    pub value: u32,
    pub arguments: &'v [Value<'a>],
}

/// What an entry says, but for what is wrong with its arguments.
pub(crate) fn entry_of<'v, 'a>(entry: &'v Value<'a>) -> Result<Entry<'v, 'a>, Wrong>
    ensures entry { result_map_both entry_view (λ e. e) result ≡ entry_of (value_view entry.now) }
{
    if let Some(wrong) = wrong_keys(&FIELDS, entry) {
        return Err(wrong);
    }
    let names = names(entry)?;
    let value = entry_value(names, entry)?;
    let arguments = list(entry, Field::Args)?;
    Ok(Entry {
        names,
        value,
        arguments,
    })
}

/// The names that an entry is for.
pub(crate) fn names<'v, 'a>(entry: &'v Value<'a>) -> Result<&'v [Value<'a>], Wrong>
    ensures names { result_map_both (λ names. map value_view names.now) (λ e. e) result ≡ names_in (value_view entry.now) }
{
    let items = list(entry, Field::Names)?;
    names_or(items, given(entry, Field::Name))
}

fn names_or<'v, 'a>(
    items: &'v [Value<'a>],
    name: Option<&'v Value<'a>>,
) -> Result<&'v [Value<'a>], Wrong>
    ensures names { result_map_both (λ names. map value_view names.now) (λ e. e) result ≡ names_or (map value_view items.now) (option_map (λ v. value_view v.now) name.entry) }
{
    match name {
        None if items.is_empty() => Err(Wrong::Missing(Field::Names)),
        None if are_texts(items) => Ok(items),
        None => Err(Wrong::NotTaken(Field::Names)),
        Some(name) if items.is_empty() => one_name(name),
        Some(_) => Err(Wrong::Contradicts(Field::Name)),
    }
}

fn one_name<'v, 'a>(name: &'v Value<'a>) -> Result<&'v [Value<'a>], Wrong>
    ensures names { result_map_both (λ names. map value_view names.now) (λ e. e) result ≡ names_or [] (Some (value_view name.now)) }
{
    if is_text(name) {
        let names: &'v [Value<'a>] = std::slice::from_ref(name);
        Ok(names)
    } else {
        Err(Wrong::NotTaken(Field::Name))
    }
}

fn entry_value(names: &[Value<'_>], entry: &Value<'_>) -> Result<u32, Wrong>
    ensures value { result ≡ entry_value (map value_view names.now) (value_view entry.now) }
{
    let action = action(entry, Field::Action)?;
    if is_told(action) && has_text("write", names) {
        return Err(Wrong::Contradicts(Field::Action));
    }
    value(entry, action, Field::ErrnoRet, Field::Errno)
}

/// Whether who listens is told of calls with an action.
pub(crate) fn is_told(action: Action) -> bool
    ensures told { result ≡ is_told action }
{
    matches!(action, Action::UserNotif)
}
