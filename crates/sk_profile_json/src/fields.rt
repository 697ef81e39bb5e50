//! Fields of an object.
ghost use Rattle.std.specs.Prelude.{◌≡◌, ◌≤◌, map, not, [], IfOk, IfSome};
ghost use Rattle.std.specs.List.{position_from, list_all, list_any};
ghost use Rattle.std.specs.Option.{option_map};
ghost use Rattle.std.specs.Result.{result_map_both};
ghost use Rattle.json.specs.Value.{value_view, members_view};
ghost use Rattle.json.specs.Find.{as_array};
ghost use Rattle.json.specs.Strict.{keys};
ghost use Rattle.sk_profile_json.specs.Fields.{given, is_text, is_the, text_in, number_in, list_in, texts_in, list_of, items_or_none, number_up_to, wrong_keys, wrong_members, is_known};

use crate::fault::{Field, Wrong};
use json::Value;
use sk_text::number_up_to;

/// A field that stands, and is not null.
pub(crate) fn given<'v, 'a>(object: &'v Value<'a>, field: Field) -> Option<&'v Value<'a>>
    ensures given { option_map (λ v. value_view v.now) result ≡ given field (value_view object.now) }
{
    let value = object.get(field.key())?;
    if value.is_null() { None } else { Some(value) }
}

/// A field that is a text.
pub(crate) fn text<'a>(object: &Value<'a>, field: Field) -> Result<Option<&'a str>, Wrong>
    ensures text { result_map_both (λ found. option_map (λ s. s.now) found) (λ e. e) result ≡ text_in field (value_view object.now) }
{
    match given(object, field) {
        None => Ok(None),
        Some(value) => match value.as_str() {
            None => Err(Wrong::NotTaken(field)),
            Some(text) => Ok(Some(text)),
        },
    }
}

/// A field that is a number, at most so large.
pub(crate) fn number(object: &Value<'_>, field: Field, most: u64) -> Result<Option<u64>, Wrong>
    ensures number { result ≡ number_in most field (value_view object.now) }
    ensures bound { IfOk result (λ found. IfSome found (λ n. n ≤ most)) }
{
    match given(object, field) {
        None => Ok(None),
        Some(value) => match number_of(value, most) {
            None => Err(Wrong::NotTaken(field)),
            Some(number) => Ok(Some(number)),
        },
    }
}

/// A field that is a list; one that does not stand has no items.
pub(crate) fn list<'v, 'a>(object: &'v Value<'a>, field: Field) -> Result<&'v [Value<'a>], Wrong>
    ensures list { result_map_both (λ items. map value_view items.now) (λ e. e) result ≡ list_in field (value_view object.now) }
{
    match given(object, field) {
        None => {
            let items: &'v [Value<'a>] = no_items();
            Ok(items)
        }
        Some(value) => match items_of(value) {
            None => Err(Wrong::NotTaken(field)),
            Some(items) => Ok(items),
        },
    }
}

/// No items.
pub(crate) fn no_items<'v, 'a>() -> &'v [Value<'a>]
    ensures none { result.now ≡ [] }
{
    &[]
}

/// A list that was read.
pub(crate) fn items_or_none<'v, 'a>(items: Result<&'v [Value<'a>], Wrong>) -> &'v [Value<'a>]
    ensures items { map value_view result.now ≡ items_or_none (result_map_both (λ items. map value_view items.now) (λ e. e) items.entry) }
{
    match items {
        Ok(items) => items,
        Err(_) => no_items(),
    }
}

/// The items of a value that is a list.
#[tactic(auto, using(crate::proofs::Reading::items_of_array))]
pub(crate) fn items_of<'v, 'a>(value: &'v Value<'a>) -> Option<&'v [Value<'a>]>
    ensures items { option_map (λ items. map value_view items.now) result ≡ option_map list_of (as_array (value_view value.now)) }
{
    if let Value::Array(items) = value {
        Some(items)
    } else {
        None
    }
}

/// Whether a value is a text.
pub(crate) fn is_text(value: &Value<'_>) -> bool
    ensures text { result ≡ is_text (value_view value.now) }
{
    value.as_str().is_some()
}

/// Whether a value is this text.
pub(crate) fn is_the(wanted: &str, value: &Value<'_>) -> bool
    ensures same { result ≡ is_the wanted.now (value_view value.now) }
{
    match value.as_str() {
        None => false,
        Some(text) => text == wanted,
    }
}

/// Whether all of these values are texts.
#[tactic(auto, using(crate::proofs::Reading::all_of_map))]
pub(crate) fn are_texts(values: &[Value<'_>]) -> bool
    ensures texts { result ≡ list_all is_text (map value_view values.now) }
{
    each_is_text(values)
}

fn each_is_text(values: &[Value<'_>]) -> bool
    ensures texts { result ≡ list_all (λ v. is_text (value_view v)) values.now }
{
    values.iter().all(|value| is_text(value))
}

/// A field that is a list of texts.
pub(crate) fn texts<'v, 'a>(object: &'v Value<'a>, field: Field) -> Result<&'v [Value<'a>], Wrong>
    ensures texts { result_map_both (λ items. map value_view items.now) (λ e. e) result ≡ texts_in field (value_view object.now) }
{
    let items = list(object, field)?;
    if are_texts(items) {
        Ok(items)
    } else {
        Err(Wrong::NotTaken(field))
    }
}

/// Whether any of these values is this text.
#[tactic(auto, using(crate::proofs::Reading::any_of_map))]
pub(crate) fn has_text(wanted: &str, values: &[Value<'_>]) -> bool
    ensures any { result ≡ list_any (is_the wanted.now) (map value_view values.now) }
{
    any_is_the(wanted, values)
}

fn any_is_the(wanted: &str, values: &[Value<'_>]) -> bool
    ensures any { result ≡ list_any (λ v. is_the wanted.now (value_view v)) values.now }
{
    values.iter().any(|value| is_the(wanted, value))
}

/// What is wrong with an object by its keys: it may have no others than these.
#[tactic(auto, using(crate::proofs::Reading::wrong_keys_of_object))]
pub(crate) fn wrong_keys(known: &[Field], object: &Value<'_>) -> Option<Wrong>
    ensures wrong { result ≡ wrong_keys known.now (value_view object.now) }
{
    let Value::Object(members) = object else {
        return Some(Wrong::NotAnObject);
    };
    wrong_members(known, members)
}

fn wrong_members(known: &[Field], members: &[(&str, Value<'_>)]) -> Option<Wrong>
    ensures wrong { result ≡ wrong_members known.now (Some (members_view members.now)) }
{
    match other_key(known, members) {
        None => None,
        Some(place) => Some(Wrong::UnknownKey(place)),
    }
}

// The place of the first key that is none of these.
fn other_key(known: &[Field], members: &[(&str, Value<'_>)]) -> Option<usize>
    ensures place { result ≡ position_from (λ key. not (is_known known.now key)) 0 (keys (members_view members.now)) }
{
    for (place, member) in members.iter().enumerate() {
        if !is_known(known, member.0) {
            return Some(place);
        }
    }
    None
}

fn is_known(known: &[Field], key: &str) -> bool
    ensures known { result ≡ is_known known.now key.now }
{
    known.iter().any(|field| field.key() == key)
}

fn number_of(value: &Value<'_>, most: u64) -> Option<u64>
    ensures number { result ≡ number_up_to most (value_view value.now) }
    ensures bound { IfSome result (λ n. n ≤ most) }
{
    number_up_to(value.as_number()?.as_bytes(), most)
}
