//! The profile in what `docker inspect` prints of a container.
ghost use Rattle.std.specs.Prelude.{◌≡◌, fold, map};
ghost use Rattle.std.specs.Option.{option_and_then, option_map};
ghost use Rattle.std.specs.Result.{result_map_both};
ghost use Rattle.json.specs.Find.{as_str};
ghost use Rattle.json.specs.Value.{value_view};
ghost use Rattle.sk_profile_json.specs.Inspected.{behind, container_of, key_in, only_of, options_of, said_last, seccomp_in, text_inside, text_said};

use crate::fault::{Absence, Field};
use crate::fields::{given, items_of, items_or_none, list};
use json::Value;

/// The text of the profile that docker was given for a container, or why it was given none; nothing where the document is not what `docker inspect` prints
/// of one container.
pub(crate) fn text_inside<'a>(document: &Value<'a>) -> Option<Result<&'a str, Absence>>
    ensures text { option_map (λ told. result_map_both (λ text. text.now) (λ why. why) told) result ≡ text_inside (value_view document.now) }
{
    let options = options_of(document)?;
    Some(text_said(said_last(options)))
}

fn options_of<'v, 'a>(document: &'v Value<'a>) -> Option<&'v [Value<'a>]>
    ensures options { option_map (λ items. map value_view items.now) result ≡ options_of (value_view document.now) }
{
    let settings = given(container_of(document)?, Field::HostConfig)?;
    Some(items_or_none(list(settings, Field::SecurityOpt)))
}

fn container_of<'v, 'a>(document: &'v Value<'a>) -> Option<&'v Value<'a>>
    ensures container { option_map (λ v. value_view v.now) result ≡ container_of (value_view document.now) }
{
    only_of(items_of(document)?)
}

fn only_of<'v, 'a>(items: &'v [Value<'a>]) -> Option<&'v Value<'a>>
    ensures only { option_map (λ v. value_view v.now) result ≡ only_of (map value_view items.now) }
{
    match items {
        [item] => Some(item),
        _ => None,
    }
}

// What the last option that says something of seccomp says.
fn said_last<'a>(options: &[Value<'a>]) -> &'a str
    ensures last { result.now ≡ said_last (map value_view options.now) }
{
    let mut said = "";
    for option in options {
        said = said_by(option).unwrap_or(said);
    }
    said
}

fn said_by<'a>(option: &Value<'a>) -> Option<&'a str>
    ensures said { option_map (λ said. said.now) result ≡ option_and_then seccomp_in (as_str (value_view option.now)) }
{
    seccomp_in(option.as_str()?)
}

fn seccomp_in(option: &str) -> Option<&str>
    ensures said { option_map (λ said. said.now) result ≡ seccomp_in option.now }
{
    behind(key_in(option), option)
}

fn behind<'a>(start: &str, word: &'a str) -> Option<&'a str>
    ensures behind { option_map (λ rest. rest.now) result ≡ behind start.now word.now }
{
    word.strip_prefix(start)
}

fn key_in(option: &str) -> &'static str
    ensures key { result.now ≡ key_in option.now }
{
    if option.as_bytes().contains(&b'=') {
        "seccomp="
    } else {
        "seccomp:"
    }
}

fn text_said(said: &str) -> Result<&str, Absence>
    ensures text { result_map_both (λ text. text.now) (λ why. why) result ≡ text_said said.now }
{
    if said.is_empty() {
        Err(Absence::Unsaid)
    } else if said == "builtin" {
        Err(Absence::Builtin)
    } else if said == "unconfined" {
        Err(Absence::Unconfined)
    } else {
        Ok(said)
    }
}
