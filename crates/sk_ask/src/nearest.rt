//! The name that may be meant by a word that is none, and the line that says so.
ghost use Rattle.std.specs.Prelude.{◌≡◌, if◌then◌else◌, Some, IfOk, map};
ghost use Rattle.std.specs.List.{filter_map};
ghost use Rattle.std.specs.Option.{option_map};
ghost use Rattle.sk_names.specs.Names.{name_on};
ghost use Rattle.sk_names.specs.Architectures.{text_of};
ghost use Rattle.sk_profile_json.specs.Machines.{own_of};
ghost use Rattle.sk_ask.specs.Nearest.{architecture_names, call_names, capability_names, distance, machine_names, meant_text, nearer_than, nearest, no_call_named, of_unknown};

use crate::complaint::shown;
use crate::other_names::bare_name;
use sk_names::{Architecture, name, numbers};
use sk_profile_json::{Machine, capability};
use std::alloc::{AllocError, Global};
use strsim::generic_damerau_levenshtein;

/// A longer word means no name.
const MOST_LETTERS: usize = 64;

/// Where the names of words, architectures and machines stand.
pub const SEE_HELP: &str = "; see ask --help";

/// Where those of capabilities stand.
pub const SEE_CAPABILITIES: &str = "; see capabilities(7)";

/// The line that says what is wrong, with the word that names nothing, and the name that may be meant by what is sought of it, or
/// else where the names stand.
pub(crate) fn of_unknown(
    alloc: Global,
    what: &str,
    word: &[u8],
    sought: &[u8],
    names: &[&'static str],
    elsewhere: &str,
) -> Result<Vec<u8>, AllocError>
    ensures line { IfOk result (λ line.
        line.items ≡ of_unknown what.now word.now sought.now (map (λ name. name.now) names.now) elsewhere.now) }
{
    let meant = nearest(alloc, sought, names)?;
    let mut line = Vec::new(alloc);
    line.extend_from_slice(b"ask: ")?;
    line.extend_from_slice(what.as_bytes())?;
    line.extend_from_slice(&shown(alloc, word)?)?;
    line.extend_from_slice(&meant_text(alloc, elsewhere, meant)?)?;
    line.extend_from_slice(b"\n")?;
    Ok(line)
}

fn meant_text(alloc: Global, elsewhere: &str, meant: Option<&str>) -> Result<Vec<u8>, AllocError>
    ensures text { IfOk result (λ text. text.items ≡ meant_text elsewhere.now (option_map (λ name. name.now) meant.entry)) }
{
    let mut text = Vec::new(alloc);
    match meant {
        Some(name) => {
            text.extend_from_slice(b": did you mean ")?;
            text.extend_from_slice(name.as_bytes())?;
            text.extend_from_slice(b"?")?;
        }
        None => text.extend_from_slice(elsewhere.as_bytes())?,
    }
    Ok(text)
}

/// The line that says that a word names no call of an architecture.
pub(crate) fn no_call_named(
    alloc: Global,
    architecture: Architecture,
    word: &[u8],
) -> Result<Vec<u8>, AllocError>
    ensures line { IfOk result (λ line. line.items ≡ no_call_named architecture word.now) }
{
    let names = call_names(alloc, architecture)?;
    of_unknown(
        alloc,
        "no call is named ",
        word,
        bare_name(word),
        &names,
        "",
    )
}

fn call_names(alloc: Global, architecture: Architecture) -> Result<Vec<&'static str>, AllocError>
    ensures names { IfOk result (λ names. map (λ name. name.now) names.items ≡ call_names architecture) }
{
    names_of(alloc, architecture, &numbers(alloc, architecture)?)
}

fn names_of(
    alloc: Global,
    architecture: Architecture,
    numbers: &[u32],
) -> Result<Vec<&'static str>, AllocError>
    ensures names { IfOk result (λ names. map (λ name. name.now) names.items ≡ filter_map (name_on architecture) numbers.now) }
{
    let mut names = Vec::new(alloc);
    for number in numbers {
        if let Some(name) = name(architecture, *number) {
            names.push(name)?;
        }
    }
    Ok(names)
}

/// The names of all architectures.
pub(crate) fn architecture_names(alloc: Global) -> Result<Vec<&'static str>, AllocError>
    ensures names { IfOk result (λ names. map (λ name. name.now) names.items ≡ architecture_names) }
{
    texts_of(alloc, &Architecture::ALL)
}

fn texts_of(alloc: Global, all: &[Architecture]) -> Result<Vec<&'static str>, AllocError>
    ensures names { IfOk result (λ names. map (λ name. name.now) names.items ≡ map text_of all.now) }
{
    let mut names = Vec::new(alloc);
    for architecture in all {
        names.push(architecture.text())?;
    }
    Ok(names)
}

/// The names of all machines that filters of profiles are made for.
pub(crate) fn machine_names(alloc: Global) -> Result<Vec<&'static str>, AllocError>
    ensures names { IfOk result (λ names. map (λ name. name.now) names.items ≡ machine_names) }
{
    own_texts_of(alloc, &Machine::ALL)
}

fn own_texts_of(alloc: Global, all: &[Machine]) -> Result<Vec<&'static str>, AllocError>
    ensures names { IfOk result (λ names. map (λ name. name.now) names.items ≡ map (λ machine. text_of (own_of machine)) all.now) }
{
    let mut names = Vec::new(alloc);
    for machine in all {
        names.push(machine.own().text())?;
    }
    Ok(names)
}

/// The names of all capabilities.
pub(crate) fn capability_names(alloc: Global) -> Result<Vec<&'static str>, AllocError>
    ensures names { IfOk result (λ names. map (λ name. name.now) names.items ≡ capability_names) }
{
    let mut names = Vec::new(alloc);
    if let Some(all) = capability(b"all") {
        names.extend_from_slice(all)?;
    }
    Ok(names)
}

// The first of the names that are nearest to a word, where that is near.
fn nearest(
    alloc: Global,
    word: &[u8],
    names: &[&'static str],
) -> Result<Option<&'static str>, AllocError>
    ensures nearest { IfOk result (λ it. option_map (λ name. name.now) it ≡ nearest word.now (map (λ name. name.now) names.now)) }
{
    if word.len() > MOST_LETTERS {
        return Ok(None);
    }
    nearer_than(alloc, (word.len() + 2) / 4 + 1, word, names)
}

// The first of the nearest names, where it is nearer than that.
fn nearer_than(
    alloc: Global,
    bound: usize,
    word: &[u8],
    names: &[&'static str],
) -> Result<Option<&'static str>, AllocError>
    ensures nearest { IfOk result (λ it. option_map (λ name. name.now) it ≡ nearer_than bound word.now (map (λ name. name.now) names.now)) }
{
    let mut bound = bound;
    let mut best = None;
    for name in names {
        let distance = distance(alloc, word, name.as_bytes())?;
        best = nearer(distance < bound, *name, best);
        bound = bound.min(distance);
    }
    Ok(best)
}

// A name, where it is nearer than the best so far, and else that one.
fn nearer(is_nearer: bool, name: &'static str, best: Option<&'static str>) -> Option<&'static str>
    ensures nearer { option_map (λ name. name.now) result ≡ (if is_nearer then Some name.now else option_map (λ name. name.now) best.entry) }
{
    if is_nearer { Some(name) } else { best }
}

fn distance(alloc: Global, word: &[u8], name: &[u8]) -> Result<usize, AllocError>
    ensures distance { IfOk result (λ it. it ≡ distance word.now name.now) }
{
    generic_damerau_levenshtein(alloc, word, name)
}
