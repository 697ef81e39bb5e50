//! What is told of a profile beside its filter.
ghost use Rattle.std.specs.Prelude.{◌≡◌, ◌<◌, ◌++◌, [], ◌∷◌, map, IfOk, OnOk, string_bytes};
ghost use Rattle.std.specs.List.{cons_option, list_any};
ghost use Rattle.json.specs.Value.{value_view};
ghost use Rattle.sk_profile_json.specs.Architectures.{is_listed};
ghost use Rattle.sk_profile_json.specs.Contexts.{counts};
ghost use Rattle.sk_profile_json.specs.Notes.{alone_note, alone_text, counted_names, entries_of, entry_notes, is_unknown, is_yes, lists_relative, name_note, names_notes, notes_from, notes_of, shown_byte, unknown_note, unknown_text};

use crate::architectures::is_listed;
use crate::context::{Context, counts};
use crate::entry::names;
use crate::fault::Field;
use crate::fields::{items_or_none, list, no_items};
use crate::machine::Machine;
use crate::text::push_entry;
use json::Value;
use sk_names::x86_64::number;
use sk_names::{Architecture, is_elsewhere};
use std::alloc::{AllocError, Global};

/// The notes of a profile, each in one line.
pub(crate) fn notes_of(
    alloc: Global,
    context: &Context<'_>,
    profile: &Value<'_>,
) -> Result<Vec<String>, AllocError>
    ensures notes { IfOk result (λ notes. map string_bytes notes.items ≡ notes_of context.now (value_view profile.now)) }
{
    let mut notes = Vec::new(alloc);
    push_alone(alloc, &mut notes, context, profile)?;
    push_unknown(alloc, &mut notes, context, entries_of(profile))?;
    Ok(notes)
}

// That architectures are left out which the profile lists.
fn push_alone(
    alloc: Global,
    notes: &mut Vec<String>,
    context: &Context<'_>,
    profile: &Value<'_>,
) -> Result<(), AllocError>
    ensures pushed { OnOk result (map string_bytes notes.new.items ≡
        map string_bytes notes.old.items ++ alone_note context.now (value_view profile.now) context.now.machine) }
{
    match context.machine {
        Some(machine) if context.native && lists_relative(context, profile, machine) => {
            let note = alone_text(alloc, machine)?;
            notes.push(note)?;
            Ok(())
        }
        _ => Ok(()),
    }
}

fn lists_relative(context: &Context<'_>, profile: &Value<'_>, machine: Machine) -> bool
    ensures any { result ≡ lists_relative context.now (value_view profile.now) machine }
{
    lists_any_of(context, profile, machine.relatives())
}

fn lists_any_of(context: &Context<'_>, profile: &Value<'_>, relatives: &[Architecture]) -> bool
    ensures any { result ≡ list_any (is_listed context.now (value_view profile.now)) relatives.now }
{
    relatives
        .iter()
        .any(|architecture| is_listed(context, profile, *architecture))
}

fn alone_text(alloc: Global, machine: Machine) -> Result<String, AllocError>
    ensures text { IfOk result (λ text. string_bytes text ≡ alone_text machine) }
{
    let mut text = String::new(alloc);
    text.push_str(machine.own().text())?;
    text.push_str("'s part alone: programs of its other architectures are killed")?;
    Ok(text)
}

// The entries of a profile, in their order.
fn entries_of<'v, 'a>(profile: &'v Value<'a>) -> &'v [Value<'a>]
    ensures entries { map value_view result.now ≡ entries_of (value_view profile.now) }
{
    items_or_none(list(profile, Field::Syscalls))
}

// The names of an entry, each a text, where it counts, and else none.
fn counted_names<'v, 'a>(context: &Context<'_>, entry: &'v Value<'a>) -> &'v [Value<'a>]
    ensures names { map value_view result.now ≡ counted_names context.now (value_view entry.now) }
{
    if is_counted(context, entry) {
        items_or_none(names(entry))
    } else {
        no_items()
    }
}

fn is_counted(context: &Context<'_>, entry: &Value<'_>) -> bool
    ensures counted { result ≡ is_yes (counts context.now (value_view entry.now)) }
{
    counts(context, entry).unwrap_or(false)
}

// Of each entry that counts the names that no call has.
fn push_unknown(
    alloc: Global,
    notes: &mut Vec<String>,
    context: &Context<'_>,
    entries: &[Value<'_>],
) -> Result<(), AllocError>
    ensures pushed { OnOk result (map string_bytes notes.new.items ≡ map string_bytes notes.old.items ++ notes_from context.now 0 (map value_view entries.now)) }
{
    for (place, entry) in entries.iter().enumerate() {
        push_names(alloc, notes, place, counted_names(context, entry))?;
    }
    Ok(())
}

fn push_names(
    alloc: Global,
    notes: &mut Vec<String>,
    entry: usize,
    names: &[Value<'_>],
) -> Result<(), AllocError>
    ensures pushed { OnOk result (map string_bytes notes.new.items ≡ map string_bytes notes.old.items ++ names_notes entry (map value_view names.now)) }
{
    for name in names {
        push_name(alloc, notes, entry, name)?;
    }
    Ok(())
}

fn push_name(
    alloc: Global,
    notes: &mut Vec<String>,
    entry: usize,
    name: &Value<'_>,
) -> Result<(), AllocError>
    ensures pushed { OnOk result (map string_bytes notes.new.items ≡ map string_bytes notes.old.items ++ cons_option (name_note entry (value_view name.now)) []) }
{
    match name.as_str() {
        Some(name) if is_unknown(name.as_bytes()) => {
            let note = unknown_text(alloc, entry, name.as_bytes())?;
            notes.push(note)?;
            Ok(())
        }
        _ => Ok(()),
    }
}

fn is_unknown(name: &[u8]) -> bool
    ensures unknown { result ≡ is_unknown name.now }
{
    number(name).is_none() && !is_elsewhere(name)
}

fn unknown_text(alloc: Global, entry: usize, name: &[u8]) -> Result<String, AllocError>
    ensures text { IfOk result (λ text. string_bytes text ≡ unknown_text entry name.now) }
{
    let mut text = String::new(alloc);
    push_entry(&mut text, entry)?;
    text.push_str("no call is named ")?;
    push_shown(&mut text, name)?;
    text.push_str(": passed over")?;
    Ok(text)
}

fn push_shown(text: &mut String, name: &[u8]) -> Result<(), AllocError>
    ensures text { OnOk result (string_bytes text.new ≡ string_bytes text.old ++ map shown_byte name.now) }
{
    for byte in name {
        push_byte(text, *byte)?;
    }
    Ok(())
}

#[tactic(auto, using(std::proofs::lemmas::Str::encode_ascii))]
fn push_byte(text: &mut String, byte: u8) -> Result<(), AllocError>
    ensures text { OnOk result (string_bytes text.new ≡ string_bytes text.old ++ shown_byte byte ∷ []) }
{
    text.push(char::from(shown_byte(byte)))
}

fn shown_byte(byte: u8) -> u8
    ensures shown { result ≡ shown_byte byte }
    ensures ascii { result < 128 }
{
    if b' ' <= byte && byte <= b'~' {
        byte
    } else {
        b'?'
    }
}
