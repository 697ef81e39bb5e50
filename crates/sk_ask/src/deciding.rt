//! Which entry of a profile, and which line of a policy, decides on a call.
ghost use Rattle.std.specs.Prelude.{◌≡◌, ◌++◌, None, IfOk, OnOk, map, string_bytes};
ghost use Rattle.std.specs.Bool.{MatchBool};
ghost use Rattle.std.specs.List.{zip};
ghost use Rattle.std.specs.Option.{option_map};
ghost use Rattle.sk_profile.specs.Views.{profile_of};
ghost use Rattle.sk_document.specs.declared.deciding.Decider.TheVariants.{Entry};
ghost use Rattle.sk_document.specs.Deciding.{pair_of};
ghost use Rattle.sk_ask.specs.Deciding.{AreDecided, Decides, DecidesBy, IsOfProfile, PolicyDecides, decider_text, decision_line, decision_lines, in_file, line_text, of_policy, stands_for_policy};

use crate::complaint::shown_name;
use crate::form::{is_policy, unmarked};
use crate::kind::kind_of;
use sk_document::{Decider, Decision};
use sk_forms::listed;
use sk_insn::Record;
use sk_profile::Profile;
use sk_profile_json::{Context, decider_by, entry_line, profile_of_bytes};
use std::alloc::{AllocError, Global};
use std::fmt::Write;

/// What decides on a call in each of these files that is a profile or a policy, by the files' names.
pub fn decisions_of<'a>(
    alloc: Global,
    context: &Context<'_>,
    call: &Record,
    names: &'a [String],
    files: &[Vec<u8>],
) -> Result<Vec<Decision<'a>>, AllocError>
    ensures decided { IfOk result (λ it.
        AreDecided context.now call.now (zip (map string_bytes names.now) (map (λ file. file.items) files.now)) (map pair_of it.items)) }
{
    let mut decisions = Vec::new(alloc);
    let mut rest = names;
    let mut left = files;
    while let Some((name, other_names)) = rest.split_first() {
        let Some((file, other_files)) = left.split_first() else {
            break;
        };
        let found = decider_of_text(alloc, context, call, unmarked(file))?;
        push_decision(&mut decisions, name.as_str(), found)?;
        rest = other_names;
        left = other_files;
    }
    Ok(decisions)
}

fn push_decision<'a>(
    decisions: &mut Vec<Decision<'a>>,
    file: &'a str,
    decider: Option<Decider>,
) -> Result<(), AllocError>
    ensures pushed { OnOk result (map pair_of decisions.new.items ≡ map pair_of decisions.old.items ++ in_file file.now decider) }
{
    if let Some(decider) = decider {
        decisions.push(Decision { file, decider })?;
    }
    Ok(())
}

// What of a text decides, if it is a profile or a policy.
fn decider_of_text(
    alloc: Global,
    context: &Context<'_>,
    call: &Record,
    text: &[u8],
) -> Result<Option<Decider>, AllocError>
    ensures decides { IfOk result (Decides context.now call.now text.now) }
{
    let profile = profile_of_bytes(alloc, context, text)?;
    decider_if(alloc, call, text, profile)
}

fn decider_if(
    alloc: Global,
    call: &Record,
    text: &[u8],
    profile: Option<Profile>,
) -> Result<Option<Decider>, AllocError>
    ensures decides { IfOk result (DecidesBy call.now text.now (option_map profile_of profile)) }
{
    match profile {
        Some(profile) => Ok(Some(of_profile(alloc, text, decider_by(&profile, call))?)),
        None => policy_decider(alloc, call, text),
    }
}

fn policy_decider(alloc: Global, call: &Record, text: &[u8]) -> Result<Option<Decider>, AllocError>
    ensures decides { IfOk result (λ it. MatchBool (stands_for_policy text.now) (PolicyDecides call.now text.now it) (it ≡ None)) }
{
    if !stands_for_policy(alloc, text)? {
        return Ok(None);
    }
    match sk_policy_text::decider_in(alloc, text, call)? {
        Some(decider) => Ok(Some(of_policy(decider))),
        None => Ok(None),
    }
}

fn stands_for_policy(alloc: Global, text: &[u8]) -> Result<bool, AllocError>
    ensures stands { IfOk result (λ stands. stands ≡ stands_for_policy text.now) }
{
    let has_form = listed(alloc, text)?.is_some();
    Ok(!has_form && kind_of(text).is_none() && is_policy(text))
}

// What decides of the profile that a text says, an entry with its line.
fn of_profile(
    alloc: Global,
    text: &[u8],
    decider: sk_profile_json::Decider,
) -> Result<Decider, AllocError>
    ensures of { IfOk result (IsOfProfile text.now decider) }
{
    match decider {
        sk_profile_json::Decider::Entry(entry) => {
            let line = entry_line(alloc, text, entry)?;
            Ok(Decider::Entry(entry, line))
        }
        sk_profile_json::Decider::Default => Ok(Decider::NoEntry),
        sk_profile_json::Decider::NoCall => Ok(Decider::NoCall),
        sk_profile_json::Decider::Foreign => Ok(Decider::Foreign),
    }
}

fn of_policy(decider: sk_policy_text::Decider) -> Decider
    ensures of { result ≡ of_policy decider }
{
    match decider {
        sk_policy_text::Decider::Row(line) => Decider::Row(line),
        sk_policy_text::Decider::Default(line) => Decider::Default(line),
        sk_policy_text::Decider::Others(line) => Decider::Others(line),
    }
}

/// Adds a line for each decision.
pub fn push_decisions(
    alloc: Global,
    text: &mut String,
    decisions: &[Decision<'_>],
) -> Result<(), AllocError>
    ensures text { OnOk result (string_bytes text.new ≡ string_bytes text.old ++ decision_lines (map pair_of decisions.now)) }
{
    for it in decisions {
        push_line(alloc, text, *it)?;
    }
    Ok(())
}

#[tactic(auto, unfolding(crate::specs::Deciding::decision_line))]
fn push_line(alloc: Global, text: &mut String, it: Decision<'_>) -> Result<(), AllocError>
    ensures text { OnOk result (string_bytes text.new ≡ string_bytes text.old ++ decision_line (pair_of it.entry)) }
{
    text.push_str(&shown_name(alloc, it.file)?)?;
    text.push_str(": ")?;
    push_decider(text, it.decider)?;
    text.push_str("\n")
}

fn push_decider(text: &mut String, decider: Decider) -> Result<(), AllocError>
    ensures text { OnOk result (string_bytes text.new ≡ string_bytes text.old ++ decider_text decider) }
{
    match decider {
        Decider::Entry(entry, line) => push_entry(text, entry, line),
        Decider::NoEntry => text.push_str("no entry of syscalls says otherwise than the default"),
        Decider::NoCall => text.push_str("runc's own instructions decide, which know no such call"),
        Decider::Foreign => text.push_str("the profile is not for this architecture"),
        Decider::Row(line) => push_in_line(text, "", "no line decides", line),
        Decider::Default(line) => push_in_line(
            text,
            "default in ",
            "no line says what other numbers get",
            line,
        ),
        Decider::Others(line) => push_in_line(
            text,
            "others in ",
            "no line says what other architectures get",
            line,
        ),
    }
}

// The entry with this number, from 0 on, and its line.
fn push_entry(text: &mut String, entry: usize, line: Option<usize>) -> Result<(), AllocError>
    ensures text { OnOk result (string_bytes text.new ≡ string_bytes text.old ++ decider_text (Entry entry line)) }
{
    let count = entry as u128 + 1;
    match line {
        Some(line) => write!(text, "entry {count} of syscalls in line {line} decides"),
        None => write!(text, "entry {count} of syscalls decides"),
    }
}

// The line that decides, behind what stands there; or what is said without it.
fn push_in_line(
    text: &mut String,
    what: &str,
    without: &str,
    line: Option<usize>,
) -> Result<(), AllocError>
    ensures text { OnOk result (string_bytes text.new ≡ string_bytes text.old ++ line_text what.now without.now line) }
{
    match line {
        Some(line) => write!(text, "{what}line {line} decides"),
        None => text.push_str(without),
    }
}
