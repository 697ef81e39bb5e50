//! `ask allow`: the least policy or profile that allows the calls of logs.
ghost use Rattle.std.specs.Prelude.{◌≡◌, ◌++◌, ℕ, [], IfOk, IfErr, OnOk, Ok, map, string_bytes};
ghost use Rattle.std.specs.Option.{option_map};
ghost use Rattle.sk_replay.specs.Logged.{numbers_in};
ghost use Rattle.sk_profile_json.specs.Writing.{first_unnamed};
ghost use Rattle.sk_ask.specs.Allows.{IsAllowed, IsGrantedAs, IsRefusal, IsRefusalOf, OfLogs, counts_of, profile_of, profiled, some_unclear, unclear_note, unclear_notes, unclear_text, unnamed_line, with_runtime, without_call};
ghost use Rattle.sk_ask.specs.Since.{OfAllJudged};
ghost use Rattle.sk_ask.specs.Counts.{CountsReads};
ghost use Rattle.sk_ask.specs.Endings.{MayEnd, ending_of};

use crate::analysis::Analysis;
use crate::answer::Answer;
use crate::narrowing::{calls_wanted, is_x86_64, policy_of, push_unshown};
use crate::on::On;
use crate::replay::NO_CALL;
use crate::runtime::Runtime;
use crate::shelf::contents;
use crate::since::all_judged;
use crate::target::Grant;
use crate::word::Allowing;
use crate::{MOST_LOG_BYTES, Shelf, Trouble, about, of_word};
use sk_arguments::Naming;
use sk_names::Architecture;
use sk_profile_json::profile_text;
use sk_replay::{Call, LineCounts, add_logged};
use std::alloc::{AllocError, Global};
use std::collections::BTreeSet;

/// What is said where a profile is asked for of another architecture.
const ONLY_X86_64: &str = "allow: a profile is written of calls of x86-64 alone: ";

/// What is said where conditions are wanted in a profile.
const NO_CONDITIONS: &str = "allow: a profile is written without conditions: ";

/// What is said where a call has no name, by which a profile would have it.
const NO_NAME: &str =
    "allow: a profile has calls by their names, and none of x86-64 has the number ";

/// The answer to the logs in the files with these names.
pub fn allow_answer<S: Shelf, A: Analysis>(
    alloc: Global,
    names: &[String],
    shelf: &S,
    on: On<'_, A>,
    asks: Allowing,
    narrowed: &[u32],
    reads: &mut u64,
) -> Result<Answer, Trouble>
    ensures told { OfLogs (S.held shelf.now) (map string_bytes names.now) (ending_of result) (λ logs.
        OfAllJudged asks.since on.entry.architecture (map string_bytes names.now) logs (ending_of result) (λ texts.
        MayEnd (IsAllowed on.entry.naming on.entry.architecture asks narrowed.now (map string_bytes names.now) texts) (ending_of result))) }
    ensures counted { CountsReads result reads.old reads.new }
{
    let (naming, architecture) = (on.naming, on.architecture);
    let logs = contents(alloc, shelf, reads, names, MOST_LOG_BYTES)?;
    let texts = all_judged(alloc, asks.since, architecture, names, logs)?;
    allowed(alloc, naming, architecture, asks, narrowed, names, &texts)
}

fn allowed(
    alloc: Global,
    naming: Naming,
    architecture: Architecture,
    asks: Allowing,
    narrowed: &[u32],
    names: &[String],
    logs: &[Vec<u8>],
) -> Result<Answer, Trouble>
    ensures told { MayEnd (IsAllowed naming architecture asks narrowed.now (map string_bytes names.now) (map (λ log. log.items) logs.now)) (ending_of result) }
    ensures unread { (reads : ℕ) → CountsReads result reads reads }
{
    let mut numbers = BTreeSet::new(alloc);
    let counts = counts_of(alloc, architecture, logs, &mut numbers)?;
    if let Some(name) = without_call(names, &counts) {
        return Err(Trouble::Refused(about(alloc, name, NO_CALL)?));
    }
    add_runtime(&mut numbers, architecture, asks.runtime)?;
    let numbers = listed(alloc, &numbers)?;
    let calls = calls_wanted(alloc, narrowed, logs)?;
    let mut notes = unclear_notes(alloc, names, &counts)?;
    push_unshown(alloc, &mut notes, &calls, narrowed)?;
    Ok(Answer {
        text: granted(
            alloc,
            naming,
            architecture,
            asks,
            &numbers,
            narrowed,
            &calls,
        )?,
        notes,
        denies: some_unclear(&counts),
    })
}

/// Puts the numbers of a runtime's own calls among those that are there.
pub(crate) fn add_runtime(
    numbers: &mut BTreeSet<u32>,
    architecture: Architecture,
    runtime: Option<Runtime>,
) -> Result<(), AllocError>
    ensures numbers { OnOk result (numbers.new.keys ≡ with_runtime architecture runtime numbers.old.keys) }
{
    if let Some(runtime) = runtime {
        add_logged(numbers, architecture, runtime.log().as_bytes())?;
    }
    Ok(())
}

// The text that allows calls with these numbers, and some of them with the arguments of these calls alone.
fn granted(
    alloc: Global,
    naming: Naming,
    architecture: Architecture,
    asks: Allowing,
    numbers: &[u32],
    narrowed: &[u32],
    calls: &[Call],
) -> Result<Vec<u8>, Trouble>
    ensures text { IfOk result (λ text.
        IsGrantedAs asks.grant naming architecture asks.runtime numbers.now narrowed.now calls.now (Ok text.items)) }
    ensures refused { IfErr result (IsRefusalOf
        (IsGrantedAs asks.grant naming architecture asks.runtime numbers.now narrowed.now calls.now)) }
    ensures unread { (reads : ℕ) → CountsReads result reads reads }
{
    match asks.grant {
        Grant::Policy => policy_of(
            alloc,
            naming,
            architecture,
            asks.runtime,
            numbers,
            narrowed,
            calls,
        ),
        Grant::Profile => profile_of(alloc, architecture, numbers, narrowed),
    }
}

fn profile_of(
    alloc: Global,
    architecture: Architecture,
    numbers: &[u32],
    narrowed: &[u32],
) -> Result<Vec<u8>, Trouble>
    ensures text { IfOk result (λ text. profile_of architecture numbers.now narrowed.now ≡ Ok text.items) }
    ensures refused { IfErr result (IsRefusal (profile_of architecture numbers.now narrowed.now)) }
    ensures unread { (reads : ℕ) → CountsReads result reads reads }
{
    if !narrowed.is_empty() {
        return Err(Trouble::Refused(of_word(alloc, NO_CONDITIONS, b"--args")?));
    }
    if !is_x86_64(architecture) {
        return Err(Trouble::Refused(of_word(alloc, ONLY_X86_64, b"--to profile")?));
    }
    profiled(alloc, numbers)
}

fn profiled(alloc: Global, numbers: &[u32]) -> Result<Vec<u8>, Trouble>
    ensures text { IfOk result (λ text. profiled numbers.now (first_unnamed numbers.now) ≡ Ok text.items) }
    ensures refused { IfErr result (IsRefusal (profiled numbers.now (first_unnamed numbers.now))) }
    ensures unread { (reads : ℕ) → CountsReads result reads reads }
{
    match profile_text(alloc, numbers)? {
        Ok(text) => Ok(text),
        Err(nr) => Err(Trouble::Refused(unnamed_line(alloc, nr)?)),
    }
}

fn unnamed_line(alloc: Global, nr: u32) -> Result<Vec<u8>, AllocError>
    ensures line { IfOk result (λ line. line.items ≡ unnamed_line nr) }
{
    let number = format!(in alloc; "{nr}")?;
    of_word(alloc, NO_NAME, number.as_bytes())
}

// How many lines of each log are calls or are not understood, and the numbers of all calls.
fn counts_of(
    alloc: Global,
    architecture: Architecture,
    logs: &[Vec<u8>],
    numbers: &mut BTreeSet<u32>,
) -> Result<Vec<LineCounts>, AllocError>
    requires none { numbers.old.keys ≡ [] }
    ensures numbers { OnOk result (numbers.new.keys ≡ numbers_in architecture (map (λ log. log.items) logs.now)) }
    ensures counts { IfOk result (λ counts. counts.items ≡ map (counts_of architecture) (map (λ log. log.items) logs.now)) }
{
    let mut counts = Vec::new(alloc);
    for log in logs {
        let it = add_logged(numbers, architecture, log)?;
        counts.push(it)?;
    }
    Ok(counts)
}

/// The numbers in their order.
pub(crate) fn listed(alloc: Global, numbers: &BTreeSet<u32>) -> Result<Vec<u32>, AllocError>
    ensures listed { IfOk result (λ list. list.items ≡ numbers.now.keys) }
{
    let mut list = Vec::new(alloc);
    for number in numbers {
        list.push(*number)?;
    }
    Ok(list)
}

// The name of the first log without a call.
fn without_call<'a>(names: &'a [String], counts: &[LineCounts]) -> Option<&'a str>
    ensures name { option_map (λ name. name.now) result ≡ without_call (map string_bytes names.now) counts.now }
{
    let mut rest = names;
    let mut left = counts;
    while let Some((name, other_names)) = rest.split_first() {
        let Some((it, other_counts)) = left.split_first() else {
            break;
        };
        if it.calls == 0 {
            return Some(name.as_str());
        }
        rest = other_names;
        left = other_counts;
    }
    None
}

fn unclear_notes(
    alloc: Global,
    names: &[String],
    counts: &[LineCounts],
) -> Result<Vec<u8>, AllocError>
    ensures notes { IfOk result (λ notes. notes.items ≡ unclear_notes (map string_bytes names.now) counts.now) }
{
    let mut notes = Vec::new(alloc);
    let mut rest = names;
    let mut left = counts;
    while let Some((name, other_names)) = rest.split_first() {
        let Some((it, other_counts)) = left.split_first() else {
            break;
        };
        push_unclear(alloc, &mut notes, name, it.unclear)?;
        rest = other_names;
        left = other_counts;
    }
    Ok(notes)
}

#[tactic(auto, unfolding(crate::specs::Allows::unclear_note))]
fn push_unclear(
    alloc: Global,
    notes: &mut Vec<u8>,
    name: &str,
    count: u64,
) -> Result<(), AllocError>
    ensures note { OnOk result (notes.new.items ≡ notes.old.items ++ unclear_note name.now count) }
{
    if count == 0 {
        return Ok(());
    }
    let what = unclear_text(alloc, count)?;
    notes.extend_from_slice(&about(alloc, name, &what)?)
}

#[tactic(auto, unfolding(crate::specs::Allows::unclear_text))]
fn unclear_text(alloc: Global, count: u64) -> Result<String, AllocError>
    ensures text { IfOk result (λ text. string_bytes text ≡ unclear_text count) }
{
    match count {
        1 => format!(in alloc; "1 line is not understood"),
        _ => format!(in alloc; "{count} lines are not understood"),
    }
}

fn some_unclear(counts: &[LineCounts]) -> bool
    ensures some { result ≡ some_unclear counts.now }
{
    counts.iter().any(|it| it.unclear != 0)
}
