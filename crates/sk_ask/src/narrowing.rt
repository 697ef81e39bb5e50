//! `ask allow --args`: the policy that allows some calls with the arguments of logs alone.
ghost use Rattle.std.specs.Prelude.{◌≡◌, ◌++◌, ℕ, IfOk, IfErr, OnOk, Ok, find, flat_map, map};
ghost use Rattle.sk_policy_when.specs.Allowing.{is_x86_64, logged_calls};
ghost use Rattle.sk_replay.specs.Logged.{is_among};
ghost use Rattle.sk_ask.specs.Allows.{IsPolicy, IsPolicyText, IsRefusalOf, call_name, calls_wanted, line_on, own_call, unshown_line, unshown_notes, wide_call};
ghost use Rattle.sk_ask.specs.Counts.{CountsReads};

use crate::allow::{add_runtime, listed};
use crate::runtime::Runtime;
use crate::{Trouble, of_word};
use sk_arguments::Naming;
use sk_names::Architecture;
use sk_policy_when::{allow_text, allowed_rows, is_wide, unshown_arguments};
use sk_replay::{Call, calls_of};
use sk_show::name_of_numbers;
use std::alloc::{AllocError, Global};
use std::collections::BTreeSet;

/// What is said where arguments are wanted of another architecture's calls.
const ONLY_X86_64: &str = "allow: arguments are those of calls of x86-64 alone: ";

/// What is said where a runtime makes such a call too.
const OWN_CALL: &str =
    "allow: the runtime makes this call itself, with arguments that no log shows: --args ";

/// What is said where no line shows what could narrow a call.
const WIDE: &str = "allow: no argument of this call is shown by each of its lines: --args ";

/// What is said of an argument that does not narrow its call.
const UNSHOWN: &str = "allow: not each line shows this argument, so it may be any: ";

/// The policy that allows calls with these numbers, and the narrowed ones of them with the arguments of these calls alone.
pub(crate) fn policy_of(
    alloc: Global,
    naming: Naming,
    architecture: Architecture,
    runtime: Option<Runtime>,
    numbers: &[u32],
    narrowed: &[u32],
    calls: &[Call],
) -> Result<Vec<u8>, Trouble>
    ensures text { IfOk result (λ text.
        IsPolicy naming architecture runtime numbers.now narrowed.now calls.now (Ok text.items)) }
    ensures refused { IfErr result (IsRefusalOf (IsPolicy naming architecture runtime numbers.now narrowed.now calls.now)) }
    ensures unread { (reads : ℕ) → CountsReads result reads reads }
{
    if narrowed.is_empty() {
        return Ok(policy_text(alloc, naming, architecture, numbers, &[], &[])?);
    }
    if !is_x86_64(architecture) {
        return Err(Trouble::Refused(of_word(alloc, ONLY_X86_64, b"--args")?));
    }
    if let Some(nr) = own_call(alloc, architecture, runtime, narrowed)? {
        return Err(Trouble::Refused(line_on(alloc, OWN_CALL, nr)?));
    }
    if let Some(nr) = wide_call(alloc, calls, narrowed)? {
        return Err(Trouble::Refused(line_on(alloc, WIDE, nr)?));
    }
    Ok(policy_text(
        alloc,
        naming,
        Architecture::X86_64,
        numbers,
        narrowed,
        calls,
    )?)
}

/// Whether it is x86-64.
pub(crate) fn is_x86_64(architecture: Architecture) -> bool
    ensures is { result ≡ is_x86_64 architecture }
{
    matches!(architecture, Architecture::X86_64)
}

fn policy_text(
    alloc: Global,
    naming: Naming,
    architecture: Architecture,
    numbers: &[u32],
    narrowed: &[u32],
    calls: &[Call],
) -> Result<Vec<u8>, AllocError>
    ensures text { IfOk result (λ text. IsPolicyText naming architecture numbers.now narrowed.now calls.now (Ok text.items)) }
{
    let rows = allowed_rows(alloc, numbers, narrowed, calls)?;
    Ok(allow_text(alloc, naming, architecture, &rows)?.into_bytes())
}

// The first of some calls that a runtime makes itself.
fn own_call(
    alloc: Global,
    architecture: Architecture,
    runtime: Option<Runtime>,
    narrowed: &[u32],
) -> Result<Option<u32>, AllocError>
    ensures call { IfOk result (λ call. call ≡ own_call architecture runtime narrowed.now) }
{
    let mut numbers = BTreeSet::new(alloc);
    add_runtime(&mut numbers, architecture, runtime)?;
    let own = listed(alloc, &numbers)?;
    Ok(first_among(narrowed, &own))
}

fn first_among(calls: &[u32], numbers: &[u32]) -> Option<u32>
    ensures first { result ≡ find (λ nr. is_among nr numbers.now) calls.now }
{
    calls.iter().copied().find(|nr| is_among(*nr, numbers))
}

fn is_among(nr: u32, numbers: &[u32]) -> bool
    ensures among { result ≡ is_among nr numbers.now }
{
    numbers.iter().any(|other| *other == nr)
}

// The first of some calls that nothing narrows, since lines do not show what could.
fn wide_call(alloc: Global, calls: &[Call], narrowed: &[u32]) -> Result<Option<u32>, AllocError>
    ensures call { IfOk result (λ call. call ≡ wide_call calls.now narrowed.now) }
{
    let mut left = narrowed;
    while let Some((nr, others)) = left.split_first() {
        if is_wide(alloc, calls, *nr)? {
            return Ok(Some(*nr));
        }
        left = others;
    }
    Ok(None)
}

// What is said of a narrowed call.
fn line_on(alloc: Global, what: &str, nr: u32) -> Result<Vec<u8>, AllocError>
    ensures line { IfOk result (λ line. line.items ≡ line_on what.now nr) }
{
    of_word(alloc, what, call_name(nr).as_bytes())
}

fn call_name(nr: u32) -> &'static str
    ensures name { result.now ≡ call_name nr }
{
    name_of_numbers(Architecture::X86_64, nr, nr)
}

/// Adds which arguments of narrowed calls may be any, since not each line shows them.
pub(crate) fn push_unshown(
    alloc: Global,
    notes: &mut Vec<u8>,
    calls: &[Call],
    narrowed: &[u32],
) -> Result<(), AllocError>
    ensures notes { OnOk result (notes.new.items ≡ notes.old.items ++ unshown_notes calls.now narrowed.now) }
{
    for nr in narrowed {
        let unshown = unshown_arguments(alloc, calls, *nr)?;
        push_lines(alloc, notes, *nr, &unshown)?;
    }
    Ok(())
}

fn push_lines(
    alloc: Global,
    notes: &mut Vec<u8>,
    nr: u32,
    arguments: &[usize],
) -> Result<(), AllocError>
    ensures lines { OnOk result (notes.new.items ≡ notes.old.items ++ flat_map (unshown_line nr) arguments.now) }
{
    for argument in arguments {
        notes.extend_from_slice(&unshown_line(alloc, nr, *argument)?)?;
    }
    Ok(())
}

#[tactic(auto, unfolding(crate::specs::Allows::unshown_line))]
fn unshown_line(alloc: Global, nr: u32, argument: usize) -> Result<Vec<u8>, AllocError>
    ensures line { IfOk result (λ line. line.items ≡ unshown_line nr argument) }
{
    let name = call_name(nr);
    let shown = format!(in alloc; "args[{argument}] of {name}")?;
    of_word(alloc, UNSHOWN, shown.as_bytes())
}

/// The calls of logs whose arguments narrow some: none are wanted where nothing is narrowed.
pub(crate) fn calls_wanted(
    alloc: Global,
    narrowed: &[u32],
    logs: &[Vec<u8>],
) -> Result<Vec<Call>, AllocError>
    ensures calls { IfOk result (λ calls. calls.items ≡ calls_wanted narrowed.now (map (λ log. log.items) logs.now)) }
{
    if narrowed.is_empty() {
        return Ok(Vec::new(alloc));
    }
    logged_calls(alloc, Architecture::X86_64, logs)
}

// The calls of logs, those of each log once.
fn logged_calls(
    alloc: Global,
    architecture: Architecture,
    logs: &[Vec<u8>],
) -> Result<Vec<Call>, AllocError>
    ensures calls { IfOk result (λ calls. calls.items ≡ logged_calls architecture (map (λ log. log.items) logs.now)) }
{
    let mut calls = Vec::new(alloc);
    for log in logs {
        let it = calls_of(alloc, architecture, log)?;
        calls.extend_from_slice(&it)?;
    }
    Ok(calls)
}
