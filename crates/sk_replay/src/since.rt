//! The lines of a log from under a filter: a log of strace(1) also has what the program did that attached it.
ghost use Rattle.std.specs.Prelude.{◌≡◌, ◌&&◌, ◌||◌, ◌++◌, ◌∷◌, [], ℕ, if◌then◌else◌, not, IfOk, OnOk};
ghost use Rattle.std.specs.BTreeSet.{contains};
ghost use Rattle.std.specs.Option.{option_map};
ghost use Rattle.std.specs.Ordering.{nat_cmp};
ghost use Rattle.sk_text.specs.Lines.{lines_of};
ghost use Rattle.sk_replay.specs.Since.{gets, is_other, is_process, since_attached};

use crate::attaching::{Scope, is_superseded, process_of, scope_by};
use sk_names::{Architecture, number};
use sk_text::Lines;
use std::alloc::{AllocError, Global};
use std::collections::BTreeSet;

/// The log with a blank line for each line that is not under a filter, where a line attaches one. Each line has the number that
/// it had.
pub fn since_attached(
    alloc: Global,
    architecture: Architecture,
    log: &[u8],
) -> Result<Option<Vec<u8>>, AllocError>
    ensures lines { IfOk result (λ text. option_map (λ text. lines_of text.items) text ≡ since_attached architecture (lines_of log.now)) }
{
    let seccomp = number(architecture, b"seccomp");
    let prctl = number(architecture, b"prctl");
    let mut is_attached = false;
    let mut outside = BTreeSet::new(alloc);
    let mut text = Vec::new(alloc);
    let mut lines = Lines(log);
    while let Some(line) = lines.next() {
        let process = process_of(line);
        let is_under = is_attached && is_other(&outside, process);
        push_line(&mut text, is_under, line)?;
        let scope = scope_by(seccomp, prctl, architecture, line, lines.0);
        is_attached |= scope.is_some();
        note(&mut outside, is_attached, process, scope, line)?;
    }
    Ok(is_attached.then_some(text))
}

// Puts a line or a blank one behind a text.
fn push_line(text: &mut Vec<u8>, is_shown: bool, line: &[u8]) -> Result<(), AllocError>
    ensures pushed { OnOk result (text.new.items ≡ text.old.items ++ ((if is_shown then line.now else []) ++ 10 ∷ [])) }
{
    if is_shown {
        text.extend_from_slice(line)?;
    }
    text.push(b'\n')?;
    Ok(())
}

// Whether a line is of a process that is not among these.
fn is_other(processes: &BTreeSet<u32>, process: Option<u32>) -> bool
    ensures other { result ≡ is_other (contains nat_cmp processes.now) process }
{
    match process {
        Some(process) => !processes.contains(&process),
        None => true,
    }
}

// Puts the process of a line among those without a filter, or takes out those that may have one after it where one is attached.
fn note(
    outside: &mut BTreeSet<u32>,
    is_attached: bool,
    from: Option<u32>,
    scope: Option<Scope>,
    line: &[u8],
) -> Result<(), AllocError>
    ensures noted { OnOk result ((process : ℕ) → contains nat_cmp outside.new process ≡
        (if is_attached
        then contains nat_cmp outside.old process && not (gets process from scope line.now)
        else contains nat_cmp outside.old process || is_process process from)) }
{
    if is_attached {
        take_out(outside, from, scope, line);
        Ok(())
    } else {
        add(outside, from)
    }
}

// Puts the process of a line among these.
fn add(processes: &mut BTreeSet<u32>, from: Option<u32>) -> Result<(), AllocError>
    ensures added { OnOk result ((process : ℕ) → contains nat_cmp processes.new process ≡
        (contains nat_cmp processes.old process || is_process process from)) }
{
    if let Some(process) = from {
        processes.insert(process)?;
    }
    Ok(())
}

// Takes those out that may have a filter after a line of this process.
fn take_out(processes: &mut BTreeSet<u32>, from: Option<u32>, scope: Option<Scope>, line: &[u8])
    ensures left { (process : ℕ) → contains nat_cmp processes.new process ≡
        (contains nat_cmp processes.old process && not (gets process from scope line.now)) }
{
    match (from, scope) {
        (_, Some(Scope::AllProcesses)) | (None, Some(Scope::OneProcess)) => processes.clear(),
        (Some(process), Some(Scope::OneProcess)) => {
            processes.remove(&process);
        }
        (Some(process), None) if is_superseded(line) => {
            processes.remove(&process);
        }
        (_, None) => {}
    }
}
