//! What a line of a log tells of filters: which process it is of, and for whom it attaches one.
ghost use Rattle.std.specs.Prelude.{◌≡◌};
ghost use Rattle.std.specs.List.{list_any};
ghost use Rattle.std.specs.Option.{option_map};
ghost use Rattle.std.specs.Str.{bytes_eq};
ghost use Rattle.sk_text.specs.Lines.{lines_of, words_of};
ghost use Rattle.sk_replay.specs.Since.{effective, fails_behind, has_word, is_failed_end, is_failure, is_number, is_process, is_success, is_superseded, may_be, may_be_odd, next_of, process_in, process_number, process_of, result_of, scope_by, scope_in, scope_of_call, scope_of_prctl, scope_of_seccomp};

use crate::call::value_at;
use crate::digits::digits_up_to;
use crate::line::{LogLine, is_unfinished};
use crate::shown::{Arguments, Shown};
use crate::value::Value;
use crate::written::Written;
use sk_names::Architecture;
use sk_text::{Lines, Words, cut, is_same};

/// The end of a call is looked for among so many lines.
const END_WITHIN: usize = 256;

/// For whom a filter is attached.
#[derive(Clone, Copy, Debug, PartialEq, Eq)]
pub enum Scope {
    /// The process that makes the call.
    OneProcess,
    /// Any that the log has: a log does not tell which are threads of that process.
    AllProcesses,
}

/// The number of the process that a line is of, where it begins with one.
pub(crate) fn process_of(line: &[u8]) -> Option<u32>
    ensures process { result ≡ process_of line.now }
{
    process_in(Words(line))
}

fn process_in(mut words: Words<'_>) -> Option<u32>
    ensures process { result ≡ process_in (words_of words.entry.0.now) }
{
    let first = words.next()?;
    let second = words.next()?;
    if is_same(first, b"[pid") {
        let (number, _behind) = cut(second, b']');
        process_number(number)
    } else {
        process_number(first)
    }
}

#[tactic(auto, unfolding(crate::specs::Since::process_number))]
fn process_number(word: &[u8]) -> Option<u32>
    ensures number { result ≡ process_number word.now }
{
    let number = digits_up_to(word, 10, 0xffff_ffff)?;
    Some(number as u32)
}

/// For whom a line attaches a filter, by the numbers of seccomp(2) and prctl(2) on its architecture and by the lines behind it.
pub(crate) fn scope_by(
    seccomp: Option<u32>,
    prctl: Option<u32>,
    architecture: Architecture,
    line: &[u8],
    behind: &[u8],
) -> Option<Scope>
    ensures scope { result ≡ scope_by seccomp prctl architecture line.now (lines_of behind.now) }
{
    let scope = scope_in(seccomp, prctl, architecture, line)?;
    if is_unfinished(line) && fails_behind(process_of(line), behind) {
        None
    } else {
        Some(scope)
    }
}

fn scope_in(
    seccomp: Option<u32>,
    prctl: Option<u32>,
    architecture: Architecture,
    line: &[u8],
) -> Option<Scope>
    ensures scope { result ≡ scope_in seccomp prctl architecture line.now }
{
    match LogLine::of(architecture, line) {
        LogLine::Made(call) => {
            let (_name, text) = cut(line, b'(');
            scope_of_call(seccomp, prctl, call.nr, text)
        }
        LogLine::Event | LogLine::Unclear => None,
    }
}

#[tactic(auto, unfolding(crate::specs::Since::scope_of_call))]
fn scope_of_call(seccomp: Option<u32>, prctl: Option<u32>, nr: u32, text: &[u8]) -> Option<Scope>
    ensures scope { result ≡ scope_of_call seccomp prctl nr text.now }
{
    if is_number(seccomp, nr) {
        return scope_of_seccomp(effective(text)?.as_slice());
    }
    if is_number(prctl, nr) {
        return scope_of_prctl(effective(text)?.as_slice());
    }
    None
}

fn is_number(number: Option<u32>, nr: u32) -> bool
    ensures number { result ≡ is_number number nr }
{
    match number {
        Some(number) => number == nr,
        None => false,
    }
}

// The arguments of a call that may have succeeded.
#[tactic(auto, unfolding(crate::specs::Since::effective))]
fn effective(text: &[u8]) -> Option<Arguments>
    ensures arguments { option_map (λ args. args.items) result ≡ effective text.now }
{
    let shown = Shown::of(Written::ByRegister, text)?;
    if is_unfinished(text) || is_success(result_of(Words(shown.behind))) {
        Some(shown.args)
    } else {
        None
    }
}

// The result of a call, by the words behind its arguments.
fn result_of<'a>(mut words: Words<'a>) -> Option<&'a [u8]>
    ensures result { option_map (λ it. it.now) result ≡ result_of (words_of words.entry.0.now) }
{
    let first = words.next()?;
    let second = words.next()?;
    let third = words.next()?;
    (is_same(first, b")") && is_same(second, b"=")).then_some(third)
}

fn is_success(shown: Option<&[u8]>) -> bool
    ensures success { result ≡ is_success (option_map (λ it. it.now) shown.entry) }
{
    match shown {
        Some(result) => !is_same(result, b"-1"),
        None => false,
    }
}

fn is_failure(shown: Option<&[u8]>) -> bool
    ensures failure { result ≡ is_failure (option_map (λ it. it.now) shown.entry) }
{
    match shown {
        Some(result) => is_same(result, b"-1"),
        None => false,
    }
}

fn scope_of_seccomp(args: &[Value]) -> Option<Scope>
    ensures scope { result ≡ scope_of_seccomp args.now }
{
    if !may_be(1, value_at(args, 0, Value::Unknown)) {
        return None;
    }
    if may_be_odd(value_at(args, 1, Value::Unknown)) {
        Some(Scope::AllProcesses)
    } else {
        Some(Scope::OneProcess)
    }
}

fn scope_of_prctl(args: &[Value]) -> Option<Scope>
    ensures scope { result ≡ scope_of_prctl args.now }
{
    let option = value_at(args, 0, Value::Unknown);
    let mode = value_at(args, 1, Value::Unknown);
    if may_be(22, option) && may_be(2, mode) {
        Some(Scope::OneProcess)
    } else {
        None
    }
}

fn may_be(number: u64, value: Value) -> bool
    ensures may { result ≡ may_be number value }
{
    match value {
        Value::Told(other) => other == number,
        Value::Unknown => true,
    }
}

fn may_be_odd(value: Value) -> bool
    ensures may { result ≡ may_be_odd value }
{
    match value {
        Value::Told(number) => number % 2 == 1,
        Value::Unknown => true,
    }
}

// Whether the lines behind one of a process show that the call which it begins fails.
fn fails_behind(process: Option<u32>, behind: &[u8]) -> bool
    ensures fails { result ≡ fails_behind process (lines_of behind.now) }
{
    let Some(process) = process else {
        return false;
    };
    match next_of(process, behind) {
        Some(line) => is_failed_end(line),
        None => false,
    }
}

// The next line of a process, where it is near.
#[tactic(auto, using(crate::proofs::NextLines::next_here, crate::proofs::NextLines::next_behind, crate::proofs::NextLines::none_behind, crate::proofs::NextLines::no_room))]
fn next_of<'a>(process: u32, behind: &'a [u8]) -> Option<&'a [u8]>
    ensures next { option_map (λ line. line.now) result ≡ next_of 256 process (lines_of behind.now) }
{
    let mut lines = Lines(behind);
    let mut room = END_WITHIN;
    while room > 0 {
        let line = lines.next()?;
        if is_of(process, line) {
            return Some(line);
        }
        room -= 1;
    }
    None
}

fn is_of(process: u32, line: &[u8]) -> bool
    ensures process { result ≡ is_process process (process_of line.now) }
{
    match process_of(line) {
        Some(other) => other == process,
        None => false,
    }
}

// Whether a line shows that a call which an earlier line begins has failed.
fn is_failed_end(line: &[u8]) -> bool
    ensures failed { result ≡ is_failed_end line.now }
{
    let (_begun, behind) = cut(line, b'>');
    has_word(b"<...", line) && is_failure(result_of(Words(behind)))
}

/// Whether another thread goes on under the number of the line's process.
pub(crate) fn is_superseded(line: &[u8]) -> bool
    ensures superseded { result ≡ is_superseded line.now }
{
    has_word(b"superseded", line)
}

// Whether a word stands in front of the first parenthesis.
fn has_word(word: &[u8], line: &[u8]) -> bool
    ensures has { result ≡ has_word word.now line.now }
{
    let (before, _behind) = cut(line, b'(');
    is_among(word, Words(before))
}

#[tactic(auto, using(crate::proofs::Marks::one_behind, crate::proofs::Marks::one_here))]
fn is_among(one: &[u8], mut words: Words<'_>) -> bool
    ensures some { result ≡ list_any (bytes_eq one.now) (words_of words.entry.0.now) }
{
    while let Some(word) = words.next() {
        if is_same(one, word) {
            return true;
        }
    }
    false
}
