//! What one line of a log says.
ghost use Rattle.std.specs.Prelude.{◌≡◌, Some, None, codes, nat_eq};
ghost use Rattle.std.specs.List.{list_all, starts_with};
ghost use Rattle.sk_text.specs.Lines.{words_of};
ghost use Rattle.sk_replay.specs.Lines.{begun_call, begun_part, call_in, call_of, clone_registers, event_or, in_registers, is_answer, is_blank, is_event, is_mark, is_mark_byte, is_returned, is_unfinished, line_of, number_in, number_shown, said, said_at, said_in, strace_line, unfinished, whole_call};

use crate::call::{Call, value_at};
use crate::mode::is_other_mode;
use crate::recorded::Recorded;
use crate::shown::Shown;
use crate::value::Value;
use crate::written::Written;
use sk_names::{Architecture, number};
use sk_text::{Words, cut, is_same, no_word, number_up_to};

/// What a line says.
#[derive(Clone, Copy, Debug, PartialEq, Eq)]
pub enum LogLine {
    /// A call.
    Made(Call),
    /// What is no call: a signal, an end, or a word of strace itself.
    Event,
    /// Nothing that is understood, or a call that no table has.
    Unclear,
}

/// What stands behind a call that has not returned.
const UNFINISHED: &[u8] = b" <unfinished ...>";

impl LogLine {
    /// What this line says of a process of an architecture.
    pub(crate) fn of(architecture: Architecture, line: &[u8]) -> LogLine
        ensures line { result ≡ line_of architecture line.now }
    {
        match Recorded::of(architecture, line) {
            Recorded::NoRecord => strace_line(architecture, line),
            Recorded::Unclear => LogLine::Unclear,
            Recorded::Of(call) => LogLine::Made(call),
        }
    }
}

// What a line of strace says.
fn strace_line(architecture: Architecture, line: &[u8]) -> LogLine
    ensures line { result ≡ strace_line architecture line.now }
{
    if is_blank(line) {
        LogLine::Event
    } else {
        said_in(architecture, line)
    }
}

// Whether a line has no word.
fn is_blank(line: &[u8]) -> bool
    ensures blank { result ≡ is_blank line.now }
{
    line.iter().all(|byte| *byte == b' ')
}

// What the words of a line say, of which the first may be marks.
#[tactic(auto, using(crate::proofs::Marks::unmarked, crate::proofs::Marks::marked))]
fn said_in(architecture: Architecture, line: &[u8]) -> LogLine
    ensures said { result ≡ said_in architecture line.now }
{
    let (before, text) = cut(line, b'(');
    let mut words = Words(before);
    while let Some(word) = words.next() {
        if !is_mark(word) {
            return said_at(architecture, word, words, text);
        }
    }
    LogLine::Unclear
}

// What the words say from the first on that is no mark, and the text behind them.
#[tactic(auto, unfolding(crate::specs::Lines::said_at))]
fn said_at(architecture: Architecture, word: &[u8], words: Words<'_>, text: &[u8]) -> LogLine
    ensures said { result ≡ said_at architecture word.now (words_of words.entry.0.now) text.now }
{
    if is_event(word) {
        return event_or(architecture, word, words);
    }
    match call_in(architecture, word, words, text) {
        Some(call) => LogLine::Made(call),
        None => LogLine::Unclear,
    }
}

// An event; but that the calls which follow are not of the architecture is not understood.
fn event_or(architecture: Architecture, word: &[u8], words: Words<'_>) -> LogLine
    ensures said { result ≡ event_or architecture word.now (words_of words.entry.0.now) }
{
    if is_other_mode(architecture, word, words) {
        LogLine::Unclear
    } else {
        LogLine::Event
    }
}

/// Whether a word stands in front of the call: the process, the time, the instruction pointer.
#[tactic(auto, unfolding(crate::specs::Lines::is_mark))]
pub(crate) fn is_mark(word: &[u8]) -> bool
    ensures mark { result ≡ is_mark word.now }
{
    is_same(word, b"[pid")
        || are_mark_bytes(word)
        || (word.starts_with(b"[") && word.ends_with(b"]"))
}

fn are_mark_bytes(word: &[u8]) -> bool
    ensures every { result ≡ list_all is_mark_byte word.now }
{
    word.iter().all(|byte| is_mark_byte(*byte))
}

#[tactic(auto, unfolding(crate::specs::Lines::is_mark_byte))]
fn is_mark_byte(byte: u8) -> bool
    ensures mark { result ≡ is_mark_byte byte }
{
    matches!(byte, b'0'..=b':' | b'.' | b'[' | b']')
}

/// Whether a word begins what is no call.
#[tactic(auto, unfolding(crate::specs::Lines::is_event))]
pub(crate) fn is_event(word: &[u8]) -> bool
    ensures event { result ≡ is_event word.now }
{
    is_same(word, b"+++")
        || is_same(word, b"---")
        || is_same(word, b"<...")
        || is_same(word, b"strace:")
        || is_same(word, b"Process")
        || is_same(word, b">")
}

// The call with a name, where no word stands behind that, and with the arguments in a text.
#[tactic(auto, unfolding(crate::specs::Lines::call_in))]
fn call_in(architecture: Architecture, name: &[u8], words: Words<'_>, text: &[u8]) -> Option<Call>
    ensures call { result ≡ call_in architecture name.now (words_of words.entry.0.now) text.now }
{
    no_word(words)?;
    let nr = number_in(architecture, name)?;
    call_of(architecture, Written::of(architecture, name), nr, text)
}

fn call_of(architecture: Architecture, written: Written, nr: u32, text: &[u8]) -> Option<Call>
    ensures call { result ≡ call_of architecture written nr text.now }
{
    if is_unfinished(text) {
        begun_call(architecture, written, nr, text)
    } else {
        whole_call(architecture, written, nr, text)
    }
}

/// Whether a call has not returned, of which this stands behind its opening parenthesis.
pub(crate) fn is_unfinished(text: &[u8]) -> bool
    ensures unfinished { result ≡ is_unfinished text.now }
{
    text.ends_with(UNFINISHED)
}

#[tactic(auto, unfolding(crate::specs::Lines::whole_call))]
fn whole_call(architecture: Architecture, written: Written, nr: u32, text: &[u8]) -> Option<Call>
    ensures call { result ≡ whole_call architecture written nr text.now }
{
    let shown = Shown::of(written, text)?;
    if !is_returned(shown.behind) {
        return None;
    }
    if is_named(text) {
        return Some(Call::with(nr, &clone_registers(architecture, shown.args.as_slice())));
    }
    Some(Call::with(nr, shown.args.as_slice()))
}

#[tactic(auto, unfolding(crate::specs::Lines::begun_call))]
fn begun_call(architecture: Architecture, written: Written, nr: u32, text: &[u8]) -> Option<Call>
    ensures call { result ≡ begun_call architecture written nr text.now }
{
    let begun = &text[..text.len().saturating_sub(UNFINISHED.len())];
    let shown = Shown::of(written, begun)?;
    no_word(Words(shown.behind))?;
    if is_named(text) {
        return Some(Call::begun(nr, &clone_registers(architecture, shown.args.as_slice())));
    }
    Some(Call::begun(nr, shown.args.as_slice()))
}

// Whether these are the arguments of clone, which strace names.
fn is_named(text: &[u8]) -> bool
    ensures named { result ≡ starts_with nat_eq text.now (codes "child_stack=") }
{
    text.starts_with(b"child_stack=")
}

// The registers of clone with arguments of which strace writes the stack first.
fn clone_registers(architecture: Architecture, args: &[Value]) -> [Value; 5]
    ensures registers { result ≡ clone_registers architecture args.now }
{
    let stack = value_at(args, 0, Value::Unknown);
    let flags = value_at(args, 1, Value::Unknown);
    let (first, second) = match architecture {
        Architecture::S390x => (stack, flags),
        _ => (flags, stack),
    };
    [
        first,
        second,
        Value::Unknown,
        Value::Unknown,
        Value::Unknown,
    ]
}

fn number_in(architecture: Architecture, name: &[u8]) -> Option<u32>
    ensures number { result ≡ number_in architecture name.now }
{
    match number(architecture, name) {
        Some(nr) => Some(nr),
        None => number_shown(name),
    }
}

// The number that stands for a call without a name.
#[tactic(auto, unfolding(crate::specs::Lines::number_shown))]
fn number_shown(name: &[u8]) -> Option<u32>
    ensures number { result ≡ number_shown name.now }
{
    if !name.starts_with(b"syscall_0x") {
        return None;
    }
    let nr = number_up_to(&name[8..], 0xffff_ffff)?;
    Some(nr as u32)
}

// Whether a call has returned: its parenthesis stands here, and its result.
#[tactic(auto, unfolding(crate::specs::Lines::is_returned))]
fn is_returned(text: &[u8]) -> bool
    ensures returned { result ≡ is_returned text.now }
{
    text.starts_with(b")") && is_answer(Words(&text[1..]))
}

// Whether these words are a call's result.
fn is_answer(mut words: Words<'_>) -> bool
    ensures answer { result ≡ is_answer (words_of words.entry.0.now) }
{
    match words.next() {
        Some(first) => words.next().is_some() && is_same(first, b"="),
        None => false,
    }
}
