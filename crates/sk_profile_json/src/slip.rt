//! What people write in JSON, and JSON does not have.
ghost use Rattle.std.specs.Prelude.{◌≡◌, ◌≤◌, length};
ghost use Rattle.sk_profile_json.specs.Slips.{column_of, extra_at, in_string, is_comment, is_late_comma, is_outside, line_of, on_line, past, slip_at, slip_here, slip_of};

use crate::form::{first_of, is_byte};

/// What stands in a text, and in no JSON.
#[derive(Clone, Copy, Debug, Drop, PartialEq, Eq)]
pub enum Extra {
    /// A comment: `#`, `//` or `/*`.
    Comment,
    /// A comma before the bracket that closes.
    Comma,
}

/// The first of these in a text, outside of its strings: where it begins, by its line and by its byte in the line, each from 1.
#[derive(Clone, Copy, Debug, Drop, PartialEq, Eq)]
pub struct Slip {
    pub line: usize,
    pub column: usize,
    pub extra: Extra,
}

/// Where the next byte of a text stands.
#[derive(Clone, Copy, Debug, Drop, PartialEq, Eq)]
pub(crate) enum Reading {
    /// Outside of strings.
    Outside,
    /// In a string.
    Inside,
    /// In a string, behind a backslash.
    Escaped,
    /// Behind a string that no quotation mark ends on its line.
    Lost,
}

/// What stands first in a text outside of its strings that no JSON has. It asks nothing of the text, which may be JSON.
#[tactic(auto, unfolding(crate::specs::Slips::slip_of))]
pub(crate) fn slip_of(text: &[u8]) -> Option<Slip>
    ensures first { result ≡ slip_of text.now }
{
    let mut reading = Reading::Outside;
    for (place, byte) in text.iter().enumerate() {
        if let Some(slip) = slip_here(reading, &text[..place], *byte, &text[place + 1..]) {
            return Some(slip);
        }
        reading = past(reading, *byte);
    }
    None
}

// What begins at a byte between others, where it stands so.
fn slip_here(reading: Reading, before: &[u8], byte: u8, behind: &[u8]) -> Option<Slip>
    ensures here { result ≡ slip_here reading before.now byte behind.now }
{
    if !is_outside(reading) {
        return None;
    }
    let extra = extra_at(byte, behind)?;
    Some(slip_at(before, extra))
}

fn is_outside(reading: Reading) -> bool
    ensures out { result ≡ is_outside reading }
{
    match reading {
        Reading::Outside => true,
        Reading::Inside | Reading::Escaped | Reading::Lost => false,
    }
}

fn past(reading: Reading, byte: u8) -> Reading
    ensures past { result ≡ past reading byte }
{
    match reading {
        Reading::Outside if byte == b'"' => Reading::Inside,
        Reading::Outside => Reading::Outside,
        Reading::Inside => in_string(byte),
        Reading::Escaped if byte < b' ' => Reading::Lost,
        Reading::Escaped => Reading::Inside,
        Reading::Lost => Reading::Lost,
    }
}

fn in_string(byte: u8) -> Reading
    ensures past { result ≡ in_string byte }
{
    match byte {
        b'"' => Reading::Outside,
        b'\\' => Reading::Escaped,
        0..b' ' => Reading::Lost,
        _ => Reading::Inside,
    }
}

// What begins at a byte, where these are behind it.
fn extra_at(byte: u8, behind: &[u8]) -> Option<Extra>
    ensures extra { result ≡ extra_at byte behind.now }
{
    if is_comment(byte, behind.first().copied()) {
        Some(Extra::Comment)
    } else if is_late_comma(byte, first_of(behind)) {
        Some(Extra::Comma)
    } else {
        None
    }
}

fn is_comment(byte: u8, next: Option<u8>) -> bool
    ensures comment { result ≡ is_comment byte next }
{
    byte == b'#' || byte == b'/' && (is_byte(b'/', next) || is_byte(b'*', next))
}

fn is_late_comma(byte: u8, next: Option<u8>) -> bool
    ensures comma { result ≡ is_late_comma byte next }
{
    byte == b',' && (is_byte(b']', next) || is_byte(b'}', next))
}

fn slip_at(before: &[u8], extra: Extra) -> Slip
    ensures at { result ≡ slip_at before.now extra }
{
    Slip {
        line: line_of(before),
        column: column_of(before),
        extra,
    }
}

pub(crate) fn line_of(before: &[u8]) -> usize
    ensures line { result ≡ line_of before.now }
{
    before.iter().filter(|byte| **byte == b'\n').count() + 1
}

fn column_of(before: &[u8]) -> usize
    ensures column { result ≡ column_of before.now }
{
    on_line(before) + 1
}

fn on_line(before: &[u8]) -> usize
    ensures count { result ≡ on_line before.now }
    ensures within { result ≤ length before.now }
{
    before
        .iter()
        .rev()
        .take_while(|byte| **byte != b'\n')
        .count()
}
