//! Verdicts, by the words of seccomp(2) and the names of errors, and words that say what is expected of one.
ghost use Rattle.std.specs.Prelude.{◌≡◌, ◌≤◌, ◌∷◌, map, is_some, IfSome};
ghost use Rattle.std.specs.Option.{option_map, option_or};
ghost use Rattle.sk_replay.specs.WordCalls.{plain_number};
ghost use Rattle.sk_insn.specs.Actions.{has_value};
ghost use Rattle.sk_filter.specs.Errors.{error_number};
ghost use Rattle.sk_conditions.specs.Comparing.{expectation_name, value_of};
ghost use Rattle.sk_policy_text.specs.Words.{seen};
ghost use Rattle.sk_policy_text.specs.Verdicts.{has_slash, before_slash, behind_slash, action_in, action_value, errno_of, data_of, data_left_out, data_in, expectation_named, is_name, verdict_of_word, error_given, error_in};
ghost use Rattle.sk_policy_text.specs.Sentences.{begins_error, begins_verdict, behind_error, ended, only_verdict, verdict};
ghost use Rattle.sk_policy_text.specs.Views.{all_seen, left, with_left};

use crate::sentence::Expected;
use crate::stop::{Stop, ended};
use crate::word::Word;
use sk_conditions::Expectation;
use sk_filter::error_number;
use sk_insn::Action;
use sk_replay::plain_number;
use sk_text::{cut, is_same};

/// The greatest number of an error: MAX_ERRNO of linux/err.h.
const MOST_ERRNO: u64 = 4095;

/// A verdict, and nothing behind it.
#[tactic(auto, unfolding(crate::specs::Sentences::only_verdict))]
pub fn only_verdict(words: &[Word<'_>]) -> Result<u32, Stop>
    ensures exact { result ≡ only_verdict (all_seen words.now) }
{
    let (value, rest) = verdict(words)?;
    ended(rest)?;
    Ok(value)
}

/// The verdict with which words begin, and what is left behind it.
#[tactic(auto, unfolding(crate::specs::Sentences::verdict))]
pub fn verdict<'a>(words: &'a [Word<'a>]) -> Result<(u32, &'a [Word<'a>]), Stop>
    ensures exact { with_left result ≡ verdict (all_seen words.now) }
{
    let Some((word, rest)) = words.split_first() else {
        return Err(Stop::at(words, Expected::Verdict));
    };
    let value = verdict_of_word(word.text).ok_or(Stop::at(words, Expected::Verdict))?;
    let left = behind_error(error_in(word.text), rest)?;
    Ok((value, left))
}

// What is left behind the name of the error with a number, which may stand behind it.
#[tactic(auto, unfolding(crate::specs::Sentences::behind_error))]
fn behind_error<'a>(number: Option<u32>, words: &'a [Word<'a>]) -> Result<&'a [Word<'a>], Stop>
    ensures exact { left result ≡ behind_error number (all_seen words.now) }
{
    let Some(number) = number else {
        return Ok(words);
    };
    let Some((word, rest)) = words.split_first() else {
        return Ok(words);
    };
    if !begins_error(word.text) {
        return Ok(words);
    }
    if has_number(number, error_number(word.text)) {
        Ok(rest)
    } else {
        Err(Stop::at(words, Expected::NameOfError))
    }
}

fn begins_error(text: &[u8]) -> bool
    ensures first { result ≡ begins_error text.now }
{
    match text.split_first() {
        Some((byte, _)) => *byte == b'E',
        None => false,
    }
}

fn has_number(wanted: u32, number: Option<u32>) -> bool
    ensures same { result ≡ has_value wanted number }
{
    match number {
        Some(number) => number == wanted,
        None => false,
    }
}

/// Whether a word begins a verdict: an action's name is what it has before a slash, or it says by itself what is expected of one.
pub fn begins_verdict(word: &Word<'_>) -> bool
    ensures action { result ≡ begins_verdict (seen word.now) }
{
    action_in(word.text).is_some() || expectation_named(word.text).is_some()
}

// The value that a word asks for, or that stands for what it expects.
#[tactic(auto, unfolding(crate::specs::Verdicts::verdict_of_word))]
fn verdict_of_word(word: &[u8]) -> Option<u32>
    ensures value { result ≡ verdict_of_word word.now }
{
    match action_value(word) {
        Some(value) => Some(value),
        None => expected_value(word),
    }
}

fn expected_value(word: &[u8]) -> Option<u32>
    ensures value { result ≡ option_map value_of (expectation_named word.now) }
{
    let expectation = expectation_named(word)?;
    Some(expectation.value())
}

fn expectation_named(word: &[u8]) -> Option<Expectation>
    ensures expectation { result ≡ expectation_named word.now }
{
    if is_name_of(word, Expectation::Refused) {
        Some(Expectation::Refused)
    } else if is_name_of(word, Expectation::Performed) {
        Some(Expectation::Performed)
    } else {
        None
    }
}

fn is_name_of(word: &[u8], expectation: Expectation) -> bool
    ensures name { result ≡ is_name word.now (expectation_name expectation) }
{
    match expectation.name() {
        Some(name) => is_same(word, name.as_bytes()),
        None => false,
    }
}

/// The value that a word asks for, by an action and its data.
#[tactic(auto, unfolding(crate::specs::Verdicts::action_value))]
pub fn action_value(word: &[u8]) -> Option<u32>
    ensures value { result ≡ action_value word.now }
{
    let action = action_in(word)?;
    let value = action.value()?;
    let given = data_in(action, word)?;
    Some(value + given)
}

// The number of an error, where one stands behind `errno`.
#[tactic(auto, unfolding(crate::specs::Verdicts::error_in))]
fn error_in(word: &[u8]) -> Option<u32>
    ensures number { result ≡ error_in word.now }
{
    let action = action_in(word)?;
    error_given(action, behind_slash(word))
}

fn error_given(action: Action, text: &[u8]) -> Option<u32>
    ensures number { result ≡ error_given action text.now }
{
    match action {
        Action::Errno => errno_of(text),
        _ => None,
    }
}

// The action with the name that stands before the slash.
fn action_in(word: &[u8]) -> Option<Action>
    ensures action { result ≡ action_in word.now }
{
    let (name, _given) = cut(word, b'/');
    Action::named(name)
}

fn behind_slash(word: &[u8]) -> &[u8]
    ensures behind { result.now ≡ behind_slash word.now }
{
    let (_name, given) = cut(word, b'/');
    given
}

#[tactic(auto, unfolding(crate::specs::Verdicts::data_in))]
fn data_in(action: Action, word: &[u8]) -> Option<u32>
    ensures given { result ≡ data_in action word.now }
    ensures bound { IfSome result (λ given. given ≤ 65535) }
{
    if word.contains(&b'/') {
        data_of(action, behind_slash(word))
    } else {
        data_left_out(action)
    }
}

fn data_left_out(action: Action) -> Option<u32>
    ensures given { result ≡ data_left_out action }
    ensures bound { IfSome result (λ given. given ≤ 65535) }
{
    match action {
        Action::Errno => None,
        _ => Some(0),
    }
}

// The data that a text is for an action.
fn data_of(action: Action, text: &[u8]) -> Option<u32>
    ensures given { result ≡ data_of action text.now }
    ensures bound { IfSome result (λ given. given ≤ 65535) }
{
    match action {
        Action::Errno => errno_or_name(text),
        _ => u16_of(text),
    }
}

fn errno_or_name(text: &[u8]) -> Option<u32>
    ensures given { result ≡ option_or (errno_of text.now) (error_number text.now) }
    ensures bound { IfSome result (λ given. given ≤ 65535) }
{
    match errno_of(text) {
        Some(number) => Some(number),
        None => error_number(text),
    }
}

fn errno_of(text: &[u8]) -> Option<u32>
    ensures number { result ≡ errno_of text.now }
    ensures bound { IfSome result (λ number. number ≤ 4095) }
{
    let number = plain_number(text, MOST_ERRNO)?;
    Some(number as u32)
}

fn u16_of(text: &[u8]) -> Option<u32>
    ensures number { result ≡ plain_number 65535 text.now }
    ensures bound { IfSome result (λ number. number ≤ 65535) }
{
    let number = plain_number(text, 65535)?;
    Some(number as u32)
}
