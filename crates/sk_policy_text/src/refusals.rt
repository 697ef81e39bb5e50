//! What is said of a policy's text that is refused.
ghost use Rattle.std.specs.Prelude.{◌≡◌, ◌++◌, slice_get, IfOk, OnOk, string_bytes};
ghost use Rattle.std.specs.Option.{option_map};
ghost use Rattle.sk_conditions.specs.Comparing.{expectation_name, expectation_of};
ghost use Rattle.sk_policy_text.specs.Words.{seen, words_of_text};
ghost use Rattle.sk_policy_text.specs.Views.{all_seen};
ghost use Rattle.sk_policy_text.specs.PolicyTexts.{last_of, before_text, behind_text, before_verdict, expectation_text, place_text, is_several, is_several_at, several_text, sentence_text, wanted_text, on_text, more_text, expected_text, misplaced_text, condition_text, wrong_text, twice_text, policy_text, refusal_text};

use crate::condition::ConditionFault;
use crate::policy_fault::{Misplaced, PolicyFault, Twice, Wrong};
use crate::reading::words_in;
use crate::refusal::Refusal;
use crate::sentence::{Expected, SentenceFault};
use crate::shown::{behind_where, last_word, push_line, push_shown, sentence_from, word_at};
use crate::word::Word;
use sk_conditions::Expectation;
use sk_names::Architecture;
use sk_text::is_same;
use std::alloc::{AllocError, Global};
use std::fmt::Write;

/// What is wrong with a policy's text, and what was expected, without its file's name and without a line's end.
pub fn refusal_text(alloc: Global, text: &[u8], refusal: Refusal) -> Result<String, AllocError>
    ensures text { IfOk result (λ said. string_bytes said ≡ refusal_text (words_of_text text.now) refusal) }
{
    let words = words_in(alloc, text)?;
    let mut said = String::new(alloc);
    push_refusal(&mut said, &words, refusal)?;
    Ok(said)
}

fn push_refusal(text: &mut String, words: &[Word<'_>], refusal: Refusal) -> Result<(), AllocError>
    ensures text { OnOk result (string_bytes text.new ≡ string_bytes text.old ++ refusal_text (all_seen words.now) refusal) }
{
    match refusal {
        Refusal::Sentence(by, line, why) => push_sentence(
            text,
            by,
            sentence_from(words, line),
            why,
        ),
        Refusal::Expectation(line, value) => push_expectation(text, line, Expectation::of(value)),
        Refusal::Policy(fault) => push_policy(text, words, fault),
        Refusal::TooLong => text.push_str("its filter would have more than 4096 instructions"),
        Refusal::Memory => text.push_str("memory was refused"),
    }
}

fn push_before_verdict(text: &mut String, expectation: Expectation) -> Result<(), AllocError>
    ensures text { OnOk result (string_bytes text.new ≡ string_bytes text.old ++ before_verdict (expectation_name expectation)) }
{
    match expectation.name() {
        Some(name) => {
            text.push_str(name)?;
            text.push_str(": ")
        }
        None => Ok(()),
    }
}

fn push_expectation(
    text: &mut String,
    line: usize,
    expectation: Expectation,
) -> Result<(), AllocError>
    ensures text { OnOk result (string_bytes text.new ≡ string_bytes text.old ++ expectation_text line expectation) }
{
    push_line(text, line)?;
    push_before_verdict(text, expectation)?;
    text.push_str("expected a verdict of a filter, as allow or errno/EPERM")
}

fn push_before(
    text: &mut String,
    word: Option<Word<'_>>,
    last: Option<Word<'_>>,
) -> Result<(), AllocError>
    ensures text { OnOk result (string_bytes text.new ≡ string_bytes text.old ++ before_text (option_map seen word.entry) (option_map seen last.entry)) }
{
    match (word, last) {
        (Some(word), _) => {
            push_line(text, word.line)?;
            push_shown(text, word.text)?;
            text.push_str(": expected ")
        }
        (None, Some(last)) => {
            push_line(text, last.line)?;
            text.push_str("expected ")
        }
        (None, None) => text.push_str("expected "),
    }
}

fn push_behind(
    text: &mut String,
    word: Option<Word<'_>>,
    last: Option<Word<'_>>,
) -> Result<(), AllocError>
    ensures text { OnOk result (string_bytes text.new ≡ string_bytes text.old ++ behind_text (option_map seen word.entry) (option_map seen last.entry)) }
{
    match (word, last) {
        (None, Some(last)) => {
            text.push_str(" behind ")?;
            push_shown(text, last.text)
        }
        _ => Ok(()),
    }
}

#[tactic(auto, unfolding(crate::specs::PolicyTexts::wanted_text))]
fn wanted_text(expected: Expected) -> &'static str
    ensures text { result.now ≡ wanted_text expected }
{
    match expected {
        Expected::Architecture => "the name of an architecture",
        Expected::Verdict => "a verdict, as allow or errno/EPERM",
        Expected::NameOfError => "the name of the error with the number before it",
        Expected::Call => "the name of a call on ",
        Expected::NameOfCall => "the name of the call with the number before it",
        Expected::CommaOrVerdict => "a comma, a verdict or the end of the line",
        Expected::WhereOrElse => "where CONDITION or else",
        Expected::Condition => "a condition",
        Expected::End => "the end of the line",
    }
}

// Of which architecture a call is to be.
#[tactic(auto, unfolding(crate::specs::PolicyTexts::on_text))]
fn on_text(by: Architecture, expected: Expected) -> &'static str
    ensures text { result.now ≡ on_text by expected }
{
    match expected {
        Expected::Call => by.text(),
        _ => "",
    }
}

#[tactic(auto, unfolding(crate::specs::PolicyTexts::more_text))]
fn more_text(expected: Expected) -> &'static str
    ensures text { result.now ≡ more_text expected }
{
    match expected {
        Expected::Call => ", or its number",
        _ => "",
    }
}

fn push_expected(text: &mut String, by: Architecture, expected: Expected) -> Result<(), AllocError>
    ensures text { OnOk result (string_bytes text.new ≡ string_bytes text.old ++ expected_text by expected) }
{
    text.push_str(wanted_text(expected))?;
    text.push_str(on_text(by, expected))?;
    text.push_str(more_text(expected))
}

// Whether several verdicts stand where one was expected.
fn is_several(word: &[u8], expected: Expected) -> bool
    ensures several { result ≡ is_several word.now expected }
{
    match expected {
        Expected::End => is_same(word, b"|"),
        Expected::WhereOrElse => is_same(word, b"|"),
        Expected::Verdict => is_same(word, b"any"),
        Expected::CommaOrVerdict => is_same(word, b"any"),
        _ => false,
    }
}

fn is_several_at(word: Option<Word<'_>>, expected: Expected) -> bool
    ensures several { result ≡ is_several_at (option_map seen word.entry) expected }
{
    match word {
        Some(word) => is_several(word.text, expected),
        None => false,
    }
}

fn push_several(text: &mut String, word: Option<Word<'_>>) -> Result<(), AllocError>
    ensures text { OnOk result (string_bytes text.new ≡ string_bytes text.old ++ several_text (option_map seen word.entry)) }
{
    if let Some(word) = word {
        push_line(text, word.line)?;
    }
    text.push_str("several verdicts: expected one")
}

fn push_place(
    text: &mut String,
    by: Architecture,
    word: Option<Word<'_>>,
    last: Option<Word<'_>>,
    expected: Expected,
) -> Result<(), AllocError>
    ensures text { OnOk result (string_bytes text.new ≡ string_bytes text.old
        ++ place_text (option_map seen word.entry) (option_map seen last.entry) (expected_text by expected)) }
{
    push_before(text, word, last)?;
    push_expected(text, by, expected)?;
    push_behind(text, word, last)
}

fn push_sentence(
    text: &mut String,
    by: Architecture,
    words: &[Word<'_>],
    why: SentenceFault,
) -> Result<(), AllocError>
    ensures text { OnOk result (string_bytes text.new ≡ string_bytes text.old ++ sentence_text by (all_seen words.now) why) }
{
    let word = word_at(words, why.at);
    if is_several_at(word, why.expected) {
        push_several(text, word)
    } else {
        push_place(text, by, word, last_word(words), why.expected)
    }
}

fn push_condition(
    text: &mut String,
    words: &[Word<'_>],
    why: ConditionFault,
) -> Result<(), AllocError>
    ensures text { OnOk result (string_bytes text.new ≡ string_bytes text.old ++ condition_text (all_seen words.now) why) }
{
    match why {
        ConditionFault::NotUnderstood(at) => push_spot(text, words, at, "a condition"),
        ConditionFault::TooDeep(at) => {
            push_spot(text, words, at, "no more than 64 brackets in each other")
        }
        ConditionFault::Memory => text.push_str("memory was refused"),
    }
}

fn push_spot(
    text: &mut String,
    words: &[Word<'_>],
    at: usize,
    wanted: &str,
) -> Result<(), AllocError>
    ensures text { OnOk result (string_bytes text.new ≡ string_bytes text.old
        ++ place_text (slice_get (all_seen words.now) at) (last_of (all_seen words.now)) wanted.now) }
{
    let word = word_at(words, at);
    let last = last_word(words);
    push_before(text, word, last)?;
    text.push_str(wanted)?;
    push_behind(text, word, last)
}

fn misplaced_text(why: Misplaced) -> &'static str
    ensures text { result.now ≡ misplaced_text why }
{
    match why {
        Misplaced::NoRow => "a case: expected a row without a verdict above it",
        Misplaced::BehindElse => "a case: expected none behind else",
        Misplaced::NoElse => "expected a line VERDICT else below the row",
        Misplaced::DefaultTwice => "default: stands twice",
        Misplaced::OthersTwice => "others: stands twice",
        Misplaced::ArchNotFirst => "arch: expected before all other lines",
    }
}

fn push_wrong(
    text: &mut String,
    words: &[Word<'_>],
    line: usize,
    wrong: Wrong,
) -> Result<(), AllocError>
    ensures text { OnOk result (string_bytes text.new ≡ string_bytes text.old ++ wrong_text (all_seen words.now) line wrong) }
{
    match wrong {
        Wrong::Misplaced(why) => {
            push_line(text, line)?;
            text.push_str(misplaced_text(why))
        }
        Wrong::Unread(why) => push_condition(text, behind_where(sentence_from(words, line)), why),
    }
}

fn push_twice(text: &mut String, it: Twice) -> Result<(), AllocError>
    ensures text { OnOk result (string_bytes text.new ≡ string_bytes text.old ++ twice_text it) }
{
    push_line(text, it.line)?;
    write!(text, "{} stands in line {} already", it.number, it.earlier)
}

fn push_policy(text: &mut String, words: &[Word<'_>], fault: PolicyFault) -> Result<(), AllocError>
    ensures text { OnOk result (string_bytes text.new ≡ string_bytes text.old ++ policy_text (all_seen words.now) fault) }
{
    match fault {
        PolicyFault::Wrong(line, wrong) => push_wrong(text, words, line, wrong),
        PolicyFault::Twice(it) => push_twice(text, it),
        PolicyFault::Missing(number) => write!(
            text,
            "{number}: no row has this number: expected one, or a line default VERDICT"
        ),
        PolicyFault::TooLong => text.push_str("its filter would have more than 4096 instructions"),
        PolicyFault::Memory => text.push_str("memory was refused"),
    }
}
