//! From a text of expectations to the image of the filter that answers, in place of verdicts, what is expected of them.
ghost use Rattle.std.specs.Prelude.{◌≡◌, ◌++◌, None, IfOk, IfErr, OnOk};
ghost use Rattle.sk_policy_text.specs.Expecting.{IsExpected, IsNotExpected, added_default, added_others, anything, closed, completed, else_before, else_of, wanting_behind};

use crate::expectation::Expectations;
use crate::making::{built, sentences_in};
use crate::reading::words_in;
use crate::refusal::Refusal;
use crate::sentence::Sentence;
use crate::stated::{Stated, architecture_of, default_of, stated_others};
use sk_conditions::Expectation;
use std::alloc::{AllocError, Global};

// What stands for no expectation.
fn anything() -> u32
    ensures value { result ≡ anything }
{
    Expectation::Anything.value()
}

// Adds `else` where a row wants it, which is named by its line.
fn push_else(text: &mut Vec<Stated<'_>>, wanting: Option<usize>) -> Result<(), AllocError>
    ensures added { OnOk result (text.new.items ≡ text.old.items ++ else_of wanting) }
{
    if let Some(line) = wanting {
        text.push(Stated {
            line,
            sentence: Sentence::Else(anything()),
        })?;
    }
    Ok(())
}

// Adds it before a sentence that is no case.
fn push_else_before(
    text: &mut Vec<Stated<'_>>,
    wanting: Option<usize>,
    sentence: &Sentence<'_>,
) -> Result<(), AllocError>
    ensures added { OnOk result (text.new.items ≡ text.old.items ++ else_before wanting sentence.now) }
{
    match sentence {
        Sentence::Case(_, _) => Ok(()),
        Sentence::Else(_) => Ok(()),
        _ => push_else(text, wanting),
    }
}

// The line of the row that wants `else` behind a sentence.
fn wanting_behind(wanting: Option<usize>, line: usize, sentence: &Sentence<'_>) -> Option<usize>
    ensures line { result ≡ wanting_behind wanting line sentence.now }
{
    match sentence {
        Sentence::Row(_, None) => Some(line),
        Sentence::Case(_, _) => wanting,
        _ => None,
    }
}

// With an `else` for each row that has no verdict.
fn closed<'a>(alloc: Global, text: Vec<Stated<'a>>) -> Result<Vec<Stated<'a>>, AllocError>
    ensures closed { IfOk result (λ whole. whole.items ≡ closed None text.entry.items) }
{
    let mut whole = Vec::new(alloc);
    let mut wanting = None;
    for stated in text {
        push_else_before(&mut whole, wanting, &stated.sentence)?;
        wanting = wanting_behind(wanting, stated.line, &stated.sentence);
        whole.push(stated)?;
    }
    push_else(&mut whole, wanting)?;
    Ok(whole)
}

fn push_default(text: &mut Vec<Stated<'_>>, stated: Option<u32>) -> Result<(), AllocError>
    ensures added { OnOk result (text.new.items ≡ text.old.items ++ added_default stated) }
{
    if stated.is_none() {
        text.push(Stated {
            line: 0,
            sentence: Sentence::Default(anything()),
        })?;
    }
    Ok(())
}

fn push_others(text: &mut Vec<Stated<'_>>, stated: Option<u32>) -> Result<(), AllocError>
    ensures added { OnOk result (text.new.items ≡ text.old.items ++ added_others stated) }
{
    if stated.is_none() {
        text.push(Stated {
            line: 0,
            sentence: Sentence::Others(anything()),
        })?;
    }
    Ok(())
}

// With what it leaves out.
fn completed<'a>(alloc: Global, text: Vec<Stated<'a>>) -> Result<Vec<Stated<'a>>, AllocError>
    ensures completed { IfOk result (λ whole. whole.items ≡ completed text.entry.items) }
{
    let default = default_of(&text);
    let others = stated_others(&text);
    let mut whole = closed(alloc, text)?;
    push_default(&mut whole, default)?;
    push_others(&mut whole, others)?;
    Ok(whole)
}

/// What a text expects of calls: the filter gives each call of the architecture the value of what is expected of its verdict, and anything
/// may happen where nothing is said; or the first fault.
pub fn expectations(alloc: Global, text: &[u8]) -> Result<Expectations, Refusal>
    ensures expected { IfOk result (IsExpected text.now) }
    ensures fault { IfErr result (IsNotExpected text.now) }
{
    let words = words_in(alloc, text)?;
    let stated = sentences_in(alloc, &words)?;
    let architecture = architecture_of(&stated);
    let says_others = stated_others(&stated).is_some();
    let whole = completed(alloc, stated)?;
    let image = built(alloc, &whole)?;
    Ok(Expectations {
        architecture,
        says_others,
        image,
    })
}
