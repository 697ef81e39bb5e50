//! `skern eval`: what filters answer on a call, each by itself and all together.
ghost use Rattle.std.specs.Prelude.{◌≡◌, ◌++◌, IfOk, OnOk, [], map, string_bytes};
ghost use Rattle.sk_filter.specs.Meaning.{Returned};
ghost use Rattle.sk_text.specs.Lines.{lines_of};
ghost use Rattle.sk_engines.specs.EvalInput.{gathered, nothing_yet};
ghost use Rattle.sk_engines.specs.Filters.{chained};
ghost use Rattle.sk_engines.specs.EvalCommand.{asked_answer, chained_answer, chain_text, meaning_line, verdict_line, value_text};
ghost use Rattle.sk_engines.specs.Reply.{output_of};

use crate::engine::Command;
use crate::eval_input::{Asked, gather};
use crate::filters::attach_images;
use crate::refusal::refusal_reply;
use crate::reply::Reply;
use sk_filter::{Filters, Ran, first_of};
use sk_insn::{Action, Record};
use sk_text::hex_word;
use std::alloc::{AllocError, Global};
use std::fmt::Write;

// `skern eval`.
pub(crate) struct Eval;

impl Command for Eval {
    ghost answers = { λ text. asked_answer (gathered 1 nothing_yet (lines_of text)) };

    fn reply(alloc: Global, text: &[u8]) -> Result<Reply, AllocError> {
        match gather(alloc, text)? {
            Ok(asked) => asked_reply(alloc, &asked),
            Err(number) => Ok(Reply::at_line(number, "not understood")),
        }
    }
}

fn asked_reply(alloc: Global, asked: &Asked) -> Result<Reply, AllocError>
    ensures answer { IfOk result (λ reply.
        output_of reply ≡ chained_answer asked.now.call (chained 0 [] (map (λ image. image.items) asked.now.images.items))) }
{
    match attach_images(alloc, &asked.images)? {
        Ok(filters) => Ok(Reply::Done(chain_text(alloc, &asked.call, &filters)?)),
        Err((number, refusal)) => Ok(refusal_reply(number, refusal)),
    }
}

fn chain_text(alloc: Global, call: &Record, filters: &Filters) -> Result<String, AllocError>
    ensures text { IfOk result (λ text. string_bytes text ≡ chain_text call.now filters.now) }
{
    let mut text = String::new(alloc);
    let mut values = Vec::with_capacity(alloc, filters.len())?;
    for program in filters.programs() {
        let ran = sk_filter::run(program, call);
        push_ran(&mut text, ran)?;
        values.push(ran.value)?;
    }
    push_verdict(&mut text, values.len(), first_of(&values))?;
    Ok(text)
}

fn push_ran(text: &mut String, ran: Ran) -> Result<(), AllocError>
    ensures text { OnOk result (string_bytes text.new ≡
        string_bytes text.old ++ meaning_line (Returned ran.value ran.steps)) }
{
    let steps = ran.steps;
    text.push_str("return 0x")?;
    push_value(text, ran.value)?;
    writeln!(text, " steps {steps}")
}

fn push_verdict(text: &mut String, count: usize, value: u32) -> Result<(), AllocError>
    ensures text { OnOk result (string_bytes text.new ≡ string_bytes text.old ++ verdict_line count value) }
{
    if count == 1 {
        return Ok(());
    }
    text.push_str("verdict 0x")?;
    push_value(text, value)?;
    text.push_str("\n")
}

#[tactic(auto, unfolding(crate::specs::EvalCommand::value_text))]
fn push_value(text: &mut String, value: u32) -> Result<(), AllocError>
    ensures text { OnOk result (string_bytes text.new ≡ string_bytes text.old ++ value_text value) }
{
    let digits = hex_word(value);
    let name = Action::of(value).name();
    let given = value % 0x1_0000;
    write!(text, "{digits} {name} data {given}")
}
