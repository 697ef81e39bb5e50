//! The text of all paths, and where the verdict comes from.
ghost use Rattle.std.specs.Prelude.{◌≡◌, ◌++◌, IfOk, OnOk, string_bytes};
ghost use Rattle.sk_show.specs.declared.held.Held.TheVariants.{Other};
ghost use Rattle.sk_show.specs.PathText.{IsSource, TellsWhy, filter_text, filters_text, source_text, steps_text, verdict_line};

use crate::answering;
use crate::held::{Held, held_behind};
use crate::path_line::push_step;
use crate::tracing::{Step, trace};
use sk_filter::{Chain, Checked, push_verdict};
use sk_insn::Record;
use sk_names::Architecture;
use std::alloc::{AllocError, Global};
use std::fmt::Write;

/// Why a call gets its verdict of a chain. The names beside the numbers that it is compared with are those of the calls of
/// this architecture.
pub fn why(
    alloc: Global,
    architecture: Architecture,
    chain: &Chain,
    call: &Record,
) -> Result<String, AllocError>
    ensures told { IfOk result (λ text. TellsWhy architecture chain.now call.now (string_bytes text)) }
{
    let mut text = String::new(alloc);
    push_filters(alloc, architecture, &mut text, chain, call)?;
    let verdict = chain.verdict(call);
    push_end(&mut text, verdict, source(chain, call, verdict))?;
    Ok(text)
}

fn source(chain: &Chain, call: &Record, value: u32) -> Option<(usize, usize)>
    ensures source { IsSource chain.now call.now value result }
{
    answering(chain, call, value)
}

fn push_filters(
    alloc: Global,
    architecture: Architecture,
    text: &mut String,
    chain: &Chain,
    call: &Record,
) -> Result<(), AllocError>
    ensures text { OnOk result (string_bytes text.new ≡ string_bytes text.old ++ filters_text architecture chain.now call.now) }
{
    let mut older = chain.len();
    for program in chain.programs() {
        older -= 1;
        push_filter(alloc, architecture, text, older, program, call)?;
    }
    Ok(())
}

#[tactic(auto, unfolding(crate::specs::PathText::filter_text))]
fn push_filter(
    alloc: Global,
    architecture: Architecture,
    text: &mut String,
    number: usize,
    program: &Checked,
    call: &Record,
) -> Result<(), AllocError>
    ensures text { OnOk result (string_bytes text.new ≡ string_bytes text.old ++ filter_text architecture number program.now call.now) }
{
    let path = trace(alloc, program, call)?;
    write!(text, "filter {number}\n")?;
    push_steps(text, architecture, &path.steps)?;
    text.push_str("  ")?;
    push_verdict(text, path.value)?;
    text.push_str("\n")
}

fn push_steps(
    text: &mut String,
    architecture: Architecture,
    steps: &[Step],
) -> Result<(), AllocError>
    ensures text { OnOk result (string_bytes text.new ≡ string_bytes text.old ++ steps_text architecture Other steps.now) }
{
    let mut held = Held::Other;
    let mut rest = steps;
    while let Some((step, left)) = rest.split_first() {
        push_step(text, architecture, held, *step)?;
        held = held_behind(step.insn, held);
        rest = left;
    }
    Ok(())
}

fn push_end(
    text: &mut String,
    verdict: u32,
    source: Option<(usize, usize)>,
) -> Result<(), AllocError>
    ensures text { OnOk result (string_bytes text.new ≡ string_bytes text.old ++ verdict_line verdict source) }
{
    push_verdict(text, verdict)?;
    push_source(text, source)?;
    text.push_str("\n")
}

fn push_source(text: &mut String, source: Option<(usize, usize)>) -> Result<(), AllocError>
    ensures text { OnOk result (string_bytes text.new ≡ string_bytes text.old ++ source_text source) }
{
    match source {
        Some((filter, place)) => write!(text, " by filter {filter} at {place}"),
        None => Ok(()),
    }
}
