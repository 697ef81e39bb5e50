//! What `ask why` tells, as a document.
ghost use Rattle.std.specs.Prelude.{◌≡◌, ◌++◌, flat_map, map, IfOk, OnOk};
ghost use Rattle.sk_show.specs.PathText.{IsSource};
ghost use Rattle.sk_document.specs.Deciding.{pair_of};
ghost use Rattle.sk_document.specs.Documents.{counted, maybe};
ghost use Rattle.sk_document.specs.WhyDocument.{IsWhyDocument, asked_at, end_at, filter_path, filter_paths, filters_at, found_in, held_at, insn_at, next_at, outcome_at, path_step, steps_at, why_tokens};

use crate::call::add_call;
use crate::deciding::{Decision, add_decisions_at};
use crate::document::Document;
use crate::numbers::add_architecture;
use crate::replay::add_logged_at;
use crate::verdict::add_verdict;
use sk_arguments::Naming;
use sk_asm::push_words;
use sk_filter::{Chain, Checked};
use sk_insn::{Insn, Record};
use sk_names::Architecture;
use sk_show::{Registers, Step, answering, trace};
use sk_when::Names;
use std::alloc::{AllocError, Global};

/// Why a call of an architecture gets its verdict of a chain, what decides on it in the texts that filters were made of, and what the kernel did
/// with it, where its line stands for the call.
pub fn why_document(
    alloc: Global,
    architecture: Architecture,
    chain: &Chain,
    call: &Record,
    decisions: &[Decision<'_>],
    logged: Option<u32>,
) -> Result<Vec<u8>, AllocError>
    ensures told { IfOk result (λ text. IsWhyDocument architecture chain.now call.now (map pair_of decisions.now) logged text.items) }
{
    let mut document = Document::new(alloc);
    let source = source(chain, call, chain.verdict(call));
    add_why(
        alloc,
        &mut document,
        architecture,
        chain,
        call,
        source,
        decisions,
        logged,
    )?;
    document.finished()
}

fn source(chain: &Chain, call: &Record, value: u32) -> Option<(usize, usize)>
    ensures source { IsSource chain.now call.now value result }
{
    answering(chain, call, value)
}

#[tactic(auto, unfolding(crate::specs::WhyDocument::why_tokens))]
fn add_why(
    alloc: Global,
    to: &mut Document,
    architecture: Architecture,
    chain: &Chain,
    call: &Record,
    source: Option<(usize, usize)>,
    decisions: &[Decision<'_>],
    logged: Option<u32>,
) -> Result<(), AllocError>
    ensures added { OnOk result (to.new ≡ to.old ++ why_tokens architecture chain.now call.now source (map pair_of decisions.now) logged) }
{
    to.begin_object()?;
    to.word_at("why")?;
    add_architecture(to, architecture)?;
    add_asked_at(to, architecture, *call)?;
    add_filters_at(alloc, to, chain, call)?;
    add_outcome_at(to, chain.verdict(call), source, decisions, logged)?;
    to.end_object()
}

#[tactic(auto, unfolding(crate::specs::WhyDocument::outcome_at))]
fn add_outcome_at(
    to: &mut Document,
    verdict: u32,
    source: Option<(usize, usize)>,
    decisions: &[Decision<'_>],
    logged: Option<u32>,
) -> Result<(), AllocError>
    ensures added { OnOk result (to.new ≡ to.old ++ outcome_at verdict source (map pair_of decisions.now) logged) }
{
    add_end_at(to, verdict, source)?;
    add_decisions_at(to, decisions)?;
    add_logged_at(to, logged)
}

#[tactic(auto, unfolding(crate::specs::WhyDocument::asked_at))]
fn add_asked_at(
    to: &mut Document,
    architecture: Architecture,
    call: Record,
) -> Result<(), AllocError>
    ensures added { OnOk result (to.new ≡ to.old ++ asked_at architecture call) }
{
    let names = Names {
        naming: Naming::Constants,
        architecture,
    };
    to.at("call")?;
    add_call(to, names, call)
}

#[tactic(auto, unfolding(crate::specs::WhyDocument::filters_at))]
fn add_filters_at(
    alloc: Global,
    to: &mut Document,
    chain: &Chain,
    call: &Record,
) -> Result<(), AllocError>
    ensures added { OnOk result (to.new ≡ to.old ++ filters_at chain.now call.now) }
{
    to.at("filters")?;
    to.begin_array()?;
    add_filters(alloc, to, chain, call)?;
    to.end_array()
}

fn add_filters(
    alloc: Global,
    to: &mut Document,
    chain: &Chain,
    call: &Record,
) -> Result<(), AllocError>
    ensures added { OnOk result (to.new ≡ to.old ++ filter_paths chain.now call.now) }
{
    let mut older = chain.len();
    for program in chain.programs() {
        older -= 1;
        add_filter(alloc, to, older, program, call)?;
    }
    Ok(())
}

#[tactic(auto, unfolding(crate::specs::WhyDocument::filter_path))]
fn add_filter(
    alloc: Global,
    to: &mut Document,
    number: usize,
    program: &Checked,
    call: &Record,
) -> Result<(), AllocError>
    ensures added { OnOk result (to.new ≡ to.old ++ filter_path number program.now call.now) }
{
    let path = trace(alloc, program, call)?;
    to.begin_object()?;
    to.number_at("filter", number as u64)?;
    add_steps_at(to, &path.steps)?;
    to.at("verdict")?;
    add_verdict(to, path.value)?;
    to.end_object()
}

#[tactic(auto, unfolding(crate::specs::WhyDocument::steps_at))]
fn add_steps_at(to: &mut Document, steps: &[Step]) -> Result<(), AllocError>
    ensures added { OnOk result (to.new ≡ to.old ++ steps_at steps.now) }
{
    to.at("steps")?;
    to.begin_array()?;
    add_steps(to, steps)?;
    to.end_array()
}

fn add_steps(to: &mut Document, steps: &[Step]) -> Result<(), AllocError>
    ensures added { OnOk result (to.new ≡ to.old ++ flat_map path_step steps.now) }
{
    for step in steps {
        add_step(to, *step)?;
    }
    Ok(())
}

#[tactic(auto, unfolding(crate::specs::WhyDocument::path_step))]
fn add_step(to: &mut Document, step: Step) -> Result<(), AllocError>
    ensures added { OnOk result (to.new ≡ to.old ++ path_step step) }
{
    to.begin_object()?;
    to.number_at("instruction", step.place as u64)?;
    add_insn(to, step.insn)?;
    add_held(to, step.behind)?;
    add_next(to, step.next)?;
    to.end_object()
}

#[tactic(auto, unfolding(crate::specs::WhyDocument::insn_at))]
fn add_insn(to: &mut Document, insn: Insn) -> Result<(), AllocError>
    ensures added { OnOk result (to.new ≡ to.old ++ insn_at insn) }
{
    let mut text = to.text();
    push_words(&mut text, insn)?;
    to.string_at("text", text.as_str())?;
    to.number_at("code", u64::from(insn.code))?;
    to.number_at("jt", u64::from(insn.jt))?;
    to.number_at("jf", u64::from(insn.jf))?;
    to.number_at("k", u64::from(insn.k))
}

#[tactic(auto, unfolding(crate::specs::WhyDocument::held_at))]
fn add_held(to: &mut Document, registers: Registers) -> Result<(), AllocError>
    ensures added { OnOk result (to.new ≡ to.old ++ held_at registers) }
{
    to.number_at("a", u64::from(registers.a))?;
    to.number_at("x", u64::from(registers.x))
}

#[tactic(auto, unfolding(crate::specs::WhyDocument::next_at))]
fn add_next(to: &mut Document, next: Option<usize>) -> Result<(), AllocError>
    ensures added { OnOk result (to.new ≡ to.old ++ next_at next) }
{
    to.at("next")?;
    match next {
        Some(place) => to.number(place as u64),
        None => to.null(),
    }
}

#[tactic(auto, unfolding(crate::specs::WhyDocument::end_at))]
fn add_end_at(
    to: &mut Document,
    verdict: u32,
    source: Option<(usize, usize)>,
) -> Result<(), AllocError>
    ensures added { OnOk result (to.new ≡ to.old ++ end_at verdict source) }
{
    to.at("verdict")?;
    add_verdict(to, verdict)?;
    to.at("source")?;
    add_source(to, source)
}

fn add_source(to: &mut Document, source: Option<(usize, usize)>) -> Result<(), AllocError>
    ensures added { OnOk result (to.new ≡ to.old ++ maybe found_in source) }
{
    match source {
        Some(found) => add_found(to, found),
        None => to.null(),
    }
}

#[tactic(auto, unfolding(crate::specs::WhyDocument::found_in))]
fn add_found(to: &mut Document, found: (usize, usize)) -> Result<(), AllocError>
    ensures added { OnOk result (to.new ≡ to.old ++ found_in found) }
{
    let (filter, place) = found;
    to.begin_object()?;
    to.number_at("filter", filter as u64)?;
    to.number_at("instruction", place as u64)?;
    to.end_object()
}
