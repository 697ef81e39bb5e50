//! The verdict on a call of a log.
ghost use Rattle.std.specs.Prelude.{◌≡◌, ◌&&◌, ◌++◌, IfOk, OnOk, find, flat_map};
ghost use Rattle.std.specs.List.{list_any};
ghost use Rattle.sk_insn.specs.Operations.{operation_of};
ghost use Rattle.sk_filter.specs.Verdict.{verdict_of};
ghost use Rattle.sk_show.specs.Paths.{path_of};
ghost use Rattle.sk_replay.specs.Calls.{is_hidden, record_of};
ghost use Rattle.sk_replay.specs.Judging.{is_of, judged_as, judged_of, places, undecided_by, word_loaded, words_on, words_read};

use crate::call::Call;
use sk_filter::{Chain, Checked};
use sk_insn::{Insn, Operation, Record, decode};
use sk_names::Architecture;
use sk_show::{Step, trace};
use std::alloc::{AllocError, Global};

/// What filters say of a call.
#[derive(Clone, Copy, Debug, PartialEq, Eq)]
pub enum Judged {
    /// They give it this value, whatever the arguments are that the log does not show.
    Verdict(u32),
    /// It depends on this argument, from 0 on, which the log does not show.
    Undecided(usize),
}

/// The arguments of a call.
const PLACES: [usize; 6] = [0, 1, 2, 3, 4, 5];

impl Judged {
    /// What the chain says of a call.
    pub fn of(
        alloc: Global,
        architecture: Architecture,
        chain: &Chain,
        call: &Call,
    ) -> Result<Judged, AllocError>
        ensures judged { IfOk result (λ it. it ≡ judged_of architecture chain.now call.now) }
    {
        let meant = call.record(architecture);
        let value = chain.verdict(&meant);
        match undecided(alloc, chain, call, &meant)? {
            Some(argument) => Ok(Judged::Undecided(argument)),
            None => Ok(Judged::Verdict(value)),
        }
    }
}

// The first argument that the log does not show, and that the chain reads on its way with this record.
#[tactic(auto, using(crate::proofs::Undecided::all_shown))]
fn undecided(
    alloc: Global,
    chain: &Chain,
    call: &Call,
    meant: &Record,
) -> Result<Option<usize>, AllocError>
    ensures undecided { IfOk result (λ it. it ≡ undecided_by call.now (words_read chain.now meant.now)) }
{
    if !hides_some(call) {
        return Ok(None);
    }
    let words = words_read(alloc, chain, meant)?;
    Ok(undecided_by(call, &words))
}

fn hides_some(call: &Call) -> bool
    ensures hides { result ≡ list_any (is_hidden call.now) places }
{
    PLACES.iter().any(|i| call.is_hidden(*i))
}

fn undecided_by(call: &Call, words: &[u32]) -> Option<usize>
    ensures undecided { result ≡ undecided_by call.now words.now }
{
    PLACES.iter().copied().find(|i| is_open(call, words, *i))
}

// Whether the log does not show this argument, and one of the words is of it.
fn is_open(call: &Call, words: &[u32], argument: usize) -> bool
    ensures both { result ≡ is_hidden call.now argument && list_any (is_of argument) words.now }
{
    call.is_hidden(argument) && is_read(words, argument)
}

fn is_read(words: &[u32], argument: usize) -> bool
    ensures read { result ≡ list_any (is_of argument) words.now }
{
    words.iter().any(|place| is_of(argument, *place))
}

// Whether the word at a place is a half of this argument.
fn is_of(argument: usize, place: u32) -> bool
    ensures of { result ≡ is_of argument place }
{
    let eighth = place as usize / 8;
    eighth >= 2 && eighth - 2 == argument
}

// The places of the words that the filters load on the way of a call.
fn words_read(alloc: Global, chain: &Chain, call: &Record) -> Result<Vec<u32>, AllocError>
    ensures words { IfOk result (λ words. words.items ≡ words_read chain.now call.now) }
{
    let mut words = Vec::new(alloc);
    for program in chain.programs() {
        add_path(alloc, &mut words, program, call)?;
    }
    Ok(words)
}

fn add_path(
    alloc: Global,
    words: &mut Vec<u32>,
    program: &Checked,
    call: &Record,
) -> Result<(), AllocError>
    ensures added { OnOk result (words.new.items ≡ words.old.items ++ words_on (path_of program.now call.now)) }
{
    let path = trace(alloc, program, call)?;
    add_steps(words, &path.steps)
}

fn add_steps(words: &mut Vec<u32>, steps: &[Step]) -> Result<(), AllocError>
    ensures added { OnOk result (words.new.items ≡ words.old.items ++ words_on steps.now) }
{
    for step in steps {
        add_word(words, step.insn)?;
    }
    Ok(())
}

fn add_word(words: &mut Vec<u32>, insn: Insn) -> Result<(), AllocError>
    ensures added { OnOk result (words.new.items ≡ words.old.items ++ word_loaded (operation_of insn.code) insn) }
{
    if let Some(Operation::LoadRecord) = decode(insn.code) {
        words.push(insn.k)?;
    }
    Ok(())
}
