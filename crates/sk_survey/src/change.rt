//! Instructions with another load in place of one.
ghost use Rattle.std.specs.Prelude.{◌≡◌};
ghost use Rattle.sk_insn.specs.Operations.{operation_of};
ghost use Rattle.sk_filter.specs.Architectures.{loads_architecture, with_architecture};
ghost use Rattle.sk_survey.specs.ByArchitecture.{loads_word, with_number_at};
ghost use Rattle.sk_survey.specs.Changes.{changed};
ghost use Rattle.sk_survey.specs.Without.{is_among, loads_among, without};

use sk_insn::{Insn, Operation, Register, decode};

/// Where the record of a call has its number.
const NUMBER_PLACE: u32 = 0;

/// Where the record of a call has its architecture.
const ARCHITECTURE_PLACE: u32 = 4;

/// What is loaded in place of words of the record.
#[derive(Clone, Copy)]
pub(crate) enum Change<'a> {
    /// A constant in place of the architecture.
    Constant(u32),
    /// The number in place of the architecture, and in place of the number the word at a place.
    NumberAt(u32),
    /// 0 in place of the words at these places.
    Without(&'a [u32]),
}

impl Change<'_> {
    /// The instruction with this change.
    pub(crate) fn changed(self, insn: Insn) -> Insn
        ensures insn { result ≡ changed self.entry insn }
    {
        match self {
            Change::Constant(architecture) => with_architecture(insn, architecture),
            Change::NumberAt(place) => with_number_at(insn, place),
            Change::Without(places) => without(insn, places),
        }
    }
}

fn with_architecture(insn: Insn, architecture: u32) -> Insn
    ensures insn { result ≡ with_architecture architecture insn }
{
    if loads_architecture(insn) {
        Insn {
            code: Operation::LoadConstant(Register::Accumulator).code(),
            k: architecture,
            ..insn
        }
    } else {
        insn
    }
}

fn with_number_at(insn: Insn, place: u32) -> Insn
    ensures insn { result ≡ with_number_at place insn }
{
    if loads_architecture(insn) {
        Insn {
            k: NUMBER_PLACE,
            ..insn
        }
    } else if loads_word(insn, NUMBER_PLACE) {
        Insn { k: place, ..insn }
    } else {
        insn
    }
}

fn without(insn: Insn, places: &[u32]) -> Insn
    ensures insn { result ≡ without places.now insn }
{
    if loads_among(insn, places) {
        Insn {
            code: Operation::LoadConstant(Register::Accumulator).code(),
            k: 0,
            ..insn
        }
    } else {
        insn
    }
}

/// Whether it loads the architecture of the call.
#[tactic(auto, using(crate::proofs::Words::architecture_there))]
pub(crate) fn loads_architecture(insn: Insn) -> bool
    ensures loads { result ≡ loads_architecture (operation_of insn.code) insn }
{
    loads_word(insn, ARCHITECTURE_PLACE)
}

/// Whether it loads the word at a place of the record.
pub(crate) fn loads_word(insn: Insn, place: u32) -> bool
    ensures loads { result ≡ loads_word place (operation_of insn.code) insn }
{
    match decode(insn.code) {
        Some(Operation::LoadRecord) => insn.k == place,
        _ => false,
    }
}

// Whether it loads the word at one of these places.
fn loads_among(insn: Insn, places: &[u32]) -> bool
    ensures loads { result ≡ loads_among places.now (operation_of insn.code) insn }
{
    match decode(insn.code) {
        Some(Operation::LoadRecord) => is_among(places, insn.k),
        _ => false,
    }
}

fn is_among(places: &[u32], place: u32) -> bool
    ensures among { result ≡ is_among places.now place }
{
    places.iter().any(|one| *one == place)
}
