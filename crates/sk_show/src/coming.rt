//! Which calls come to each instruction, and whose names numbers have there.
ghost use Rattle.std.specs.Prelude.{◌≡◌, ◌≤◌, ◌<◌, ◌^◌, length, filter, find, vec_len, IfOk};
ghost use Rattle.std.specs.Option.{option_map};
ghost use Rattle.sk_insn.specs.Operations.{operation_of};
ghost use Rattle.sk_show.specs.Coming.{architectures_of, comes, comes_to, jumps_taken, named_by, names_of, next_taken, taken, told_apart, Finds};

use crate::held::{Held, held_behind, joined_ways};
use crate::ways::{go_on, jump_to, no_jumps};
use sk_filter::holds;
use sk_insn::{Insn, Operand, Operation, decode};
use sk_names::Architecture;
use std::alloc::{AllocError, Global};

/// The architectures that a filter tells apart: x32 is shown by the number of x86-64.
const TOLD_APART: [Architecture; 8] = [
    Architecture::X86_64,
    Architecture::I386,
    Architecture::Aarch64,
    Architecture::Arm,
    Architecture::Riscv64,
    Architecture::Ppc64le,
    Architecture::S390x,
    Architecture::Loongarch64,
];

/// To which places of a filter the calls of an architecture come.
#[derive(Drop)]
pub(crate) struct Reach {
    pub architecture: Architecture,
    pub places: Vec<bool>,
}

impl Reach {
    fn has(&self, place: usize) -> bool
        ensures has { result ≡ comes place self.now }
    {
        match self.places.get(place) {
            Some(comes) => *comes,
            None => false,
        }
    }
}

// The places of a filter to which the calls of each architecture come.
pub(crate) fn reaches(alloc: Global, insns: &[Insn]) -> Result<Vec<Reach>, AllocError>
    requires few { length insns.now ≤ 4096 }
    ensures found { IfOk result (λ reaches. Finds insns.now told_apart reaches.items) }
{
    reaches_of(alloc, insns, &TOLD_APART)
}

fn reaches_of(
    alloc: Global,
    insns: &[Insn],
    architectures: &[Architecture],
) -> Result<Vec<Reach>, AllocError>
    requires few { length insns.now ≤ 4096 }
    ensures found { IfOk result (λ reaches. Finds insns.now architectures.now reaches.items) }
{
    let mut reaches = Vec::new(alloc);
    let mut rest = architectures;
    while let Some((architecture, left)) = rest.split_first() {
        let architecture = *architecture;
        reaches.push(Reach {
            architecture,
            places: comes_to(alloc, architecture.audit(), insns)?,
        })?;
        rest = left;
    }
    Ok(reaches)
}

// The architecture whose names are shown at a place, where those of another one are asked for.
pub(crate) fn named_at(asked: Architecture, reaches: &[Reach], place: usize) -> Option<Architecture>
    ensures named { result ≡ names_of asked (architectures_of (filter (comes place) reaches.now)) }
{
    match first_comer(reaches, place) {
        Some(first) => named_by(asked, first, comers(reaches, place)),
        None => None,
    }
}

fn named_by(asked: Architecture, first: Architecture, count: usize) -> Option<Architecture>
    ensures named { result ≡ named_by asked first count }
{
    match count {
        1 if first.audit() == asked.audit() => Some(asked),
        1 => Some(first),
        8 => Some(asked),
        _ => None,
    }
}

// The first architecture whose calls come to a place.
fn first_comer(reaches: &[Reach], place: usize) -> Option<Architecture>
    ensures first { result ≡ option_map (λ reach. reach.architecture) (find (comes place) reaches.now) }
{
    let reach = reaches.iter().find(|reach| reach.has(place))?;
    Some(reach.architecture)
}

// The number of those whose calls do.
fn comers(reaches: &[Reach], place: usize) -> usize
    ensures comers { result ≡ length (filter (comes place) reaches.now) }
{
    reaches.iter().filter(|reach| reach.has(place)).count()
}

// Whether calls with this number of an architecture come to each instruction.
fn comes_to(alloc: Global, number: u32, insns: &[Insn]) -> Result<Vec<bool>, AllocError>
    requires few { length insns.now ≤ 4096 }
    ensures comes { IfOk result (λ comes. comes.items ≡ comes_to number insns.now) }
{
    let mut comes = Vec::new(alloc);
    let mut jumps = no_jumps(alloc, insns.len())?;
    let mut next = Some(Held::Other);
    let mut at = 0;
    let mut rest = insns;
    while let Some((insn, left)) = rest.split_first() {
        let held = joined_ways(jump_to(&jumps, at), next);
        comes.push(held.is_some())?;
        next = go_on_taken(&mut jumps, number, at, held, *insn);
        at += 1;
        rest = left;
    }
    Ok(comes)
}

// Notes where such calls go on from a place, if they come there, and gives what A holds where that is the next place.
fn go_on_taken(
    jumps: &mut Vec<Option<Held>>,
    number: u32,
    at: usize,
    held: Option<Held>,
    insn: Insn,
) -> Option<Held>
    requires near { at < 2 ^ 32 }
    ensures jumps { jumps.new.items ≡ jumps_taken number at held insn jumps.old.items }
    ensures len { vec_len jumps.new ≡ vec_len jumps.old }
    ensures next { result ≡ next_taken number at held insn }
{
    match held {
        Some(held) => go_on(
            jumps,
            at,
            taken(number, held, insn),
            held_behind(insn, held),
        ),
        None => None,
    }
}

// A test of the architecture as the jump that such calls take.
fn taken(number: u32, held: Held, insn: Insn) -> Insn
    ensures taken { result ≡ taken number held (operation_of insn.code) insn }
{
    match (held, decode(insn.code)) {
        (Held::Architecture, Some(Operation::Branch(comparison, Operand::Constant))) => Insn {
            code: Operation::Jump.code(),
            k: u32::from(if holds(comparison, number, insn.k) {
                insn.jt
            } else {
                insn.jf
            }),
            ..insn
        },
        _ => insn,
    }
}
