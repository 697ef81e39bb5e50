//! Numbers by the constants of Linux's headers: the parts that they have.
ghost use Rattle.std.specs.Prelude.{◌≡◌, ◌++◌, ◌∷◌, [], map, List, ℕ, IfOk, OnOk};
ghost use Rattle.sk_terms.specs.Constants.{are_constants, bits_of, constants_of, field_bits, field_part, is_constant, is_whole, lies_in, named, parts_of, taken, value, with_rest};
ghost use Rattle.std.specs.Int.Count.{ones_in};
ghost use Rattle.sk_arguments.specs.Constants.{numbers_of};

use sk_arguments::{Field, Form, Set};
use std::alloc::{AllocError, Global};

/// The bits of the lower half.
pub const LOWER_HALF: u64 = 0xffff_ffff;

/// A part of a number, as C has it.
#[derive(Clone, Copy, Debug)]
pub enum Part {
    /// The constant that a set has for a number.
    Constant(Set, u64),
    /// A number.
    Number(u64),
}

/// The parts of a number that is compared with the bits of a mask.
pub fn parts_of(alloc: Global, form: Form, mask: u64, number: u64) -> Result<Vec<Part>, AllocError>
    ensures parts { IfOk result (λ parts. parts.items ≡ parts_of form mask number) }
{
    match form {
        Form::One(set) if is_whole(mask) => only(alloc, named(set, number)),
        Form::Bits(set, field) if lies_in(number, mask) => {
            let constants = constants_of(alloc, set, field, mask, number)?;
            with_rest(alloc, number, constants)
        }
        _ => only(alloc, Part::Number(number)),
    }
}

/// Whether a mask has all bits of an argument, or those of its lower half.
pub fn is_whole(mask: u64) -> bool
    ensures whole { result ≡ is_whole mask }
{
    mask == u64::MAX || mask == LOWER_HALF
}

/// Whether no part is a number.
pub fn are_constants(parts: &[Part]) -> bool
    ensures constants { result ≡ are_constants parts.now }
{
    parts.iter().all(|part| is_constant(*part))
}

fn is_constant(part: Part) -> bool
    ensures constant { result ≡ is_constant part }
{
    matches!(part, Part::Constant(_, _))
}

/// One part alone.
pub fn only(alloc: Global, part: Part) -> Result<Vec<Part>, AllocError>
    ensures only { IfOk result (λ parts. parts.items ≡ part ∷ []) }
{
    let mut parts = Vec::new(alloc);
    parts.push(part)?;
    Ok(parts)
}

// The constant of a number, where the set has it.
fn named(set: Set, number: u64) -> Part
    ensures named { result ≡ named set number }
{
    if set.name(number).is_some() {
        Part::Constant(set, number)
    } else {
        Part::Number(number)
    }
}

fn lies_in(bits: u64, others: u64) -> bool
    ensures lies { result ≡ lies_in bits others }
{
    bits & others == bits
}

// The constants of a number beside a mask: one of the field, and others.
fn constants_of(
    alloc: Global,
    set: Set,
    field: Option<Field>,
    mask: u64,
    number: u64,
) -> Result<Vec<Part>, AllocError>
    ensures constants { IfOk result (λ parts. parts.items ≡ constants_of set field mask number) }
{
    let mut parts = field_part(alloc, field, mask, number)?;
    add_taken(&mut parts, set, number ^ field_bits(field, number))?;
    Ok(parts)
}

fn field_bits(field: Option<Field>, number: u64) -> u64
    ensures bits { result ≡ field_bits field number }
{
    match field {
        Some(field) => number & u64::from(field.mask),
        None => 0,
    }
}

// The constant of a field, where the mask has all of it: 0 only where it has nothing else.
fn field_part(
    alloc: Global,
    field: Option<Field>,
    mask: u64,
    number: u64,
) -> Result<Vec<Part>, AllocError>
    ensures part { IfOk result (λ parts. parts.items ≡ field_part field mask number) }
{
    let Some(field) = field else {
        return Ok(Vec::new(alloc));
    };
    let mine = u64::from(field.mask);
    let bits = number & mine;
    if lies_in(mine, mask) && (bits != 0 || mask == mine) && field.values.name(bits).is_some() {
        only(alloc, Part::Constant(field.values, bits))
    } else {
        Ok(Vec::new(alloc))
    }
}

// Adds the constants whose bits are all among some: each takes its bits.
fn add_taken(parts: &mut Vec<Part>, set: Set, bits: u64) -> Result<(), AllocError>
    ensures added { OnOk result (parts.new.items ≡ parts.old.items ++ map (named set) (taken (numbers_of set) bits)) }
{
    let mut rest = bits;
    for number in set.numbers() {
        rest = add_if_there(parts, set, u64::from(*number), rest)?;
    }
    Ok(())
}

// Adds the constant of a number whose bits are all in what is left, and tells what is left behind it.
#[tactic(auto, using(crate::proofs::Parts::takes))]
fn add_if_there(parts: &mut Vec<Part>, set: Set, number: u64, rest: u64) -> Result<u64, AllocError>
    ensures added { IfOk result (λ left. (more : List ℕ) → parts.new.items ++ map (named set) (taken more left)
        ≡ parts.old.items ++ map (named set) (taken (number ∷ more) rest)) }
{
    if number == 0 || !lies_in(number, rest) {
        return Ok(rest);
    }
    parts.push(named(set, number))?;
    Ok(rest ^ number)
}

// Constants, and what is left of the number, unless this has more bits than there are constants.
fn with_rest(alloc: Global, number: u64, constants: Vec<Part>) -> Result<Vec<Part>, AllocError>
    ensures parts { IfOk result (λ parts. parts.items ≡ with_rest number constants.items) }
{
    let rest = number ^ bits_of(&constants);
    if constants.is_empty() || (constants.len() as u64) < ones_of(rest) {
        return only(alloc, Part::Number(number));
    }
    let mut parts = constants;
    if rest != 0 {
        parts.push(Part::Number(rest))?;
    }
    Ok(parts)
}

// How many bits a number has.
#[tactic(auto, using(crate::proofs::Parts::ones_of_word))]
fn ones_of(number: u64) -> u64
    ensures ones { result ≡ ones_in 64 number }
{
    u64::from(number.count_ones())
}

// The bits of all parts.
fn bits_of(parts: &[Part]) -> u64
    ensures bits { result ≡ bits_of parts.now }
{
    let mut bits = 0;
    for part in parts {
        bits |= value(*part);
    }
    bits
}

fn value(part: Part) -> u64
    ensures value { result ≡ value part }
{
    match part {
        Part::Constant(_, number) | Part::Number(number) => number,
    }
}
