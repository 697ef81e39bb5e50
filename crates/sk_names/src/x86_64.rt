//! The names and numbers of the calls of x86-64, which are two tables: numbers from 424 on are those of all architectures.
ghost use Rattle.std.specs.Prelude.{◌≡◌, ◌≢◌, ℕ, ◌++◌, is_some, if◌then◌else◌, [], ◌∷◌, Some, IfOk, OnOk, IfNone, IfSome};
ghost use Rattle.std.specs.Option.{option_map};
ghost use Rattle.sk_names.specs.X86_64.{name_of, named_from, names_end, number_named};

mod names;

use crate::lists::{nth, place_of};
use crate::x86_64::names::{EARLY, LATE};
use std::alloc::{AllocError, Global};

/// The first number of the second table.
const FIRST_LATE: u32 = 424;

/// No number from here on has a name.
const COUNT: u32 = FIRST_LATE + LATE.len() as u32;

/// The name of a call's number, if it is one.
#[tactic(auto, unfolding(crate::specs::X86_64::name_of))]
pub fn name(nr: u32) -> Option<&'static str>
    ensures name { option_map (λ name. name.now) result ≡ name_of nr }
{
    if nr < FIRST_LATE {
        nth(&EARLY, nr as usize)
    } else {
        nth(&LATE, (nr - FIRST_LATE) as usize)
    }
}

/// The number of the call with this name, if there is one.
pub fn number(name: &[u8]) -> Option<u32>
    ensures first { result ≡ number_named name.now }
    ensures found { IfSome result (λ nr. name_of nr ≡ Some name.now) }
    ensures none { IfNone result ((nr : ℕ) → name_of nr ≢ Some name.now) }
{
    match place_of(&EARLY, name) {
        Some(place) => Some(place as u32),
        None => Some(FIRST_LATE + place_of(&LATE, name)? as u32),
    }
}

/// The numbers of all calls that have a name, in rising order.
pub fn numbers(alloc: Global) -> Result<Vec<u32>, AllocError>
    ensures all { IfOk result (λ numbers. numbers.items ≡ named_from names_end 0) }
{
    named_below(alloc, COUNT)
}

fn named_below(alloc: Global, count: u32) -> Result<Vec<u32>, AllocError>
    ensures all { IfOk result (λ numbers. numbers.items ≡ named_from count 0) }
{
    let mut numbers = Vec::new(alloc);
    for nr in 0..count {
        push_named(&mut numbers, nr)?;
    }
    Ok(numbers)
}

fn push_named(numbers: &mut Vec<u32>, nr: u32) -> Result<(), AllocError>
    ensures pushed { OnOk result (numbers.new.items ≡ (if is_some (name_of nr) then numbers.old.items ++ nr ∷ [] else numbers.old.items)) }
{
    if name(nr).is_some() {
        numbers.push(nr)?;
    }
    Ok(())
}
