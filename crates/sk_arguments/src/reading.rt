//! The words of a call's record that Linux does not read, and the calls that have such.
ghost use Rattle.std.specs.Prelude.{◌≡◌, ℕ, ◌++◌, ◌+◌, ◌*◌, ◌^◌, ◌≤◌, ◌<◌, ◌∷◌, [], if◌then◌else◌, IfOk, OnOk, IsTrue, ◌↔◌};
ghost use Rattle.std.specs.List.{Contains};
ghost use Rattle.sk_arguments.specs.Reading.{unread_at, unread_places, is_narrow, narrow_from, narrow_numbers};

use crate::kinds::{kind_of, reads_lower, reads_upper};
use std::alloc::{AllocError, Global};

/// No number of x86-64 is as high, but those of x32.
const NUMBERS: u32 = 512;

/// The bit that each number of x32 has.
const X32_BIT: u32 = 0x4000_0000;

/// The words of a call's record that Linux does not read, by their places in `struct seccomp_data`.
pub fn unread_places(alloc: Global, nr: u32) -> Result<Vec<u32>, AllocError>
    ensures places { IfOk result (λ places. places.items ≡ unread_places nr) }
{
    let mut places = Vec::new(alloc);
    for i in 0..6 {
        push_unread(&mut places, nr, i)?;
    }
    Ok(places)
}

/// The numbers of all calls of x86-64, and behind them of x32, with an argument whose upper half Linux does not read. Both are in
/// rising order.
pub fn narrow_numbers(alloc: Global) -> Result<Vec<u32>, AllocError>
    ensures all { IfOk result (λ numbers. numbers.items ≡ narrow_numbers) }
    ensures each { IfOk result (λ numbers. (nr : ℕ) → Contains numbers.items nr ↔ IsTrue (is_narrow nr)) }
{
    let mut numbers = Vec::new(alloc);
    push_narrow(&mut numbers, 0)?;
    push_narrow(&mut numbers, X32_BIT)?;
    Ok(numbers)
}

// Adds those among the numbers of an architecture, from its first one on.
fn push_narrow(numbers: &mut Vec<u32>, first: u32) -> Result<(), AllocError>
    requires low { first ≤ 2 ^ 30 }
    ensures pushed { OnOk result (numbers.new.items ≡ numbers.old.items ++ narrow_from 512 first) }
{
    for nr in first..first + NUMBERS {
        push_if_narrow(numbers, nr)?;
    }
    Ok(())
}

fn push_if_narrow(numbers: &mut Vec<u32>, nr: u32) -> Result<(), AllocError>
    ensures pushed { OnOk result (numbers.new.items ≡ (if is_narrow nr then numbers.old.items ++ nr ∷ [] else numbers.old.items)) }
{
    if is_narrow(nr) {
        numbers.push(nr)?;
    }
    Ok(())
}

fn is_narrow(nr: u32) -> bool
    ensures narrow { result ≡ is_narrow nr }
{
    (0..6).any(|i| !reads_upper(kind_of(nr, i)))
}

// Adds the halves of an argument that are not read.
#[tactic(auto, unfolding(crate::specs::Reading::unread_at))]
fn push_unread(places: &mut Vec<u32>, nr: u32, i: usize) -> Result<(), AllocError>
    requires place { i < 6 }
    ensures pushed { OnOk result (places.new.items ≡ places.old.items ++ unread_at nr i) }
{
    let kind = kind_of(nr, i);
    if !reads_lower(kind) {
        places.push(16 + 8 * i as u32)?;
    }
    if !reads_upper(kind) {
        places.push(20 + 8 * i as u32)?;
    }
    Ok(())
}
