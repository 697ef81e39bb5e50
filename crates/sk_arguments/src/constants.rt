//! Constants: the names that headers of Linux have for numbers.
ghost use Rattle.std.specs.Prelude.{◌≡◌, ◌==◌, ◌<◌, IfSome, IsTrue, length, position, slice_get};
ghost use Rattle.std.specs.Option.{option_map};
ghost use Rattle.std.specs.Str.{bytes_eq};
ghost use Rattle.sk_arguments.specs.Laws.{is_identifier};
ghost use Rattle.sk_arguments.specs.Constants.{all_names, all_numbers, name_in, number_of_constant, numbers_of, part};

use crate::rows::nth;
use crate::runs::place_in;
use crate::tables::constants::{NAMES, NUMBERS, RUNS};

/// Constants of one argument: a part of the table of all.
#[derive(Clone, Copy, Debug, PartialEq, Eq)]
pub struct Set {
    pub first: usize,
    pub end: usize,
}

impl Set {
    /// Its numbers. Those of bits stand in falling order of how many bits each has.
    #[tactic(auto, unfolding(crate::specs::Constants::all_numbers))]
    pub fn numbers(self) -> &'static [u32]
        ensures numbers { result.now ≡ numbers_of self }
    {
        part(NUMBERS, self.first, self.end)
    }

    /// The name of a number.
    pub fn name(self, number: u64) -> Option<&'static str>
        ensures name { option_map (λ name. name.now) result ≡ name_in self number }
        ensures read { IfSome result (λ name. number_of_constant name.now ≡ Some number) }
        ensures identifier { IfSome result (λ name. IsTrue (is_identifier name.now)) }
    {
        self.named(number)
    }

    #[tactic(auto, unfolding(crate::specs::Constants::name_in))]
    fn named(self, number: u64) -> Option<&'static str>
        ensures name { option_map (λ name. name.now) result ≡ name_in self number }
    {
        name_at(self.first + place_of(self.numbers(), number)?)
    }
}

/// The number of a constant of any argument, by its name.
#[tactic(auto, unfolding(crate::specs::Constants::number_of_constant))]
pub fn number_of_constant(name: &[u8]) -> Option<u64>
    ensures number { result ≡ number_of_constant name.now }
{
    number_at(place_named(name)?)
}

// The numbers at some places, if all of these are there.
fn part(numbers: &'static [u32], first: usize, end: usize) -> &'static [u32]
    ensures part { result.now ≡ part numbers.now first end }
{
    match numbers.get(first..end) {
        Some(part) => part,
        None => &[],
    }
}

#[tactic(auto, unfolding(crate::specs::Constants::all_numbers))]
fn number_at(place: usize) -> Option<u64>
    ensures number { result ≡ slice_get all_numbers place }
{
    nth_number(NUMBERS, place)
}

fn nth_number(numbers: &[u32], place: usize) -> Option<u64>
    ensures number { result ≡ slice_get numbers.now place }
{
    Some(*numbers.get(place)? as u64)
}

#[tactic(auto, unfolding(crate::specs::Constants::all_names))]
fn name_at(place: usize) -> Option<&'static str>
    ensures name { option_map (λ name. name.now) result ≡ slice_get all_names place }
{
    nth(NAMES, place)
}

#[tactic(auto, unfolding(crate::specs::Constants::all_names))]
fn place_named(wanted: &[u8]) -> Option<usize>
    ensures first { result ≡ position (λ name. bytes_eq name wanted.now) all_names }
{
    place_in(NAMES.as_bytes(), RUNS, wanted)
}

// The first place of a number.
fn place_of(numbers: &[u32], wanted: u64) -> Option<usize>
    ensures first { result ≡ position (λ number. number == wanted) numbers.now }
    ensures within { IfSome result (λ place. place < length numbers.now) }
{
    numbers.iter().position(|number| *number as u64 == wanted)
}
