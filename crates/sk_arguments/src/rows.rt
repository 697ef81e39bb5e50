//! Rows of the tables of calls, which have six columns: one for each argument.
ghost use Rattle.std.specs.Prelude.{◌≡◌};
ghost use Rattle.std.specs.Option.{option_map};
ghost use Rattle.std.specs.Prelude.{slice_get};
ghost use Rattle.sk_arguments.specs.Reading.{place_of, letter, decider_by, decided_by, argument_name, name_at, names_in};

use crate::tables::calls::{DECIDERS, NAMES};

/// The bit that each number of x32 has.
const X32_BIT: u32 = 0x4000_0000;

/// The other argument for some of whose values alone Linux reads an argument: its place.
#[tactic(auto, unfolding(crate::specs::Reading::decided_by))]
pub fn decided_by(nr: u32, i: usize) -> Option<usize>
    ensures place { result ≡ decided_by nr i }
{
    match letter(DECIDERS, nr, i)? {
        b'0' => Some(0),
        b'1' => Some(1),
        b'2' => Some(2),
        b'3' => Some(3),
        b'4' => Some(4),
        _ => None,
    }
}

/// The name that the manual has for an argument of a call.
#[tactic(auto, unfolding(crate::specs::Reading::argument_name))]
pub fn argument_name(nr: u32, i: usize) -> Option<&'static str>
    ensures name { option_map (λ name. name.now) result ≡ argument_name nr i }
{
    let name = nth(NAMES, place_of(nr, i)?)?;
    if name == "-" { None } else { Some(name) }
}

/// The letter of an argument in a text that has six for each call.
pub fn letter(text: &str, nr: u32, i: usize) -> Option<u8>
    ensures letter { result ≡ letter text.now nr i }
{
    text.as_bytes().get(place_of(nr, i)?).copied()
}

/// The name at a place of a text.
pub fn nth(names: &'static str, place: usize) -> Option<&'static str>
    ensures name { option_map (λ name. name.now) result ≡ slice_get (names_in names.now) place }
{
    names.split(' ').nth(place)
}

// The place of an argument in a table of six for each call.
fn place_of(nr: u32, i: usize) -> Option<usize>
    ensures place { result ≡ place_of nr i }
{
    let number = if nr < X32_BIT { nr } else { nr - X32_BIT };
    if i < 6 {
        Some(6 * number as usize + i)
    } else {
        None
    }
}
