//! How the numbers of each argument are named.
ghost use Rattle.std.specs.Prelude.{◌≡◌};
ghost use Rattle.sk_arguments.specs.Constants.{form_of, holds, number_at, row_of};

use crate::constants::Set;
use crate::tables::forms::ROWS;

/// A part of an argument's bits that is a number by itself, as the type of a socket.
#[derive(Clone, Copy)]
pub struct Field {
    pub mask: u32,
    pub values: Set,
}

/// How the numbers of an argument are named.
#[derive(Clone, Copy)]
pub enum Form {
    /// No constant is known for them.
    Plain,
    /// Each is one of these.
    One(Set),
    /// Each has some of these bits, and a field where there is one.
    Bits(Set, Option<Field>),
}

/// Where an argument has a form.
#[derive(Clone, Copy)]
pub enum When {
    /// In each call.
    Always,
    /// Where the argument at this place is known to be this number, as far as Linux reads it.
    Is(usize, u32),
}

/// A row of the table: the number of a call of x86-64, the place of an argument, where it has the form, and the form.
pub type Row = (u32, usize, When, Form);

/// How the numbers of an argument of a call of x86-64 are named, where so much is known of all its arguments. Those of one that
/// hangs on another argument are Plain unless that one is known.
#[tactic(auto, unfolding(crate::specs::Constants::form_of))]
pub fn form_of(nr: u32, i: usize, known: &[Option<u64>; 6]) -> Form
    ensures form { result ≡ form_of nr i known.now }
{
    match row_of(nr, i, known) {
        Some((_, _, _, form)) => form,
        None => Form::Plain,
    }
}

// The first row that holds.
fn row_of(nr: u32, i: usize, known: &[Option<u64>; 6]) -> Option<Row>
    ensures row { result ≡ row_of nr i known.now }
{
    ROWS.iter()
        .copied()
        .find(|row| row.0 == nr && row.1 == i && holds(row.2, known))
}

#[tactic(auto, unfolding(crate::specs::Constants::holds))]
fn holds(when: When, known: &[Option<u64>; 6]) -> bool
    ensures holds { result ≡ holds when known.now }
{
    match when {
        When::Always => true,
        When::Is(place, wanted) => match number_at(known, place) {
            Some(number) => number & 0xFFFF_FFFF == wanted as u64,
            None => false,
        },
    }
}

fn number_at(known: &[Option<u64>; 6], place: usize) -> Option<u64>
    ensures number { result ≡ number_at known.now place }
{
    *known.get(place)?
}
