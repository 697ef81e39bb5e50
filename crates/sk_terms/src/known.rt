//! What is known of the arguments of a call, and how the numbers of its registers are named by that.
ghost use Rattle.std.specs.Prelude.{◌≡◌, IsTrue};
ghost use Rattle.sk_terms.specs.Constants.{is_whole};
ghost use Rattle.sk_terms.specs.Known.{all_known, fixed_by, fixed_in, fixes, form_on, known_by, nothing_known};

use crate::choices::Choice;
use crate::constants::is_whole;
use crate::term::{Register, Term};
use sk_arguments::{Form, form_of};

/// A call by its number on x86-64, whose constants are written where it is given, and what is known of its arguments.
#[derive(Clone, Copy, Debug)]
pub struct Known {
    pub call: Option<u32>,
    pub arguments: [Option<u64>; 6],
}

/// Nothing is known of the arguments.
pub fn nothing_known(call: Option<u32>) -> Known
    ensures known { result ≡ nothing_known call }
{
    Known {
        call,
        arguments: [None; 6],
    }
}

/// What a line says of the arguments.
pub fn known_by(call: Option<u32>, choices: &[Choice]) -> Known
    ensures known { result ≡ known_by call choices.now }
{
    Known {
        call,
        arguments: [
            fixed_by(choices, 0),
            fixed_by(choices, 1),
            fixed_by(choices, 2),
            fixed_by(choices, 3),
            fixed_by(choices, 4),
            fixed_by(choices, 5),
        ],
    }
}

/// All arguments are known.
pub fn all_known(call: Option<u32>, args: &[u64; 6]) -> Known
    ensures known { result ≡ all_known call args.now }
{
    Known {
        call,
        arguments: [
            Some(args[0]),
            Some(args[1]),
            Some(args[2]),
            Some(args[3]),
            Some(args[4]),
            Some(args[5]),
        ],
    }
}

/// How the numbers of a register are named.
pub fn form_on(known: &Known, register: Register) -> Form
    ensures form { result ≡ form_on known.now register }
{
    match register {
        Register::Number | Register::Pointer => Form::Plain,
        Register::Argument(i) => form_of_argument(known, usize::from(i)),
    }
}

/// How the numbers of an argument are named: by constants only where the call is given.
pub fn form_of_argument(known: &Known, i: usize) -> Form
    ensures form { result ≡ form_on known.now (Register.Argument i) }
{
    match known.call {
        Some(nr) => form_of(nr, i, &known.arguments),
        None => Form::Plain,
    }
}

// The number that a line gives an argument.
fn fixed_by(choices: &[Choice], i: u8) -> Option<u64>
    ensures fixed { result ≡ fixed_by choices.now i }
{
    for choice in choices {
        if let Some(number) = fixed_in(&choice.terms, i) {
            return Some(number);
        }
    }
    None
}

// The number that a choice of one term gives an argument.
fn fixed_in(terms: &[Term], i: u8) -> Option<u64>
    ensures fixed { result ≡ fixed_in i terms.now }
{
    match terms {
        [term] if fixes(*term, i) => Some(term.first),
        _ => None,
    }
}

fn fixes(term: Term, i: u8) -> bool
    ensures fixes { result ≡ fixes i term }
{
    term.register == Register::Argument(i) && term.is_equality() && is_whole(term.mask)
}
