//! Whether a call meets the condition of a line.
ghost use Rattle.std.specs.Prelude.{◌≡◌, slice_index_or};
ghost use Rattle.sk_terms.specs.Terms.{holds_term, register_of};
ghost use Rattle.sk_terms.specs.Lines.{holds_choice, meets_line};

use crate::choices::Choice;
use crate::lines::Line;
use crate::term::{Register, Term};
use sk_insn::Record;

/// Whether a call meets the condition of a line.
pub fn meets(line: &Line, call: &Record) -> bool
    ensures meets { result ≡ meets_line line.now call.now }
{
    line.choices.iter().all(|choice| holds_one(choice, call))
}

fn holds_one(choice: &Choice, call: &Record) -> bool
    ensures holds { result ≡ holds_choice choice.now call.now }
{
    choice.terms.iter().any(|term| holds(*term, call))
}

fn holds(term: Term, call: &Record) -> bool
    ensures holds { result ≡ holds_term term call.now }
{
    term.takes(register_in(term.register, call) & term.mask)
}

fn register_in(register: Register, call: &Record) -> u64
    ensures held { result ≡ register_of register call.now }
{
    match register {
        Register::Number => u64::from(call.nr),
        Register::Pointer => call.ip,
        Register::Argument(i) => argument(&call.args, usize::from(i)),
    }
}

fn argument(arguments: &[u64], i: usize) -> u64
    ensures argument { result ≡ slice_index_or arguments.now i 0 }
{
    if i < arguments.len() { arguments[i] } else { 0 }
}
