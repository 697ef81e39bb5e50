//! What a part of a comparison is to `ask lint`: of a chain as it is with the chain that takes calls as Linux does.
ghost use Rattle.std.specs.Prelude.{◌≡◌};
ghost use Rattle.std.specs.List.{list_any};
ghost use Rattle.sk_when.specs.Lint.{concern_of, has_concern, is_concern, is_int, lint_finding, lint_names, named_by, needs_a_sign, needs_sign, piece_has, some_has, upper_of, with_one_above};
ghost use Rattle.sk_when.specs.Pieces.{meets_calls};

use crate::diff_engine::Finding;
use crate::names::Names;
use crate::piece::{Calls, Outcome, Part, Piece};
use sk_arguments::{Kind, Naming, kind_of};
use sk_conditions::{Relation, stands};
use sk_insn::Record;
use sk_names::Architecture;
use sk_terms::meets;

/// The upper half of an int below 0 where it is extended by its sign.
const SIGN: u64 = 0xffff_ffff;

/// The places of the arguments of a call.
pub const ARGUMENTS: [usize; 6] = [0, 1, 2, 3, 4, 5];

/// The bit that each number of x32 has.
const X32_BIT: u32 = 0x4000_0000;

/// What bits that Linux does not read do to the verdict on some calls.
#[derive(Clone, Copy, Debug, PartialEq, Eq)]
pub enum Concern {
    /// It is less strict.
    Looser,
    /// It is as strict or stricter, on calls with an int that is extended by its sign: a call without the extension passes.
    Signed,
    /// It is not known.
    Undecided,
    /// It is as strict or stricter.
    Stricter,
}

/// By whose names the calls with a number are told.
pub fn named_by(nr: u32) -> Architecture
    ensures by { result ≡ named_by nr }
{
    if nr < X32_BIT {
        Architecture::X86_64
    } else {
        Architecture::X32
    }
}

/// How calls with a number are written.
pub fn lint_names(naming: Naming, nr: u32) -> Names
    ensures names { result ≡ lint_names naming nr }
{
    Names {
        naming,
        architecture: named_by(nr),
    }
}

/// What is found of all pieces: whether something is to be told.
pub fn lint_finding(pieces: &[Piece]) -> Finding
    ensures finding { result ≡ lint_finding pieces.now }
{
    if some_has(Concern::Looser, pieces) || some_has(Concern::Signed, pieces) {
        Finding::Fails
    } else if some_has(Concern::Undecided, pieces) {
        Finding::Undecided
    } else {
        Finding::Holds
    }
}

/// Whether a part of some piece is of a concern.
pub fn some_has(concern: Concern, pieces: &[Piece]) -> bool
    ensures some { result ≡ some_has concern pieces.now }
{
    pieces.iter().any(|piece| piece_has(concern, &piece.parts))
}

fn piece_has(concern: Concern, parts: &[Part]) -> bool
    ensures some { result ≡ list_any (has_concern concern) parts.now }
{
    parts.iter().any(|part| has_concern(concern, part))
}

/// Whether a part is of a concern.
pub fn has_concern(concern: Concern, part: &Part) -> bool
    ensures has { result ≡ has_concern concern part.now }
{
    is_concern(concern_of(part), concern)
}

fn is_concern(one: Concern, other: Concern) -> bool
    ensures same { result ≡ is_concern one other }
{
    match one {
        Concern::Looser => matches!(other, Concern::Looser),
        Concern::Signed => matches!(other, Concern::Signed),
        Concern::Undecided => matches!(other, Concern::Undecided),
        Concern::Stricter => matches!(other, Concern::Stricter),
    }
}

/// Of which concern a part is.
pub fn concern_of(part: &Part) -> Concern
    ensures concern { result ≡ concern_of part.now }
{
    match part.outcome {
        Outcome::Undecided => Concern::Undecided,
        Outcome::Apart(pair, call) => {
            if !stands(Relation::AsStrict, pair.old, pair.new) {
                Concern::Looser
            } else if needs_a_sign(&part.calls, &call) {
                Concern::Signed
            } else {
                Concern::Stricter
            }
        }
    }
}

// Whether what is said of a call hangs on the sign of an int in one of its arguments.
fn needs_a_sign(calls: &Calls, call: &Record) -> bool
    ensures needs { result ≡ needs_a_sign calls.now call.now }
{
    ARGUMENTS.iter().any(|i| needs_sign(calls, call, *i))
}

fn needs_sign(calls: &Calls, call: &Record, i: usize) -> bool
    ensures needs { result ≡ needs_sign calls.now call.now i }
{
    is_int(kind_of(call.nr, i))
        && upper_of(call, i) == SIGN
        && !meets_calls(calls, &with_one_above(call, i))
}

fn is_int(kind: Kind) -> bool
    ensures int { result ≡ is_int kind }
{
    matches!(kind, Kind::Int)
}

// The upper half of an argument.
fn upper_of(call: &Record, i: usize) -> u64
    ensures upper { result ≡ upper_of call.now i }
{
    match call.args.get(i) {
        Some(argument) => *argument / (1 << 32),
        None => 0,
    }
}

// The call with 1 in the upper half of an argument.
#[tactic(auto, using(crate::proofs::Counts::set_past))]
fn with_one_above(call: &Record, i: usize) -> Record
    ensures with_one { result ≡ with_one_above call.now i }
{
    let mut args = call.args;
    if i < args.len() {
        args[i] = (1 << 32) + args[i] % (1 << 32);
    }
    Record { args, ..*call }
}

fn meets_calls(calls: &Calls, call: &Record) -> bool
    ensures meets { result ≡ meets_calls calls.now call.now }
{
    match calls {
        Calls::Every => true,
        Calls::Meeting(line) => meets(line, call),
    }
}
