//! Rows that allow calls only with what logs show in their arguments.
ghost use Rattle.std.specs.Prelude.{◌≡◌, ◌==◌, ◌++◌, length, map, not, IfOk, OnOk};
ghost use Rattle.std.specs.Option.{option_map};
ghost use Rattle.std.specs.List.{list_any};
ghost use Rattle.std.specs.Str.{bytes_eq};
ghost use Rattle.sk_policy_when.specs.Narrowing.{AreAllowedRows, IsAllowedRow, IsNarrowedRow, IsPlainRow, address_names, allowed_row, allowed_rows, condition_at, conditions_for, conditions_on, is_address, is_wide, number_bits, read_bits, term_of, terms_in, terms_of, unshown_arguments, unshown_at};

use sk_arguments::{Kind, argument_name, kind_of};
use sk_replay::{Call, seen_numbers};
use sk_survey::{Answers, Row};
use sk_terms::{Choice, Line, Register, Term};
use sk_text::is_same;
use sk_when::ConditionalRow;
use std::alloc::{AllocError, Global};

/// SECCOMP_RET_ALLOW.
const ALLOW: u32 = 0x7fff_0000;

/// SECCOMP_RET_ERRNO with EPERM.
const REFUSED: u32 = 0x0005_0001;

/// A row for each of the numbers, which allows its calls. Of those that are narrowed it allows only the calls that show what the calls
/// of a log show: in each argument that is a number, and that all of these show, a number that one of them has.
pub fn allowed_rows(
    alloc: Global,
    numbers: &[u32],
    narrowed: &[u32],
    calls: &[Call],
) -> Result<Vec<ConditionalRow>, AllocError>
    ensures rows { IfOk result (λ rows. AreAllowedRows (allowed_rows numbers.now narrowed.now calls.now) rows.items) }
{
    let mut rows = Vec::with_capacity(alloc, numbers.len())?;
    for number in numbers {
        rows.push(allowed_row(alloc, narrowed, calls, *number)?)?;
    }
    Ok(rows)
}

/// Which arguments of the calls with a number are numbers that one of these calls does not show, from 0 on and in rising order.
pub fn unshown_arguments(alloc: Global, calls: &[Call], nr: u32) -> Result<Vec<usize>, AllocError>
    ensures places { IfOk result (λ places. places.items ≡ unshown_arguments calls.now nr) }
{
    let mut places = Vec::new(alloc);
    for place in 0..6 {
        push_unshown(alloc, &mut places, calls, nr, place)?;
    }
    Ok(places)
}

/// Whether nothing can narrow the calls with a number, since they do not show what could.
pub fn is_wide(alloc: Global, calls: &[Call], nr: u32) -> Result<bool, AllocError>
    ensures wide { IfOk result (λ wide. wide ≡ is_wide calls.now nr) }
{
    let choices = choices_on(alloc, calls, nr)?;
    if choices.is_empty() {
        return has_unshown(alloc, calls, nr);
    }
    Ok(false)
}

fn has_unshown(alloc: Global, calls: &[Call], nr: u32) -> Result<bool, AllocError>
    ensures has { IfOk result (λ has. has ≡ not (length (unshown_arguments calls.now nr) == 0)) }
{
    let unshown = unshown_arguments(alloc, calls, nr)?;
    Ok(!unshown.is_empty())
}

// Adds an argument that a call does not show.
fn push_unshown(
    alloc: Global,
    places: &mut Vec<usize>,
    calls: &[Call],
    nr: u32,
    place: usize,
) -> Result<(), AllocError>
    ensures pushed { OnOk result (places.new.items ≡ places.old.items ++ unshown_at calls.now nr place) }
{
    let Some(mask) = number_bits(nr, place) else {
        return Ok(());
    };
    if seen_numbers(alloc, calls, nr, place, mask)?.is_none() {
        places.push(place)?;
    }
    Ok(())
}

fn allowed_row(
    alloc: Global,
    narrowed: &[u32],
    calls: &[Call],
    nr: u32,
) -> Result<ConditionalRow, AllocError>
    ensures row { IfOk result (IsAllowedRow (allowed_row narrowed.now calls.now nr)) }
{
    let choices = choices_for(alloc, narrowed, calls, nr)?;
    if choices.is_empty() {
        return plain_row(alloc, nr);
    }
    narrowed_row(alloc, nr, choices)
}

// The row that allows all calls with a number.
fn plain_row(alloc: Global, nr: u32) -> Result<ConditionalRow, AllocError>
    ensures row { IfOk result (IsPlainRow nr) }
{
    Ok(ConditionalRow {
        row: Row {
            first: nr,
            last: nr,
            answers: Answers::one(alloc, ALLOW)?,
        },
        lines: Vec::new(alloc),
        otherwise: Some(ALLOW),
    })
}

// The row that allows those on which one term of each choice holds.
fn narrowed_row(alloc: Global, nr: u32, choices: Vec<Choice>) -> Result<ConditionalRow, AllocError>
    ensures row { IfOk result (IsNarrowedRow nr choices.items) }
{
    let line = Line {
        value: Some(ALLOW),
        choices,
    };
    let answers = Answers::Among(vec![in alloc; REFUSED, ALLOW]?);
    Ok(ConditionalRow {
        row: Row {
            first: nr,
            last: nr,
            answers,
        },
        lines: vec![in alloc; line]?,
        otherwise: Some(REFUSED),
    })
}

fn choices_for(
    alloc: Global,
    narrowed: &[u32],
    calls: &[Call],
    nr: u32,
) -> Result<Vec<Choice>, AllocError>
    ensures choices { IfOk result (λ choices. terms_in choices.items ≡ map terms_of (conditions_for narrowed.now calls.now nr)) }
{
    if narrowed.contains(&nr) {
        choices_on(alloc, calls, nr)
    } else {
        Ok(Vec::new(alloc))
    }
}

fn choices_on(alloc: Global, calls: &[Call], nr: u32) -> Result<Vec<Choice>, AllocError>
    ensures choices { IfOk result (λ choices. terms_in choices.items ≡ map terms_of (conditions_on calls.now nr)) }
{
    let mut choices = Vec::new(alloc);
    add_choice(alloc, &mut choices, calls, nr, 0)?;
    add_choice(alloc, &mut choices, calls, nr, 1)?;
    add_choice(alloc, &mut choices, calls, nr, 2)?;
    add_choice(alloc, &mut choices, calls, nr, 3)?;
    add_choice(alloc, &mut choices, calls, nr, 4)?;
    add_choice(alloc, &mut choices, calls, nr, 5)?;
    Ok(choices)
}

// Adds the condition on an argument, if there is one.
fn add_choice(
    alloc: Global,
    choices: &mut Vec<Choice>,
    calls: &[Call],
    nr: u32,
    argument: u8,
) -> Result<(), AllocError>
    ensures added { OnOk result (terms_in choices.new.items ≡ terms_in choices.old.items ++ map terms_of (condition_at calls.now nr argument)) }
{
    let place = usize::from(argument);
    let Some(mask) = number_bits(nr, place) else {
        return Ok(());
    };
    let Some(numbers) = seen_numbers(alloc, calls, nr, place, mask)? else {
        return Ok(());
    };
    if numbers.is_empty() {
        return Ok(());
    }
    let terms = terms_of(alloc, argument, mask, &numbers)?;
    choices.push(Choice { terms })?;
    Ok(())
}

// The bits of a register that are a number to Linux.
#[tactic(auto, unfolding(crate::specs::Narrowing::number_bits))]
fn number_bits(nr: u32, place: usize) -> Option<u64>
    ensures bits { result ≡ number_bits nr place }
{
    if is_address(argument_name(nr, place)) {
        return None;
    }
    read_bits(kind_of(nr, place))
}

// Whether an argument with the name is an address, though Linux may take it for a number.
fn is_address(named: Option<&str>) -> bool
    ensures address { result ≡ is_address (option_map (λ name. name.now) named.entry) }
{
    match named {
        Some(name) => is_address_name(name.as_bytes()),
        None => false,
    }
}

fn is_address_name(name: &[u8]) -> bool
    ensures address { result ≡ list_any (bytes_eq name.now) address_names }
{
    is_same(name, b"addr")
        || is_same(name, b"old_address")
        || is_same(name, b"new_address")
        || is_same(name, b"stack")
        || is_same(name, b"tls")
        || is_same(name, b"argp")
        || is_same(name, b"data")
        || is_same(name, b"start")
        || is_same(name, b"ctx_id")
}

// The bits of a register that Linux reads, where it is no pointer.
fn read_bits(kind: Kind) -> Option<u64>
    ensures bits { result ≡ read_bits kind }
{
    match kind {
        Kind::Absent | Kind::Pointer => None,
        Kind::Mode => Some(0xffff),
        Kind::Int | Kind::Unsigned => Some(0xffff_ffff),
        Kind::Long => Some(0xffff_ffff_ffff_ffff),
    }
}

fn terms_of(
    alloc: Global,
    argument: u8,
    mask: u64,
    numbers: &[u64],
) -> Result<Vec<Term>, AllocError>
    ensures terms { IfOk result (λ terms. terms.items ≡ map (term_of argument mask) numbers.now) }
{
    let mut terms = Vec::with_capacity(alloc, numbers.len())?;
    for number in numbers {
        terms.push(Term {
            register: Register::Argument(argument),
            mask,
            first: *number,
            last: *number,
            inside: true,
        })?;
    }
    Ok(terms)
}
