//! Conditions in expressions of C, and arguments of calls.
ghost use Rattle.std.specs.Prelude.{◌≡◌, ◌<◌, ◌++◌, OnOk, string_bytes, codes, flat_map};
ghost use Rattle.sk_terms.specs.Constants.{mask_of, parts_of};
ghost use Rattle.sk_terms.specs.Expressions.{all_bits};
ghost use Rattle.sk_terms.specs.Text.{alone_text, argument_text, bits_text, choice_text, choices_text, condition_text, group_text, hexadecimal, known_text, mask_text, number_text, other_text, part_text, parts_text, passed_text, register_text, term_text, terms_text, value_text, wording_text};

use crate::choices::Choice;
use crate::constants::{Part, parts_of};
use crate::known::{Known, all_known, form_of_argument, form_on, known_by, nothing_known};
use crate::lines::Line;
use crate::mask::mask_of;
use crate::term::{Register, Term};
use crate::wording::{Wording, worded};
use sk_arguments::{Form, Set};
use std::alloc::AllocError;
use std::fmt::Write;

/// Adds the condition of a line, with the constants of a call where one is given by its number on x86-64.
pub fn push_condition(text: &mut String, call: Option<u32>, line: &Line) -> Result<(), AllocError>
    ensures text { OnOk result (string_bytes text.new ≡ string_bytes text.old ++ condition_text call line.now) }
{
    push_choices(text, &known_by(call, &line.choices), &line.choices)
}

fn push_choices(text: &mut String, known: &Known, choices: &[Choice]) -> Result<(), AllocError>
    ensures text { OnOk result (string_bytes text.new ≡ string_bytes text.old ++ choices_text known.now choices.now) }
{
    let Some((first, others)) = choices.split_first() else {
        return text.push_str("1");
    };
    if others.is_empty() {
        return push_terms(text, known, &first.terms);
    }
    push_choice(text, known, &first.terms)?;
    push_other_choices(text, known, others)
}

fn push_other_choices(
    text: &mut String,
    known: &Known,
    choices: &[Choice],
) -> Result<(), AllocError>
    ensures text { OnOk result (string_bytes text.new ≡
        string_bytes text.old ++ flat_map (λ choice. codes " && " ++ choice_text known.now choice.terms.items) choices.now) }
{
    for choice in choices {
        push_other_choice(text, known, &choice.terms)?;
    }
    Ok(())
}

fn push_other_choice(text: &mut String, known: &Known, terms: &[Term]) -> Result<(), AllocError>
    ensures text { OnOk result (string_bytes text.new ≡ string_bytes text.old ++ (codes " && " ++ choice_text known.now terms.now)) }
{
    text.push_str(" && ")?;
    push_choice(text, known, terms)
}

// A choice that stands beside others.
fn push_choice(text: &mut String, known: &Known, terms: &[Term]) -> Result<(), AllocError>
    ensures text { OnOk result (string_bytes text.new ≡ string_bytes text.old ++ choice_text known.now terms.now) }
{
    match terms {
        [] => text.push_str("0"),
        [term] => push_known(text, known, *term),
        _ => {
            text.push_str("(")?;
            push_terms(text, known, terms)?;
            text.push_str(")")
        }
    }
}

fn push_terms(text: &mut String, known: &Known, terms: &[Term]) -> Result<(), AllocError>
    ensures text { OnOk result (string_bytes text.new ≡ string_bytes text.old ++ terms_text known.now terms.now) }
{
    let Some((first, others)) = terms.split_first() else {
        return text.push_str("0");
    };
    if others.is_empty() {
        return push_known(text, known, *first);
    }
    push_beside(text, known, *first)?;
    push_other_terms(text, known, others)
}

fn push_other_terms(text: &mut String, known: &Known, terms: &[Term]) -> Result<(), AllocError>
    ensures text { OnOk result (string_bytes text.new ≡
        string_bytes text.old ++ flat_map (λ term. codes " || " ++ other_text known.now term) terms.now) }
{
    for term in terms {
        push_other_term(text, known, *term)?;
    }
    Ok(())
}

fn push_other_term(text: &mut String, known: &Known, term: Term) -> Result<(), AllocError>
    ensures text { OnOk result (string_bytes text.new ≡ string_bytes text.old ++ (codes " || " ++ other_text known.now term)) }
{
    text.push_str(" || ")?;
    push_beside(text, known, term)
}

// A term that stands beside others.
fn push_beside(text: &mut String, known: &Known, term: Term) -> Result<(), AllocError>
    ensures text { OnOk result (string_bytes text.new ≡ string_bytes text.old ++ other_text known.now term) }
{
    match worded(term) {
        Wording::Within(_, _) => {
            text.push_str("(")?;
            push_known(text, known, term)?;
            text.push_str(")")
        }
        _ => push_known(text, known, term),
    }
}

/// Adds one term, with the constants of a call where one is given by its number on x86-64.
pub fn push_term(text: &mut String, call: Option<u32>, term: Term) -> Result<(), AllocError>
    ensures text { OnOk result (string_bytes text.new ≡ string_bytes text.old ++ term_text call term) }
{
    push_known(text, &nothing_known(call), term)
}

fn push_known(text: &mut String, known: &Known, term: Term) -> Result<(), AllocError>
    ensures text { OnOk result (string_bytes text.new ≡ string_bytes text.old ++ known_text known.now term) }
{
    let bits = Bits {
        form: form_on(known, term.register),
        register: term.register,
        mask: term.mask,
    };
    push_wording(text, bits, worded(term))
}

/// Some bits of a register, and how their numbers are named.
#[derive(Clone, Copy)]
struct Bits {
    form: Form,
    register: Register,
    mask: u64,
}

fn push_wording(text: &mut String, bits: Bits, wording: Wording) -> Result<(), AllocError>
    ensures text { OnOk result (string_bytes text.new ≡ string_bytes text.old ++ wording_text bits.form bits.register bits.mask wording) }
{
    match wording {
        Wording::Is(k) => push_equality(text, bits, " == ", k),
        Wording::IsNot(k) => push_equality(text, bits, " != ", k),
        Wording::AtMost(k) => push_bound(text, bits, " <= ", k),
        Wording::AtLeast(k) => push_bound(text, bits, " >= ", k),
        Wording::Within(first, last) => {
            push_number(text, first)?;
            text.push_str(" <= ")?;
            push_bits(text, bits)?;
            text.push_str(" && ")?;
            push_bound(text, bits, " <= ", last)
        }
        Wording::Outside(first, last) => push_outside(text, bits, first, last),
    }
}

fn push_outside(text: &mut String, bits: Bits, first: u64, last: u64) -> Result<(), AllocError>
    ensures text { OnOk result (string_bytes text.new ≡ string_bytes text.old ++ wording_text bits.form bits.register bits.mask (Wording.Outside first last)) }
{
    text.push_str("(")?;
    push_bound(text, bits, " < ", first)?;
    text.push_str(" || ")?;
    push_above(text, bits, last)
}

fn push_above(text: &mut String, bits: Bits, last: u64) -> Result<(), AllocError>
    ensures text { OnOk result (string_bytes text.new ≡
        string_bytes text.old ++ (number_text last ++ (codes " < " ++ (bits_text bits.form bits.register bits.mask ++ codes ")")))) }
{
    push_number(text, last)?;
    text.push_str(" < ")?;
    push_bits(text, bits)?;
    text.push_str(")")
}

fn push_bound(text: &mut String, bits: Bits, operator: &str, k: u64) -> Result<(), AllocError>
    ensures text { OnOk result (string_bytes text.new ≡
        string_bytes text.old ++ (bits_text bits.form bits.register bits.mask ++ (operator.now ++ number_text k))) }
{
    push_bits(text, bits)?;
    text.push_str(operator)?;
    push_number(text, k)
}

fn push_equality(text: &mut String, bits: Bits, operator: &str, k: u64) -> Result<(), AllocError>
    ensures text { OnOk result (string_bytes text.new ≡
        string_bytes text.old ++ (bits_text bits.form bits.register bits.mask ++ (operator.now ++ value_text bits.form bits.mask k))) }
{
    push_bits(text, bits)?;
    text.push_str(operator)?;
    push_value(text, bits, k)
}

fn push_value(text: &mut String, bits: Bits, k: u64) -> Result<(), AllocError>
    ensures text { OnOk result (string_bytes text.new ≡ string_bytes text.old ++ value_text bits.form bits.mask k) }
{
    if let Form::Plain = bits.form {
        return push_number(text, k);
    }
    let parts = parts_of(*text.allocator(), bits.form, bits.mask, k)?;
    push_group(text, &parts)
}

fn push_bits(text: &mut String, bits: Bits) -> Result<(), AllocError>
    ensures text { OnOk result (string_bytes text.new ≡ string_bytes text.old ++ bits_text bits.form bits.register bits.mask) }
{
    if bits.mask == all_bits(bits.register) {
        return push_register(text, bits.register);
    }
    text.push_str("(")?;
    push_register(text, bits.register)?;
    text.push_str(" & ")?;
    push_mask(text, bits.form, bits.mask)?;
    text.push_str(")")
}

fn push_mask(text: &mut String, form: Form, mask: u64) -> Result<(), AllocError>
    ensures text { OnOk result (string_bytes text.new ≡ string_bytes text.old ++ mask_text (mask_of form mask)) }
{
    if let Form::Plain = form {
        return push_number(text, mask);
    }
    let written = mask_of(*text.allocator(), form, mask)?;
    text.push_str(written.before)?;
    push_group(text, &written.parts)
}

// Parts that stand beside operators.
fn push_group(text: &mut String, parts: &[Part]) -> Result<(), AllocError>
    ensures text { OnOk result (string_bytes text.new ≡ string_bytes text.old ++ group_text parts.now) }
{
    match parts {
        [] => Ok(()),
        [part] => push_part(text, *part),
        _ => {
            text.push_str("(")?;
            push_parts(text, parts)?;
            text.push_str(")")
        }
    }
}

fn push_parts(text: &mut String, parts: &[Part]) -> Result<(), AllocError>
    ensures text { OnOk result (string_bytes text.new ≡ string_bytes text.old ++ parts_text parts.now) }
{
    let Some((first, others)) = parts.split_first() else {
        return Ok(());
    };
    push_part(text, *first)?;
    push_other_parts(text, others)
}

fn push_other_parts(text: &mut String, parts: &[Part]) -> Result<(), AllocError>
    ensures text { OnOk result (string_bytes text.new ≡
        string_bytes text.old ++ flat_map (λ part. codes "|" ++ part_text part) parts.now) }
{
    for part in parts {
        push_other_part(text, *part)?;
    }
    Ok(())
}

fn push_other_part(text: &mut String, part: Part) -> Result<(), AllocError>
    ensures text { OnOk result (string_bytes text.new ≡ string_bytes text.old ++ (codes "|" ++ part_text part)) }
{
    text.push_str("|")?;
    push_part(text, part)
}

fn push_part(text: &mut String, part: Part) -> Result<(), AllocError>
    ensures text { OnOk result (string_bytes text.new ≡ string_bytes text.old ++ part_text part) }
{
    match part {
        Part::Constant(set, number) => push_constant(text, set, number),
        Part::Number(number) => push_number(text, number),
    }
}

fn push_constant(text: &mut String, set: Set, number: u64) -> Result<(), AllocError>
    ensures text { OnOk result (string_bytes text.new ≡ string_bytes text.old ++ part_text (Part.Constant set number)) }
{
    match set.name(number) {
        Some(name) => text.push_str(name),
        None => push_number(text, number),
    }
}

/// Adds an argument of a call behind others, with the constants of the call where it is given by its number on x86-64.
#[tactic(auto, unfolding(crate::specs::Text::argument_text))]
pub fn push_argument(
    text: &mut String,
    call: Option<u32>,
    args: &[u64; 6],
    i: usize,
) -> Result<(), AllocError>
    requires place { i < 6 }
    ensures text { OnOk result (string_bytes text.new ≡ string_bytes text.old ++ argument_text call args.now i) }
{
    let number = args[i];
    text.push_str(", ")?;
    match form_of_argument(&all_known(call, args), i) {
        Form::Plain => push_hexadecimal(text, number),
        form => {
            let parts = parts_of(*text.allocator(), form, u64::MAX, number)?;
            push_passed(text, &parts)
        }
    }
}

// Parts that stand between commas.
fn push_passed(text: &mut String, parts: &[Part]) -> Result<(), AllocError>
    ensures text { OnOk result (string_bytes text.new ≡ string_bytes text.old ++ passed_text parts.now) }
{
    match parts {
        [part] => push_alone(text, *part),
        _ => push_parts(text, parts),
    }
}

fn push_alone(text: &mut String, part: Part) -> Result<(), AllocError>
    ensures text { OnOk result (string_bytes text.new ≡ string_bytes text.old ++ alone_text part) }
{
    match part {
        Part::Constant(set, number) => push_constant(text, set, number),
        Part::Number(number) => push_hexadecimal(text, number),
    }
}

fn push_hexadecimal(text: &mut String, number: u64) -> Result<(), AllocError>
    ensures text { OnOk result (string_bytes text.new ≡ string_bytes text.old ++ hexadecimal number) }
{
    write!(text, "0x{number:x}")
}

/// All bits of a register.
pub fn all_bits(register: Register) -> u64
    ensures all { result ≡ all_bits register }
{
    match register {
        Register::Number => u64::from(u32::MAX),
        Register::Pointer | Register::Argument(_) => u64::MAX,
    }
}

fn push_register(text: &mut String, register: Register) -> Result<(), AllocError>
    ensures text { OnOk result (string_bytes text.new ≡ string_bytes text.old ++ register_text register) }
{
    match register {
        Register::Number => text.push_str("nr"),
        Register::Pointer => text.push_str("ip"),
        Register::Argument(i) => write!(text, "args[{i}]"),
    }
}

fn push_number(text: &mut String, number: u64) -> Result<(), AllocError>
    ensures text { OnOk result (string_bytes text.new ≡ string_bytes text.old ++ number_text number) }
{
    if number == 0 {
        text.push_str("0")
    } else {
        write!(text, "0x{number:x}")
    }
}
