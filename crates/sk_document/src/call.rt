//! Calls in documents.
ghost use Rattle.std.specs.Prelude.{◌≡◌, ◌++◌, flat_map, OnOk};
ghost use Rattle.sk_document.specs.Calls.{arguments_at, call, hexadecimal_at, hexadecimal_said, record_at, record_digits, registers, text_at};

use crate::document::Document;
use crate::numbers::add_name;
use sk_insn::Record;
use sk_names::{Architecture, name};
use sk_text::HexDigits;
use sk_when::{Names, push_call};
use std::alloc::AllocError;
use std::fmt::Write;

/// Adds a call of an architecture.
#[tactic(auto, unfolding(crate::specs::Calls::call))]
pub fn add_call(to: &mut Document, names: Names, it: Record) -> Result<(), AllocError>
    ensures added { OnOk result (to.new ≡ to.old ++ call names it) }
{
    to.begin_object()?;
    to.number_at("number", u64::from(it.nr))?;
    add_name(to, name(names.architecture, it.nr))?;
    add_registers(to, it)?;
    add_record_at(to, names.architecture, it)?;
    add_text_at(to, names, it)?;
    to.end_object()
}

#[tactic(auto, unfolding(crate::specs::Calls::registers))]
fn add_registers(to: &mut Document, it: Record) -> Result<(), AllocError>
    ensures added { OnOk result (to.new ≡ to.old ++ registers it) }
{
    add_arguments(to, it)?;
    add_hexadecimal_at(to, "ip", it.ip)
}

#[tactic(auto, unfolding(crate::specs::Calls::arguments_at))]
fn add_arguments(to: &mut Document, it: Record) -> Result<(), AllocError>
    ensures added { OnOk result (to.new ≡ to.old ++ arguments_at it) }
{
    to.at("args")?;
    to.begin_array()?;
    add_hexadecimals(to, &it.args)?;
    to.end_array()
}

fn add_hexadecimals(to: &mut Document, numbers: &[u64]) -> Result<(), AllocError>
    ensures added { OnOk result (to.new ≡ to.old ++ flat_map hexadecimal_said numbers.now) }
{
    for number in numbers {
        add_hexadecimal(to, *number)?;
    }
    Ok(())
}

/// Adds a number as C reads it in hexadecimal.
pub fn add_hexadecimal(to: &mut Document, number: u64) -> Result<(), AllocError>
    ensures added { OnOk result (to.new ≡ to.old ++ hexadecimal_said number) }
{
    let mut text = to.text();
    write!(text, "0x{number:x}")?;
    to.string(text.as_str())
}

/// Adds a key with a number as C reads it in hexadecimal.
#[tactic(auto, unfolding(crate::specs::Calls::hexadecimal_at))]
pub fn add_hexadecimal_at(to: &mut Document, name: &str, number: u64) -> Result<(), AllocError>
    ensures added { OnOk result (to.new ≡ to.old ++ hexadecimal_at name.now number) }
{
    to.at(name)?;
    add_hexadecimal(to, number)
}

#[tactic(auto, unfolding(crate::specs::Calls::record_at))]
fn add_record_at(
    to: &mut Document,
    architecture: Architecture,
    call: Record,
) -> Result<(), AllocError>
    ensures added { OnOk result (to.new ≡ to.old ++ record_at architecture call) }
{
    let digits = record_digits(architecture, call);
    to.string_at("record", digits.as_str())
}

// The record of the same call of an architecture.
#[tactic(auto, unfolding(crate::specs::Calls::record_digits))]
fn record_digits(architecture: Architecture, call: Record) -> HexDigits<128>
    ensures digits { result ≡ record_digits architecture call }
{
    let there = Record {
        arch: architecture.audit(),
        ..call
    };
    HexDigits::of(&there.bytes())
}

#[tactic(auto, unfolding(crate::specs::Calls::text_at))]
fn add_text_at(to: &mut Document, names: Names, call: Record) -> Result<(), AllocError>
    ensures added { OnOk result (to.new ≡ to.old ++ text_at names call) }
{
    let mut text = to.text();
    push_call(&mut text, names, call)?;
    to.string_at("text", text.as_str())
}
