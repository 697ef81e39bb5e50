//! The forms that a filter is written in.
ghost use Rattle.std.specs.Prelude.{◌≡◌, ◌++◌, IfOk, OnOk, flat_map, string_bytes};
ghost use Rattle.sk_ask.specs.declared.target.Target.TheVariants.{Hex as hex_target, Lines as lines_target};
ghost use Rattle.sk_ask.specs.Targets.{grant_named, json_more, json_row, json_text, target_named, target_option, written_text};

use crate::filter::push_filter;
use sk_forms::{array_text, base64_text, decimals_text};
use sk_insn::{Insn, write_insns};
use sk_text::is_same;
use std::alloc::{AllocError, Global};
use std::fmt::Write;

/// A form that filters are written in.
#[derive(Clone, Copy, Debug, PartialEq, Eq)]
pub enum Target {
    /// A line `filter HEX` for each filter.
    Lines,
    /// The bytes of one filter.
    Raw,
    /// Its bytes in hexadecimal digits.
    Hex,
    /// The rows of an array of C.
    C,
    /// Its bytes in base64.
    Base64,
    /// A line of decimals, as bpf_asm writes it.
    BpfAsm,
    /// An array of JSON.
    Json,
}

/// What is written to allow calls.
#[derive(Clone, Copy, Debug, PartialEq, Eq)]
pub enum Grant {
    /// A policy.
    Policy,
    /// A profile of docker's kind.
    Profile,
}

impl Grant {
    /// The one with this name.
    pub fn named(name: &[u8]) -> Option<Grant>
        ensures grant { result ≡ grant_named name.now }
    {
        if is_same(name, b"policy") {
            Some(Grant::Policy)
        } else if is_same(name, b"profile") {
            Some(Grant::Profile)
        } else {
            None
        }
    }
}

impl Target {
    /// The form with this name.
    pub fn named(name: &[u8]) -> Option<Target>
        ensures target { result ≡ target_named name.now }
    {
        if is_same(name, b"lines") {
            Some(Target::Lines)
        } else if is_same(name, b"raw") {
            Some(Target::Raw)
        } else if is_same(name, b"hex") {
            Some(Target::Hex)
        } else if is_same(name, b"c") {
            Some(Target::C)
        } else if is_same(name, b"base64") {
            Some(Target::Base64)
        } else if is_same(name, b"bpf_asm") {
            Some(Target::BpfAsm)
        } else if is_same(name, b"json") {
            Some(Target::Json)
        } else {
            None
        }
    }

    /// The option that asks for it.
    pub fn option(self) -> &'static str
        ensures option { result.now ≡ target_option self }
    {
        match self {
            Target::Lines => "--to lines",
            Target::Raw => "--raw",
            Target::Hex => "--to hex",
            Target::C => "--to c",
            Target::Base64 => "--to base64",
            Target::BpfAsm => "--to bpf_asm",
            Target::Json => "--to json",
        }
    }
}

/// A filter in a form.
pub fn written(alloc: Global, target: Target, insns: &[Insn]) -> Result<Vec<u8>, AllocError>
    ensures text { IfOk result (λ text. text.items ≡ written_text target insns.now) }
{
    match target {
        Target::Lines => line(alloc, insns),
        Target::Raw => write_insns(alloc, insns),
        Target::Hex => digits(alloc, insns),
        Target::C => Ok(array_text(alloc, insns)?.into_bytes()),
        Target::Base64 => Ok(base64_text(alloc, &write_insns(alloc, insns)?)?.into_bytes()),
        Target::BpfAsm => Ok(decimals_text(alloc, insns)?.into_bytes()),
        Target::Json => Ok(json_text(alloc, insns)?.into_bytes()),
    }
}

fn line(alloc: Global, insns: &[Insn]) -> Result<Vec<u8>, AllocError>
    ensures text { IfOk result (λ text. text.items ≡ written_text lines_target insns.now) }
{
    let mut text = Vec::new(alloc);
    push_filter(alloc, &mut text, &write_insns(alloc, insns)?)?;
    Ok(text)
}

fn digits(alloc: Global, insns: &[Insn]) -> Result<Vec<u8>, AllocError>
    ensures text { IfOk result (λ text. text.items ≡ written_text hex_target insns.now) }
{
    let mut text = hex::encode(alloc, &write_insns(alloc, insns)?)?.into_bytes();
    text.extend_from_slice(b"\n")?;
    Ok(text)
}

fn json_text(alloc: Global, insns: &[Insn]) -> Result<String, AllocError>
    ensures text { IfOk result (λ text. string_bytes text ≡ json_text insns.now) }
{
    let mut text = String::new(alloc);
    text.push_str("[")?;
    if let Some((first, more)) = insns.split_first() {
        push_json(&mut text, *first)?;
        push_more(&mut text, more)?;
    }
    text.push_str("]\n")?;
    Ok(text)
}

fn push_more(text: &mut String, insns: &[Insn]) -> Result<(), AllocError>
    ensures text { OnOk result (string_bytes text.new ≡ string_bytes text.old ++ flat_map json_more insns.now) }
{
    for insn in insns {
        push_behind(text, *insn)?;
    }
    Ok(())
}

#[tactic(auto, unfolding(crate::specs::Targets::json_more))]
fn push_behind(text: &mut String, insn: Insn) -> Result<(), AllocError>
    ensures text { OnOk result (string_bytes text.new ≡ string_bytes text.old ++ json_more insn) }
{
    text.push_str(",\n ")?;
    push_json(text, insn)
}

#[tactic(auto, unfolding(crate::specs::Targets::json_row))]
fn push_json(text: &mut String, insn: Insn) -> Result<(), AllocError>
    ensures text { OnOk result (string_bytes text.new ≡ string_bytes text.old ++ json_row insn) }
{
    let Insn { code, jt, jf, k } = insn;
    write!(
        text,
        "{{\"code\":{code},\"jt\":{jt},\"jf\":{jf},\"k\":{k}}}"
    )
}
