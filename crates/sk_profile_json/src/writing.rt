//! The text of the profile that allows calls by their numbers.
ghost use Rattle.std.specs.Prelude.{◌≡◌, ◌++◌, ◌∷◌, [], codes, map, find, is_some, not, IfOk, OnOk};
ghost use Rattle.std.specs.List.{cons_option};
ghost use Rattle.std.specs.Option.{option_map};
ghost use Rattle.json.specs.Json.{array, string};
ghost use Rattle.json.specs.Token as token;
ghost use Rattle.json.specs.Tree.{json_tokens, items_tokens};
ghost use Rattle.sk_names.specs.Names.{name_on};
ghost use Rattle.sk_profile_json.specs.Keys.{key_of};
ghost use Rattle.sk_profile_json.specs.Machines.{scmp_name};
ghost use Rattle.sk_profile_json.specs.Writing.{IsProfileText, SaysOf, entries, entry, first_unnamed, names_of, profile_text, strings, value_of};

use crate::fault::Field;
use crate::machine::scmp_name;
use json::{Pretty, Token};
use sk_names::{Architecture, name};
use std::alloc::{AllocError, Global};

/// The text of the profile, as docker has it, that allows the calls of x86-64 with these numbers and refuses all others by EPERM; or
/// the first number that no call of x86-64 has.
pub fn profile_text(alloc: Global, numbers: &[u32]) -> Result<Result<Vec<u8>, u32>, AllocError>
    ensures text { IfOk result (IsProfileText numbers.now) }
    ensures says { IfOk result (λ told. IfOk told (λ text. SaysOf numbers.now text.items)) }
{
    match first_unnamed(numbers) {
        Some(number) => Ok(Err(number)),
        None => Ok(Ok(text_of(alloc, numbers)?)),
    }
}

fn first_unnamed(numbers: &[u32]) -> Option<u32>
    ensures first { result ≡ first_unnamed numbers.now }
{
    numbers.iter().copied().find(|number| is_unnamed(*number))
}

fn is_unnamed(number: u32) -> bool
    ensures is { result ≡ not (is_some (name_on Architecture.X86_64 number)) }
{
    name(Architecture::X86_64, number).is_none()
}

fn text_of(alloc: Global, numbers: &[u32]) -> Result<Vec<u8>, AllocError>
    ensures text { IfOk result (λ text. text.items ≡ profile_text numbers.now) }
{
    let mut out = Pretty::new(alloc);
    push_profile(&mut out, numbers)?;
    let mut text = out.into_inner();
    text.push(b'\n')?;
    Ok(text)
}

fn push_profile(out: &mut Pretty, numbers: &[u32]) -> Result<(), AllocError>
    ensures pushed { OnOk result (out.new ≡ out.old ++ json_tokens (value_of numbers.now)) }
{
    out.token(Token::BeginObject)?;
    push_string(out, Field::DefaultAction, "SCMP_ACT_ERRNO")?;
    push_error(out)?;
    push_architecture(out)?;
    push_key(out, Field::Syscalls)?;
    push_entries(out, numbers)?;
    out.token(Token::EndObject)
}

fn push_key(out: &mut Pretty, field: Field) -> Result<(), AllocError>
    ensures pushed { OnOk result (out.new ≡ out.old ++ token.key (key_of field) ∷ []) }
{
    out.token(Token::Key(field.key()))
}

fn push_string(out: &mut Pretty, field: Field, text: &str) -> Result<(), AllocError>
    ensures pushed { OnOk result (out.new ≡ out.old ++ token.key (key_of field) ∷ token.string text.now ∷ []) }
{
    push_key(out, field)?;
    out.token(Token::String(text))
}

// EPERM, by its number.
#[tactic(auto, unfolding(json::specs::Word::after_number))]
fn push_error(out: &mut Pretty) -> Result<(), AllocError>
    ensures pushed { OnOk result (out.new ≡ out.old ++ token.key (key_of Field.DefaultErrnoRet) ∷ token.number (codes "1") ∷ []) }
{
    push_key(out, Field::DefaultErrnoRet)?;
    out.token(Token::Number("1"))
}

fn push_architecture(out: &mut Pretty) -> Result<(), AllocError>
    ensures pushed { OnOk result (out.new
        ≡ out.old ++ token.key (key_of Field.Architectures) ∷ json_tokens (array (strings (scmp_name Architecture.X86_64 ∷ [])))) }
{
    push_key(out, Field::Architectures)?;
    out.token(Token::BeginArray)?;
    out.token(Token::String(scmp_name(Architecture::X86_64)))?;
    out.token(Token::EndArray)
}

// An entry has one name at least.
fn push_entries(out: &mut Pretty, numbers: &[u32]) -> Result<(), AllocError>
    ensures pushed { OnOk result (out.new ≡ out.old ++ json_tokens (array (entries numbers.now))) }
{
    out.token(Token::BeginArray)?;
    if !numbers.is_empty() {
        push_entry(out, numbers)?;
    }
    out.token(Token::EndArray)
}

fn push_entry(out: &mut Pretty, numbers: &[u32]) -> Result<(), AllocError>
    ensures pushed { OnOk result (out.new ≡ out.old ++ json_tokens (entry numbers.now)) }
{
    out.token(Token::BeginObject)?;
    push_key(out, Field::Names)?;
    push_list(out, numbers)?;
    push_string(out, Field::Action, "SCMP_ACT_ALLOW")?;
    out.token(Token::EndObject)
}

fn push_list(out: &mut Pretty, numbers: &[u32]) -> Result<(), AllocError>
    ensures pushed { OnOk result (out.new ≡ out.old ++ json_tokens (array (strings (names_of numbers.now)))) }
{
    out.token(Token::BeginArray)?;
    push_names(out, numbers)?;
    out.token(Token::EndArray)
}

fn push_names(out: &mut Pretty, numbers: &[u32]) -> Result<(), AllocError>
    ensures pushed { OnOk result (out.new ≡ out.old ++ map token.string (names_of numbers.now)) }
{
    for number in numbers {
        push_name(out, *number)?;
    }
    Ok(())
}

fn push_name(out: &mut Pretty, number: u32) -> Result<(), AllocError>
    ensures pushed { OnOk result (out.new ≡ out.old ++ map token.string (cons_option (name_on Architecture.X86_64 number) [])) }
{
    match name(Architecture::X86_64, number) {
        Some(name) => out.token(Token::String(name)),
        None => Ok(()),
    }
}
