//! A whole profile.
ghost use Rattle.std.specs.Prelude.{◌≡◌, map, None, Ok, IfOk, IfErr};
ghost use Rattle.std.specs.Result.{result_map_both};
ghost use Rattle.json.specs.Value.{value_view};
ghost use Rattle.sk_profile.specs.Views.{profile_of};
ghost use Rattle.sk_profile_json.specs.declared.fault.ReadFault.TheVariants.{NotJson};
ghost use Rattle.sk_profile_json.specs.Slips.{slip_of};
ghost use Rattle.sk_profile_json.specs.Inspected.{text_inside};
ghost use Rattle.sk_profile_json.specs.WholeViews.{head_view};
ghost use Rattle.sk_profile_json.specs.Wholes.{default_in, default_with, head_of, head_with, head_unless, profile_in, Says, SaysWithin, IsDocument, IsTextFault, IsFault, IsFaultWithin, IsReadFault};

use crate::actions::{action, value};
use crate::architectures::wrong_lists;
use crate::context::Context;
use crate::document::profile_of_document;
use crate::entry::is_told;
use crate::fault::{Fault, Field, Place, ReadFault, Wrong};
use crate::fields::{list, wrong_keys};
use crate::inside::read_inside;
use crate::inspected::text_inside;
use crate::named::named_of;
use crate::parts::parts_of;
use crate::slip::slip_of;
use json::{Error, Scratch, Value};
use sk_insn::Action;
use sk_profile::Profile;
use std::alloc::Global;

/// The fields that a profile may have.
const FIELDS: [Field; 9] = [
    Field::DefaultAction,
    Field::DefaultErrnoRet,
    Field::DefaultErrno,
    Field::Architectures,
    Field::ArchMap,
    Field::Flags,
    Field::ListenerPath,
    Field::ListenerMetadata,
    Field::Syscalls,
];

/// The value of calls that no rule fits, and the entries.
#[derive(Clone, Copy, Debug, Drop)]
pub(crate) struct Head<'v, 'a> {
    pub default: u32,
    pub entries: &'v [Value<'a>],
}

/// The document that a text is, in which no object has a key twice. What its texts need beside the text is kept in `scratch`.
pub fn value_of<'a>(
    alloc: Global,
    text: &'a str,
    scratch: &'a mut Scratch,
) -> Result<Value<'a>, ReadFault>
    ensures value { IfOk result (λ value. IsDocument text.now (value_view value)) }
    ensures fault { IfErr result (IsTextFault text.now) }
{
    match Value::parse_strict(alloc, text, scratch) {
        Err(Error::Invalid) | Err(Error::TooLong) => Err(not_json(text)),
        Err(Error::DuplicateKey) => Err(ReadFault::KeyTwice),
        Err(Error::OutOfMemory) => Err(ReadFault::Memory),
        Ok(value) => Ok(value),
    }
}

fn not_json(text: &str) -> ReadFault
    ensures slip { result ≡ NotJson (slip_of text.now) }
{
    ReadFault::NotJson(slip_of(text.as_bytes()))
}

/// The profile that a text says, where it is to hold.
pub fn read(alloc: Global, context: &Context<'_>, text: &str) -> Result<Profile, ReadFault>
    ensures says { IfOk result (λ profile. Says context.now text.now (profile_of profile)) }
    ensures fault { IfErr result (IsReadFault context.now text.now) }
{
    let mut scratch = Scratch::new(alloc);
    match value_of(alloc, text, &mut scratch) {
        Ok(document) => read_document(alloc, context, &document),
        Err(fault) => Err(fault),
    }
}

fn read_document(
    alloc: Global,
    context: &Context<'_>,
    document: &Value<'_>,
) -> Result<Profile, ReadFault>
    ensures says { IfOk result (λ profile. SaysWithin context.now (text_inside (value_view document.now)) (value_view document.now) (profile_of profile)) }
    ensures fault { IfErr result (IsFaultWithin context.now (text_inside (value_view document.now)) (value_view document.now)) }
{
    match text_inside(document) {
        None => profile_in(alloc, context, profile_of_document(document)),
        Some(Ok(text)) => read_inside(alloc, context, text),
        Some(Err(why)) => Err(ReadFault::NoProfile(why)),
    }
}

/// The profile that a value says, where it is to hold.
pub fn profile_in(
    alloc: Global,
    context: &Context<'_>,
    value: &Value<'_>,
) -> Result<Profile, ReadFault>
    ensures says { IfOk result (λ profile. profile_in context.now (value_view value.now) ≡ Ok (profile_of profile)) }
    ensures fault { IfErr result (IsFault (profile_in context.now (value_view value.now))) }
{
    let Head { default, entries } = match head_of(context, value) {
        Ok(head) => head,
        Err(wrong) => return Err(ReadFault::Profile(Fault {
            place: Place::Profile,
            wrong,
        })),
    };
    let named = named_of(alloc, context, entries)?;
    let parts = parts_of(alloc, context, value, default, &named)?;
    Ok(Profile {
        parts,
        default,
        bad: 0,
    })
}

fn head_of<'v, 'a>(context: &Context<'_>, profile: &'v Value<'a>) -> Result<Head<'v, 'a>, Wrong>
    ensures head { result_map_both head_view (λ e. e) result ≡ head_of context.now (value_view profile.now) }
{
    if let Some(wrong) = wrong_keys(&FIELDS, profile) {
        return Err(wrong);
    }
    let architectures = list(profile, Field::Architectures)?;
    let maps = list(profile, Field::ArchMap)?;
    if let Some(wrong) = wrong_lists(context, architectures, maps) {
        return Err(wrong);
    }
    head_unless(profile)
}

fn head_unless<'v, 'a>(profile: &'v Value<'a>) -> Result<Head<'v, 'a>, Wrong>
    ensures head { result_map_both head_view (λ e. e) result ≡ head_unless None (value_view profile.now) }
{
    let default = default_in(profile)?;
    let entries = list(profile, Field::Syscalls)?;
    Ok(Head { default, entries })
}

fn default_in(profile: &Value<'_>) -> Result<u32, Wrong>
    ensures value { result ≡ default_in (value_view profile.now) }
{
    let action = action(profile, Field::DefaultAction)?;
    if is_told(action) {
        return Err(Wrong::NotTaken(Field::DefaultAction));
    }
    value(profile, action, Field::DefaultErrnoRet, Field::DefaultErrno)
}
