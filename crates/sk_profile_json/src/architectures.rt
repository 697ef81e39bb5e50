//! The architectures of a profile.
ghost use Rattle.std.specs.Prelude.{◌≡◌, find, map};
ghost use Rattle.std.specs.List.{list_any, list_all};
ghost use Rattle.std.specs.Option.{option_map};
ghost use Rattle.json.specs.Value.{value_view};
ghost use Rattle.sk_profile_json.specs.Architectures.{architectures, are_all, are_architectures, counts_too, is_architecture, is_listed, is_map, is_own, is_some_and, maps, maps_own, names_sub, own_map, wrong_lists};
ghost use Rattle.sk_profile_json.specs.Fields.{given, is_the, list_in};
ghost use Rattle.sk_profile_json.specs.declared.fault.Field.TheVariants as field;

use crate::context::Context;
use crate::fault::{Field, Wrong};
use crate::fields::{given, has_text, is_the, items_or_none, list, wrong_keys};
use crate::machine::scmp_name;
use json::Value;
use sk_names::Architecture;

/// The architectures of the OCI runtime specification.
pub(crate) const ARCHITECTURES: [&str; 23] = [
    "SCMP_ARCH_X86",
    "SCMP_ARCH_X86_64",
    "SCMP_ARCH_X32",
    "SCMP_ARCH_ARM",
    "SCMP_ARCH_AARCH64",
    "SCMP_ARCH_MIPS",
    "SCMP_ARCH_MIPS64",
    "SCMP_ARCH_MIPS64N32",
    "SCMP_ARCH_MIPSEL",
    "SCMP_ARCH_MIPSEL64",
    "SCMP_ARCH_MIPSEL64N32",
    "SCMP_ARCH_PPC",
    "SCMP_ARCH_PPC64",
    "SCMP_ARCH_PPC64LE",
    "SCMP_ARCH_S390",
    "SCMP_ARCH_S390X",
    "SCMP_ARCH_PARISC",
    "SCMP_ARCH_PARISC64",
    "SCMP_ARCH_RISCV64",
    "SCMP_ARCH_LOONGARCH64",
    "SCMP_ARCH_M68K",
    "SCMP_ARCH_SH",
    "SCMP_ARCH_SHEB",
];

/// The fields that one of `archMap` may have.
const MAP_FIELDS: [Field; 2] = [Field::Architecture, Field::SubArchitectures];

/// What is wrong with the lists of architectures.
pub(crate) fn wrong_lists(
    context: &Context<'_>,
    architectures: &[Value<'_>],
    maps: &[Value<'_>],
) -> Option<Wrong>
    ensures wrong { result ≡ wrong_lists context.now (map value_view architectures.now) (map value_view maps.now) }
{
    if !architectures.is_empty() && !maps.is_empty() {
        Some(Wrong::Contradicts(Field::ArchMap))
    } else if !are_architectures(context, architectures) {
        Some(Wrong::NotTaken(Field::Architectures))
    } else if !all_maps(maps) {
        Some(Wrong::NotTaken(Field::ArchMap))
    } else {
        None
    }
}

fn are_architectures(context: &Context<'_>, items: &[Value<'_>]) -> bool
    ensures all { result ≡ are_architectures context.now (map value_view items.now) }
{
    all_architectures(items) && (items.is_empty() || has_own(context, items))
}

#[tactic(auto, using(crate::proofs::Reading::all_of_map))]
fn all_architectures(items: &[Value<'_>]) -> bool
    ensures all { result ≡ list_all is_architecture (map value_view items.now) }
{
    each_is_architecture(items)
}

fn each_is_architecture(items: &[Value<'_>]) -> bool
    ensures all { result ≡ list_all (λ v. is_architecture (value_view v)) items.now }
{
    items.iter().all(|item| is_architecture(item))
}

fn is_architecture(value: &Value<'_>) -> bool
    ensures architecture { result ≡ is_architecture (value_view value.now) }
{
    is_any(&ARCHITECTURES, value)
}

fn is_any(names: &[&str], value: &Value<'_>) -> bool
    ensures any { result ≡ list_any (λ name. is_the name.now (value_view value.now)) names.now }
{
    names.iter().any(|name| is_the(*name, value))
}

#[tactic(auto, using(crate::proofs::Reading::any_of_map))]
fn has_own(context: &Context<'_>, items: &[Value<'_>]) -> bool
    ensures any { result ≡ list_any (is_own context.now) (map value_view items.now) }
{
    any_is_own(context, items)
}

fn any_is_own(context: &Context<'_>, items: &[Value<'_>]) -> bool
    ensures any { result ≡ list_any (λ v. is_own context.now (value_view v)) items.now }
{
    items.iter().any(|item| is_own(context, item))
}

// Whether a value is the name of the machine's own architecture.
fn is_own(context: &Context<'_>, value: &Value<'_>) -> bool
    ensures own { result ≡ is_own context.now (value_view value.now) }
{
    match context.machine {
        None => false,
        Some(machine) => is_the(scmp_name(machine.own()), value),
    }
}

#[tactic(auto, using(crate::proofs::Reading::all_of_map))]
fn all_maps(items: &[Value<'_>]) -> bool
    ensures all { result ≡ list_all is_map (map value_view items.now) }
{
    each_is_map(items)
}

fn each_is_map(items: &[Value<'_>]) -> bool
    ensures all { result ≡ list_all (λ v. is_map (value_view v)) items.now }
{
    items.iter().all(|item| is_map(item))
}

fn is_map(value: &Value<'_>) -> bool
    ensures map { result ≡ is_map (value_view value.now) }
{
    wrong_keys(&MAP_FIELDS, value).is_none()
        && names_architecture(value)
        && has_sub_architectures(value)
}

fn names_architecture(value: &Value<'_>) -> bool
    ensures architecture { result ≡ is_some_and is_architecture (given field.Architecture (value_view value.now)) }
{
    match given(value, Field::Architecture) {
        None => false,
        Some(name) => is_architecture(name),
    }
}

fn has_sub_architectures(value: &Value<'_>) -> bool
    ensures all { result ≡ are_all (list_in field.SubArchitectures (value_view value.now)) }
{
    match list(value, Field::SubArchitectures) {
        Err(_) => false,
        Ok(items) => all_architectures(items),
    }
}

/// The items of `architectures`.
pub(crate) fn architectures<'v, 'a>(profile: &'v Value<'a>) -> &'v [Value<'a>]
    ensures items { map value_view result.now ≡ architectures (value_view profile.now) }
{
    items_or_none(list(profile, Field::Architectures))
}

fn maps<'v, 'a>(profile: &'v Value<'a>) -> &'v [Value<'a>]
    ensures items { map value_view result.now ≡ maps (value_view profile.now) }
{
    items_or_none(list(profile, Field::ArchMap))
}

/// The object of `archMap` that counts: the first one for the machine.
pub(crate) fn own_map<'v, 'a>(
    context: &Context<'_>,
    profile: &'v Value<'a>,
) -> Option<&'v Value<'a>>
    ensures own { option_map (λ v. value_view v.now) result ≡ own_map context.now (value_view profile.now) }
{
    first_own(context, maps(profile))
}

fn first_own<'v, 'a>(context: &Context<'_>, items: &'v [Value<'a>]) -> Option<&'v Value<'a>>
    ensures first { option_map (λ v. value_view v.now) result ≡ find (maps_own context.now) (map value_view items.now) }
{
    for item in items {
        if maps_own(context, item) {
            return Some(item);
        }
    }
    None
}

fn maps_own(context: &Context<'_>, value: &Value<'_>) -> bool
    ensures own { result ≡ maps_own context.now (value_view value.now) }
{
    match given(value, Field::Architecture) {
        None => false,
        Some(name) => is_own(context, name),
    }
}

/// Whether an architecture is listed for the machine.
pub(crate) fn is_listed(
    context: &Context<'_>,
    profile: &Value<'_>,
    architecture: Architecture,
) -> bool
    ensures listed { result ≡ is_listed context.now (value_view profile.now) architecture }
{
    has_text(scmp_name(architecture), architectures(profile))
        || is_below_own(context, profile, architecture)
}

// Whether it is listed in the object of `archMap` that counts.
fn is_below_own(context: &Context<'_>, profile: &Value<'_>, architecture: Architecture) -> bool
    ensures below { result ≡ is_some_and (names_sub architecture) (own_map context.now (value_view profile.now)) }
{
    match own_map(context, profile) {
        None => false,
        Some(object) => names_sub(architecture, object),
    }
}

fn names_sub(architecture: Architecture, object: &Value<'_>) -> bool
    ensures names { result ≡ names_sub architecture (value_view object.now) }
{
    has_text(
        scmp_name(architecture),
        items_or_none(list(object, Field::SubArchitectures)),
    )
}

/// Whether a relative of the machine has a filter too.
pub(crate) fn counts_too(
    context: &Context<'_>,
    profile: &Value<'_>,
    architecture: Architecture,
) -> bool
    ensures counts { result ≡ counts_too context.now (value_view profile.now) architecture }
{
    !context.native && is_listed(context, profile, architecture)
}
