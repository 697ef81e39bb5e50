//! The parts of a profile.
ghost use Rattle.std.specs.Prelude.{◌≡◌, ◌++◌, flat_map, map, IfOk, OnOk};
ghost use Rattle.json.specs.Value.{value_view};
ghost use Rattle.sk_profile.specs.Views.{part_of};
ghost use Rattle.sk_profile_json.specs.EntryViews.{named_view};
ghost use Rattle.sk_profile_json.specs.PartViews.{basis_view};
ghost use Rattle.sk_profile_json.specs.Parts.{has_part, own_part, part_on, parts_of, relative_part, top_if, with_x32, without_x32};

use crate::architectures::counts_too;
use crate::context::Context;
use crate::machine::{Machine, is_narrow};
use crate::named::Named;
use crate::rules::push_rules;
use crate::runc::{has_stub, top_on};
use json::Value;
use sk_names::Architecture;
use sk_profile::Part;
use std::alloc::{AllocError, Global};

/// What parts are made of: what is said of names, the value of calls that no entry is for, and whether runc's instructions stand before
/// the filter.
#[derive(Drop)]
pub(crate) struct Basis<'n, 'a> {
    pub named: &'n [Named<'a>],
    pub default: u32,
    pub stub: bool,
}

/// The parts of a profile that says this of names.
pub(crate) fn parts_of(
    alloc: Global,
    context: &Context<'_>,
    profile: &Value<'_>,
    default: u32,
    named: &[Named<'_>],
) -> Result<Vec<Part>, AllocError>
    ensures parts { IfOk result (λ parts. map part_of parts.items ≡ parts_of context.now (value_view profile.now) default (map named_view named.now)) }
{
    let mut parts = Vec::new(alloc);
    if let Some(machine) = context.machine {
        let stub = has_stub(context, profile);
        let basis = Basis {
            named,
            default,
            stub,
        };
        let x32 = counts_too(context, profile, Architecture::X32);
        parts.push(own_part(alloc, &basis, machine, x32)?)?;
        push_relatives(
            alloc,
            &mut parts,
            context,
            profile,
            &basis,
            machine.relatives(),
        )?;
    }
    Ok(parts)
}

fn push_relatives(
    alloc: Global,
    parts: &mut Vec<Part>,
    context: &Context<'_>,
    profile: &Value<'_>,
    basis: &Basis<'_, '_>,
    relatives: &[Architecture],
) -> Result<(), AllocError>
    ensures pushed { OnOk result (map part_of parts.new.items ≡
        map part_of parts.old.items ++ flat_map (relative_part context.now (value_view profile.now) (basis_view basis.now)) relatives.now) }
{
    for architecture in relatives {
        push_relative(alloc, parts, context, profile, basis, *architecture)?;
    }
    Ok(())
}

fn push_relative(
    alloc: Global,
    parts: &mut Vec<Part>,
    context: &Context<'_>,
    profile: &Value<'_>,
    basis: &Basis<'_, '_>,
    architecture: Architecture,
) -> Result<(), AllocError>
    ensures pushed { OnOk result (map part_of parts.new.items ≡
        map part_of parts.old.items ++ relative_part context.now (value_view profile.now) (basis_view basis.now) architecture) }
{
    if has_part(context, profile, architecture) {
        parts.push(part_on(alloc, basis, architecture)?)?;
    }
    Ok(())
}

// Whether a relative of the machine has a part: x32's calls are shown as x86-64's.
fn has_part(context: &Context<'_>, profile: &Value<'_>, architecture: Architecture) -> bool
    ensures has { result ≡ has_part context.now (value_view profile.now) architecture }
{
    match architecture {
        Architecture::X32 => false,
        _ => counts_too(context, profile, architecture),
    }
}

fn own_part(
    alloc: Global,
    basis: &Basis<'_, '_>,
    machine: Machine,
    x32: bool,
) -> Result<Part, AllocError>
    ensures own { IfOk result (λ part. part_of part ≡ own_part (basis_view basis.now) machine x32) }
{
    let part = part_on(alloc, basis, machine.own())?;
    match machine {
        Machine::X86_64 if x32 => with_x32(alloc, basis, part),
        Machine::X86_64 => Ok(without_x32(part)),
        _ => Ok(part),
    }
}

fn with_x32(alloc: Global, basis: &Basis<'_, '_>, part: Part) -> Result<Part, AllocError>
    ensures with { IfOk result (λ more. part_of more ≡ with_x32 (basis_view basis.now) (part_of part)) }
{
    let mut part = part;
    push_rules(
        alloc,
        &mut part.rules,
        Architecture::X32,
        basis.default,
        basis.named,
    )?;
    part.x32_top = top_if(basis, Architecture::X32);
    Ok(part)
}

fn without_x32(part: Part) -> Part
    ensures without { part_of result ≡ without_x32 (part_of part) }
{
    let mut part = part;
    part.without_x32 = true;
    part.x32_top = 0;
    part
}

fn part_on(
    alloc: Global,
    basis: &Basis<'_, '_>,
    architecture: Architecture,
) -> Result<Part, AllocError>
    ensures part { IfOk result (λ part. part_of part ≡ part_on (basis_view basis.now) architecture) }
{
    let mut rules = Vec::new(alloc);
    push_rules(alloc, &mut rules, architecture, basis.default, basis.named)?;
    let top = top_if(basis, architecture);
    Ok(Part {
        audit: architecture.audit(),
        narrow: is_narrow(architecture),
        without_x32: false,
        rules,
        top,
        x32_top: top,
    })
}

// The greatest number that runc's instructions know, where they stand before the filter.
fn top_if(basis: &Basis<'_, '_>, architecture: Architecture) -> u32
    ensures top { result ≡ top_if (basis_view basis.now) architecture }
{
    if basis.stub {
        top_on(architecture, basis.named)
    } else {
        0
    }
}
