//! Numbers of calls, and names, in documents.
ghost use Rattle.std.specs.Prelude.{◌≡◌, ◌++◌, OnOk};
ghost use Rattle.std.specs.Option.{option_map};
ghost use Rattle.sk_document.specs.Numbers.{architecture_at, name_at, numbers, single_name};

use crate::document::Document;
use sk_names::{Architecture, name};
use std::alloc::AllocError;

/// Adds the first and the last of neighbouring numbers, and the name that a single one has.
#[tactic(auto, unfolding(crate::specs::Numbers::numbers))]
pub fn add_numbers(
    to: &mut Document,
    architecture: Architecture,
    first: u32,
    last: u32,
) -> Result<(), AllocError>
    ensures added { OnOk result (to.new ≡ to.old ++ numbers architecture first last) }
{
    to.number_at("first", u64::from(first))?;
    to.number_at("last", u64::from(last))?;
    add_name(to, single_name(architecture, first, last))
}

fn single_name(architecture: Architecture, first: u32, last: u32) -> Option<&'static str>
    ensures name { option_map (λ name. name.now) result ≡ single_name architecture first last }
{
    if first == last {
        name(architecture, first)
    } else {
        None
    }
}

/// Adds the name of an architecture.
#[tactic(auto, unfolding(crate::specs::Numbers::architecture_at))]
pub fn add_architecture(to: &mut Document, architecture: Architecture) -> Result<(), AllocError>
    ensures added { OnOk result (to.new ≡ to.old ++ architecture_at architecture) }
{
    to.string_at("architecture", architecture.text())
}

/// Adds a name, if there is one.
#[tactic(auto, unfolding(crate::specs::Numbers::name_at))]
pub fn add_name(to: &mut Document, name: Option<&str>) -> Result<(), AllocError>
    ensures added { OnOk result (to.new ≡ to.old ++ name_at (option_map (λ name. name.now) name.entry)) }
{
    to.at("name")?;
    match name {
        Some(name) => to.string(name),
        None => to.null(),
    }
}
