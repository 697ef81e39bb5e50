//! Whether runc has instructions of its own stand before the filter of a profile, and which numbers they know.
ghost use Rattle.std.specs.Prelude.{◌≡◌, [], map};
ghost use Rattle.std.specs.List.{cons_option, fold};
ghost use Rattle.json.specs.Value.{value_view};
ghost use Rattle.sk_profile_json.specs.declared.fault.Field.TheVariants as field;
ghost use Rattle.sk_profile_json.specs.Actions.{action_in};
ghost use Rattle.sk_profile_json.specs.EntryViews.{named_view};
ghost use Rattle.sk_profile_json.specs.Runc.{greater, has_stub, known_number, lists_any, performs, top_on};

use crate::actions::action;
use crate::architectures::{architectures, own_map};
use crate::context::Context;
use crate::fault::Field;
use crate::multiplexed::is_multiplexed;
use crate::named::Named;
use json::Value;
use sk_insn::Action;
use sk_names::{Architecture, number};

/// Whether they stand there.
pub(crate) fn has_stub(context: &Context<'_>, profile: &Value<'_>) -> bool
    ensures stub { result ≡ has_stub context.now (value_view profile.now) }
{
    context.runc && lists_any(context, profile) && !default_performs(profile)
}

fn lists_any(context: &Context<'_>, profile: &Value<'_>) -> bool
    ensures any { result ≡ lists_any context.now (value_view profile.now) }
{
    !architectures(profile).is_empty() || own_map(context, profile).is_some()
}

fn default_performs(profile: &Value<'_>) -> bool
    ensures performs { result ≡ performs (action_in field.DefaultAction (value_view profile.now)) }
{
    matches!(
        action(profile, Field::DefaultAction),
        Ok(Action::Allow | Action::Log | Action::Trace)
    )
}

/// The greatest number of an architecture that they know, 0 where there is none.
pub(crate) fn top_on(architecture: Architecture, named: &[Named<'_>]) -> u32
    ensures top { result ≡ top_on architecture (map named_view named.now) }
{
    let mut top = 0;
    for it in named {
        top = greater(top, known_number(architecture, it));
    }
    top
}

fn greater(top: u32, number: Option<u32>) -> u32
    ensures greater { result ≡ fold greater top (cons_option number []) }
{
    match number {
        Some(number) if top < number => number,
        _ => top,
    }
}

fn known_number(architecture: Architecture, it: &Named<'_>) -> Option<u32>
    ensures number { result ≡ known_number architecture (named_view it.now) }
{
    if is_multiplexed(architecture, it.name) {
        None
    } else {
        number(architecture, it.name.as_bytes())
    }
}
