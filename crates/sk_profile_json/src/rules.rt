//! The rules of an architecture.
ghost use Rattle.std.specs.Prelude.{◌≡◌, ◌++◌, [], map, OnOk};
ghost use Rattle.std.specs.List.{cons_option};
ghost use Rattle.sk_profile.specs.Views.{rule_of};
ghost use Rattle.sk_profile_json.specs.EntryViews.{named_view};
ghost use Rattle.sk_profile_json.specs.Rules.{own_rule, own_rules, rules_on};

use crate::multiplexed::push_multiplexed;
use crate::named::Named;
use sk_names::{Architecture, number};
use sk_profile::Rule;
use std::alloc::{AllocError, Global};

/// Adds the rules of an architecture, where this is the value of calls that no entry is for.
pub(crate) fn push_rules(
    alloc: Global,
    rules: &mut Vec<Rule>,
    architecture: Architecture,
    default: u32,
    named: &[Named<'_>],
) -> Result<(), AllocError>
    ensures pushed { OnOk result (map rule_of rules.new.items ≡ map rule_of rules.old.items ++ rules_on architecture default (map named_view named.now)) }
{
    push_own(alloc, rules, architecture, named)?;
    push_multiplexed(alloc, rules, architecture, default, named)
}

// Those of names that calls of the architecture have.
fn push_own(
    alloc: Global,
    rules: &mut Vec<Rule>,
    architecture: Architecture,
    named: &[Named<'_>],
) -> Result<(), AllocError>
    ensures pushed { OnOk result (map rule_of rules.new.items ≡ map rule_of rules.old.items ++ own_rules architecture (map named_view named.now)) }
{
    for it in named {
        push_own_rule(alloc, rules, architecture, it)?;
    }
    Ok(())
}

fn push_own_rule(
    alloc: Global,
    rules: &mut Vec<Rule>,
    architecture: Architecture,
    it: &Named<'_>,
) -> Result<(), AllocError>
    ensures pushed { OnOk result (map rule_of rules.new.items ≡ map rule_of rules.old.items ++ cons_option (own_rule architecture (named_view it.now)) []) }
{
    if let Some(number) = number(architecture, it.name.as_bytes()) {
        rules.push(Rule {
            number,
            conditions: Vec::from_slice(alloc, &it.conditions)?,
            value: it.value,
            entry: it.entry,
        })?;
    }
    Ok(())
}
