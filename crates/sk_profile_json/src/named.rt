//! What the entries of a profile say of the names of calls.
ghost use Rattle.std.specs.Prelude.{◌≡◌, ◌++◌, [], map, Ok, IfOk, IfErr, OnOk};
ghost use Rattle.std.specs.List.{cons_option};
ghost use Rattle.sk_profile_json.specs.declared.fault.ReadFault.TheVariants.{Profile as profile_fault};
ghost use Rattle.json.specs.Value.{value_view};
ghost use Rattle.sk_profile_json.specs.Entries.{named_as, all_named};
ghost use Rattle.sk_profile_json.specs.EntryViews.{named_view};
ghost use Rattle.sk_profile_json.specs.Wholes.{entry_named, named_from, before, fault_at, IsFault};

use crate::conditions::{WrongArgument, conditions_of, wrong_argument};
use crate::context::{Context, counts};
use crate::entry::{Entry, entry_of};
use crate::fault::{Fault, Field, Place, ReadFault, Wrong};
use json::Value;
use sk_profile::{Condition, are_apart};
use std::alloc::{AllocError, Global};

/// The value for the calls with a name whose arguments meet all conditions.
#[derive(Debug, Drop)]
pub(crate) struct Named<'a> {
    pub name: &'a str,
    pub conditions: Vec<Condition>,
    pub value: u32,
    /// The entry that says so, from 0 on.
    pub entry: usize,
}

/// What these entries say, in their order.
pub(crate) fn named_of<'a>(
    alloc: Global,
    context: &Context<'_>,
    entries: &[Value<'a>],
) -> Result<Vec<Named<'a>>, ReadFault>
    ensures named { IfOk result (λ named. named_from context.now 0 (map value_view entries.now) ≡ Ok (map named_view named.items)) }
    ensures fault { IfErr result (IsFault (named_from context.now 0 (map value_view entries.now))) }
{
    let mut named = Vec::new(alloc);
    for (place, entry) in entries.iter().enumerate() {
        push_entry(alloc, &mut named, context, place, entry)?;
    }
    Ok(named)
}

// Adds what the entry with this number says.
fn push_entry<'a>(
    alloc: Global,
    named: &mut Vec<Named<'a>>,
    context: &Context<'_>,
    place: usize,
    entry: &Value<'a>,
) -> Result<(), ReadFault>
    ensures pushed { OnOk result (
        before (map named_view named.old.items) (entry_named context.now place (value_view entry.now)) ≡ Ok (map named_view named.new.items)) }
    ensures fault { IfErr result (IsFault (entry_named context.now place (value_view entry.now))) }
{
    let Entry {
        names,
        value,
        arguments,
    } = match entry_of(entry) {
        Ok(entry) => entry,
        Err(wrong) => return Err(fault(Place::Entry(place), wrong)),
    };
    if let Some(it) = wrong_argument(arguments) {
        return Err(fault(Place::Argument(place, it.place), it.wrong));
    }
    let conditions = conditions_of(alloc, arguments)?;
    if !are_apart(&conditions) {
        return Err(fault(Place::Entry(place), Wrong::Contradicts(Field::Args)));
    }
    match counts(context, entry) {
        Err(wrong) => Err(fault(Place::Entry(place), wrong)),
        Ok(false) => Ok(()),
        Ok(true) => Ok(push_names(alloc, named, place, &conditions, value, names)?),
    }
}

fn fault(place: Place, wrong: Wrong) -> ReadFault
    ensures fault { result ≡ profile_fault (fault_at place wrong) }
{
    ReadFault::Profile(Fault { place, wrong })
}

fn push_names<'a>(
    alloc: Global,
    named: &mut Vec<Named<'a>>,
    entry: usize,
    conditions: &[Condition],
    value: u32,
    names: &[Value<'a>],
) -> Result<(), AllocError>
    ensures pushed { OnOk result (map named_view named.new.items ≡
        map named_view named.old.items ++ all_named entry conditions.now value (map value_view names.now)) }
{
    for name in names {
        push_name(alloc, named, entry, conditions, value, name)?;
    }
    Ok(())
}

fn push_name<'a>(
    alloc: Global,
    named: &mut Vec<Named<'a>>,
    entry: usize,
    conditions: &[Condition],
    value: u32,
    name: &Value<'a>,
) -> Result<(), AllocError>
    ensures pushed { OnOk result (map named_view named.new.items ≡
        map named_view named.old.items ++ cons_option (named_as entry conditions.now value (value_view name.now)) []) }
{
    if let Some(name) = name.as_str() {
        let conditions = Vec::from_slice(alloc, conditions)?;
        named.push(Named {
            name,
            conditions,
            value,
            entry,
        })?;
    }
    Ok(())
}
