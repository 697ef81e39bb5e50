//! What a chain answers to all calls of the architectures that have no name here.
ghost use Rattle.std.specs.Prelude.{◌≡◌, find, not, IfOk, Some};
ghost use Rattle.std.specs.List.{list_all};
ghost use Rattle.std.specs.Option.{option_map};
ghost use Rattle.sk_filter.specs.Chains.{IsWithinLimit};
ghost use Rattle.sk_survey.specs.Other.{agrees, audits, is_named, shared_value, verdict_or_several, IsOther, IsOtherOf};

use crate::chain::chain_by_architecture;
use crate::text::only_value;
use crate::{Row, Surveyor};
use sk_filter::Chain;
use sk_names::Architecture;
use std::alloc::{AllocError, Global};

/// What a chain answers to the calls of every other architecture.
#[derive(Clone, Copy, Debug, PartialEq, Eq)]
pub enum Other {
    /// This verdict, to all of them.
    Verdict(u32),
    /// They are judged call by call.
    Several,
    /// It is not followed, since the filters load each word of a call.
    Unknown,
}

/// What a chain answers to the calls of all architectures but those of `Architecture::ALL`.
pub fn answered_other(
    alloc: Global,
    survey: &mut Surveyor,
    chain: &Chain,
) -> Result<Other, AllocError>
    requires limited { IsWithinLimit chain.now }
    ensures other { IfOk result (IsOther chain.now) }
{
    match chain_by_architecture(alloc, chain)? {
        Some(own) => told_by(alloc, survey, &own),
        None => Ok(Other::Unknown),
    }
}

// The same of the chain that looks for the architecture where the number is.
fn told_by(alloc: Global, survey: &mut Surveyor, own: &Chain) -> Result<Other, AllocError>
    ensures other { IfOk result (IsOtherOf (Some own.now)) }
{
    let rows = survey.rows(alloc, own, &audits())?;
    Ok(other_of(&rows))
}

fn other_of(rows: &[Row]) -> Other
    ensures other { result ≡ verdict_or_several (shared_value rows.now) }
{
    match shared_value(rows) {
        Some(value) => Other::Verdict(value),
        None => Other::Several,
    }
}

// The verdict that rows tell of all other architectures.
fn shared_value(rows: &[Row]) -> Option<u32>
    ensures value { result ≡ shared_value rows.now }
{
    let value = only_value(&first_other(rows)?.answers)?;
    agree(rows, value).then_some(value)
}

fn agree(rows: &[Row], value: u32) -> bool
    ensures agree { result ≡ list_all (agrees value) rows.now }
{
    rows.iter().all(|row| agrees(row, value))
}

fn first_other(rows: &[Row]) -> Option<&Row>
    ensures row { option_map (λ row. row.now) result ≡ find (λ row. not (is_named row.first)) rows.now }
{
    rows.iter().find(|row| !is_named(row.first))
}

fn agrees(row: &Row, value: u32) -> bool
    ensures agrees { result ≡ agrees value row.now }
{
    is_named(row.first) || only_value(&row.answers).is_some_and(|other| other == value)
}

fn is_named(number: u32) -> bool
    ensures named { result ≡ is_named number }
{
    audits().iter().any(|audit| number == *audit)
}

// How filters are shown the architectures that have a name.
fn audits() -> [u32; 9]
    ensures audits { result ≡ audits }
{
    Architecture::ALL.map(|architecture| architecture.audit())
}
