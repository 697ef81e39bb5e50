//! Tables of names: runs of numbers that follow each other, with their names.
ghost use Rattle.std.specs.Prelude.{◌≡◌, ◌≢◌, ℕ, ◌+◌, ◌^◌, ◌<◌, ◌≤◌, ◌++◌, [], ◌∷◌, List, false, nat_le, length, position, slice_get, IfNone, IfOk, IfSome, IsTrue, OnOk};
ghost use Rattle.std.specs.Option.{option_map};
ghost use Rattle.std.specs.Str.{bytes_eq};
ghost use Rattle.sk_names.specs.Names.{name_at, name_in, names_in, number_at, number_in};
ghost use Rattle.sk_names.specs.Numbers.{run_of, runs_in, end_of, numbers_at, numbers_in, are_apart};

use std::alloc::{AllocError, Global};

/// Runs of numbers that follow each other, in rising order: the first number of each, and the names of its numbers with a space
/// between each two.
#[derive(Clone, Copy)]
pub struct Table {
    pub firsts: &'static [u32],
    pub names: &'static [&'static str],
}

/// One of the runs.
#[derive(Clone, Copy)]
pub struct Run {
    pub first: u32,
    pub names: &'static str,
}

/// The name of a number, by the first run that has it.
pub fn name_in(table: Table, nr: u32) -> Option<&'static str>
    requires apart { IsTrue (are_apart 0 (runs_in table)) }
    ensures name { option_map (λ name. name.now) result ≡ name_in (runs_in table) nr }
{
    let mut rest = table;
    while let Some((run, later)) = split_first(rest) {
        if !begins_by(later, nr) {
            return name_at(run, nr);
        }
        rest = later;
    }
    None
}

/// The number of a name, by the first run that has it.
pub fn number_in(table: Table, wanted: &[u8]) -> Option<u32>
    requires apart { IsTrue (are_apart 0 (runs_in table)) }
    ensures first { result ≡ number_in (runs_in table) wanted.now }
    ensures low { IfSome result (λ nr. nr < 2 ^ 30) }
    ensures found { IfSome result (λ nr. name_in (runs_in table) nr ≡ Some wanted.now) }
    ensures none { IfNone result ((nr : ℕ) → name_in (runs_in table) nr ≢ Some wanted.now) }
{
    let mut rest = table;
    while let Some((run, later)) = split_first(rest) {
        if let Some(nr) = number_at(run, wanted) {
            return Some(nr);
        }
        rest = later;
    }
    None
}

/// The numbers of all runs in their order, each behind a base.
pub fn numbers_in(alloc: Global, base: u32, table: Table) -> Result<Vec<u32>, AllocError>
    requires base { base ≤ 2 ^ 30 }
    requires apart { IsTrue (are_apart 0 (runs_in table)) }
    ensures all { IfOk result (λ numbers. numbers.items ≡ numbers_in base (runs_in table)) }
{
    let mut numbers = Vec::new(alloc);
    let mut rest = table;
    while let Some((run, later)) = split_first(rest) {
        push_run(&mut numbers, base, run)?;
        rest = later;
    }
    Ok(numbers)
}

fn push_run(numbers: &mut Vec<u32>, base: u32, run: Run) -> Result<(), AllocError>
    requires within { base + end_of (run_of run) ≤ 2 ^ 31 }
    ensures pushed { OnOk result (numbers.new.items ≡ numbers.old.items ++ numbers_at base (run_of run)) }
{
    let first = base + run.first;
    for number in first..first + count(run.names) as u32 {
        numbers.push(number)?;
    }
    Ok(())
}

// The first run of a table, and the others.
fn split_first(table: Table) -> Option<(Run, Table)>
    ensures none { IfNone result (runs_in table ≡ []) }
    ensures some { IfSome result (λ it. runs_in table ≡ run_of it.0 ∷ runs_in it.1) }
{
    let (first, firsts) = table.firsts.split_first()?;
    let (text, names) = table.names.split_first()?;
    let run = Run {
        first: *first,
        names: *text,
    };
    Some((run, Table { firsts, names }))
}

// Whether the first run of a table begins with a number or below it.
fn begins_by(table: Table, nr: u32) -> bool
    ensures empty { runs_in table ≡ [] → result ≡ false }
    ensures first { (run : ℕ × List (List ℕ)) (runs : List (ℕ × List (List ℕ))) → runs_in table ≡ run ∷ runs → result ≡ nat_le run.0 nr }
{
    match split_first(table) {
        Some((run, _)) => run.first <= nr,
        None => false,
    }
}

#[tactic(auto, unfolding(crate::specs::Names::name_at))]
fn name_at(run: Run, nr: u32) -> Option<&'static str>
    ensures name { option_map (λ name. name.now) result ≡ name_at (run_of run) nr }
{
    if nr < run.first {
        None
    } else {
        nth(run.names, (nr - run.first) as usize)
    }
}

fn number_at(run: Run, wanted: &[u8]) -> Option<u32>
    requires within { end_of (run_of run) ≤ 2 ^ 30 }
    ensures first { result ≡ number_at (run_of run) wanted.now }
{
    Some(run.first + place_of(run.names, wanted)? as u32)
}

// The name at a place of a text.
fn nth(names: &'static str, place: usize) -> Option<&'static str>
    ensures name { option_map (λ name. name.now) result ≡ slice_get (names_in names.now) place }
{
    names.split(' ').nth(place)
}

// The first place of a name in a text.
fn place_of(names: &str, wanted: &[u8]) -> Option<usize>
    ensures first { result ≡ position (λ name. bytes_eq name wanted.now) (names_in names.now) }
    ensures within { IfSome result (λ place. place < length (names_in names.now)) }
{
    names.split(' ').position(|name| name.as_bytes() == wanted)
}

// How many names a text has.
fn count(names: &str) -> usize
    ensures count { result ≡ length (names_in names.now) }
{
    names.split(' ').count()
}
