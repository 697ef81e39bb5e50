//! The numbers of calls in rows of which the same is said.
ghost use Rattle.std.specs.Prelude.{ℕ, ◌≡◌, ◌≤◌, ◌<◌, ◌+◌, ◌-◌, ◌^◌, nat_le, if◌then◌else◌, map, length, slice_get, IfOk, IfErr, IsSome, IsTrue, Some};
ghost use Rattle.sk_profile.specs.CodeViews.{saying_of, AreRows, IsSayingOfCode};
ghost use Rattle.sk_profile.specs.Clashes.{entries_for, AreClear, IsClearPart};
ghost use Rattle.sk_profile.specs.Faults.{IsFaultIn};
ghost use Rattle.sk_profile.specs.Profiles.{is_x32, saying_in_part};
ghost use Rattle.sk_profile.specs.Views.{part_of};
ghost use Rattle.sk_profile.specs.Rows.{said_at, says_same, changes, StartBelow, AreGood};

use crate::clash::{TwoArms, clash};
use crate::fault::{Clash, ProfileFault};
use crate::from_rules::{entry_at, plain, saying};
use crate::marks::next_mark;
use crate::profile::Part;
use crate::saying::{Row, Saying};
use crate::stub::{NO_CALL, is_unknown};
use std::alloc::{AllocError, Global};

/// The first number of the x32 ABI.
pub(crate) const X32: u32 = 0x4000_0000;

/// Behind the last of them; a tracer passes over a call by this number.
const PAST_X32: u32 = 0xffff_ffff;

/// What is said of the first numbers, and from where on something else is said.
#[derive(Drop)]
pub struct Rows {
    pub before: Saying,
    pub rows: Vec<Row>,
}

/// The rows of what a part says of each number, with this default, and this value for what is no call of it.
pub fn rows_of(alloc: Global, default: u32, bad: u32, part: &Part) -> Result<Rows, ProfileFault>
    requires good { AreGood part.now }
    ensures clear { IfOk result (λ _. IsClearPart default bad (part_of part.now)) }
    ensures fault { IfErr result (IsFaultIn default bad (part_of part.now)) }
    ensures says { IfOk result (λ rows. (nr : ℕ) → nr < 2 ^ 32 → said_at rows nr ≡ saying_in_part default bad (part_of part.now) nr) }
    ensures rows { IfOk result (λ rows. AreRows rows.before rows.rows.items) }
    ensures few { IfOk result (λ rows. length rows.rows.items ≤ changes default bad (part_of part.now) (2 ^ 32 - 1)) }
{
    let mut rows = Rows {
        before: clear_saying(alloc, default, bad, part, 0)?,
        rows: Vec::new(alloc),
    };
    let mut from = 0;
    while let Some(start) = next_mark(part, from) {
        let said = clear_saying(alloc, default, bad, part, start)?;
        rows = said_from(rows, start, said)?;
        from = start;
    }
    Ok(rows)
}

// What is said of the calls with a number, if no two rules clash there.
fn clear_saying(
    alloc: Global,
    default: u32,
    bad: u32,
    part: &Part,
    nr: u32,
) -> Result<Saying, ProfileFault>
    requires good { AreGood part.now }
    ensures saying { IfOk result (λ saying. saying_of saying ≡ saying_in_part default bad (part_of part.now) nr) }
    ensures good { IfOk result IsSayingOfCode }
    ensures clear { IfOk result (λ saying. AreClear (saying_of saying)) }
    ensures fault { IfErr result (IsFaultIn default bad (part_of part.now)) }
{
    let said = said_of(alloc, default, bad, part, nr)?;
    match clash(part.audit, nr, &said) {
        None => Ok(said),
        Some(it) => Err(ProfileFault::Clashes(clash_of(default, part, nr, it))),
    }
}

// What is said of the calls with a number.
fn said_of(
    alloc: Global,
    default: u32,
    bad: u32,
    part: &Part,
    nr: u32,
) -> Result<Saying, AllocError>
    requires good { AreGood part.now }
    ensures saying { IfOk result (λ saying. saying_of saying ≡ saying_in_part default bad (part_of part.now) nr) }
    ensures good { IfOk result IsSayingOfCode }
{
    if is_unknown(part, nr) {
        Ok(plain(alloc, NO_CALL))
    } else if part.without_x32 && is_x32(nr) {
        Ok(plain(alloc, bad))
    } else {
        saying(alloc, default, part, nr)
    }
}

fn is_x32(nr: u32) -> bool
    ensures x32 { result ≡ is_x32 nr }
{
    X32 <= nr && nr < PAST_X32
}

// The entries that two arms for a number come from.
fn clash_of(default: u32, part: &Part, nr: u32, it: TwoArms) -> Clash
    requires first { IsSome (slice_get (entries_for default (part_of part.now) nr) it.first) }
    requires second { IsSome (slice_get (entries_for default (part_of part.now) nr) it.second) }
    ensures arch { result.arch ≡ part.now.audit }
    ensures number { result.number ≡ nr }
    ensures first { slice_get (entries_for default (part_of part.now) nr) it.first ≡ Some result.first }
    ensures second { slice_get (entries_for default (part_of part.now) nr) it.second ≡ Some result.second }
    ensures args { result.args ≡ it.args }
{
    let args = it.args;
    let (Some(first), Some(second)) = (
        entry_at(default, part, nr, it.first),
        entry_at(default, part, nr, it.second),
    ) else {
        unreachable!()
    };
    Clash {
        arch: part.audit,
        number: nr,
        first,
        second,
        args,
    }
}

// From a number on this is said, which is above those at which something else was said.
fn said_from(mut rows: Rows, start: u32, saying: Saying) -> Result<Rows, AllocError>
    requires behind { StartBelow start rows.rows.items }
    requires good { IsSayingOfCode saying }
    ensures says { IfOk result (λ more. (nr : ℕ) → said_at more nr ≡ if nat_le start nr then saying_of saying else said_at rows nr) }
    ensures start { IfOk result (λ more. StartBelow (start + 1) more.rows.items) }
    ensures few { IfOk result (λ more. length more.rows.items ≤ length rows.rows.items + (if says_same (said_at rows (start - 1)) (saying_of saying) then 0 else 1)) }
    ensures rows { IfOk result (λ more. AreRows rows.before rows.rows.items → AreRows more.before more.rows.items) }
{
    if is_same(last(&rows), &saying) {
        return Ok(rows);
    }
    rows.rows.push(Row { start, saying })?;
    Ok(rows)
}

// What is said behind the last number at which it changes.
fn last(rows: &Rows) -> &Saying
    ensures last { (nr : ℕ) → StartBelow (nr + 1) rows.now.rows.items → said_at rows.now nr ≡ saying_of result.now }
{
    match rows.rows.last() {
        Some(row) => &row.saying,
        None => &rows.before,
    }
}

// Whether the same value is said of all calls.
#[tactic(auto, using(crate::proofs::Starts::without_arms))]
fn is_same(one: &Saying, other: &Saying) -> bool
    ensures same { IsTrue result → saying_of one.now ≡ saying_of other.now }
    ensures exact { result ≡ says_same (saying_of one.now) (saying_of other.now) }
{
    one.arms.is_empty()
        && other.arms.is_empty()
        && one.otherwise == other.otherwise
        && one.narrow == other.narrow
}
