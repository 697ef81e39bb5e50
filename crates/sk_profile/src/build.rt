//! The code of rows: a tree that cuts them in two, again and again. A value that is answered without asking for an argument stands
//! once behind the tree, where a jump reaches it.
ghost use Rattle.std.specs.Prelude.{ℕ, ◌≡◌, ◌<◌, ◌≤◌, ◌++◌, ◌+◌, ◌^◌, [], length, OnOk, IfOk, IfErr, IfSome, Contains};
ghost use Rattle.sk_profile.specs.declared.build.CodeFault.TheVariants.{TooLong};
ghost use Rattle.sk_profile.specs.Code.{head_code, over_code, fork_code, place_of};
ghost use Rattle.sk_profile.specs.CodeViews.{AreRows, IsAway, IsSideOf, IsTreeOf, IsOverlong};

use crate::instructions::{branch, jump};
use crate::pieces::push_saying;
use crate::saying::{Row, Saying};
use crate::weights::{Numbers, heavy_rows, most, weight};
use sk_insn::{Comparison, Insn, MOST_INSNS};
use std::alloc::{AllocError, AllocFailed, Global};

/// Why rows have no filter.
#[derive(Clone, Copy, Debug, PartialEq, Eq)]
pub enum CodeFault {
    /// It would have more than 4096 instructions.
    TooLong,
    /// Memory was refused.
    Memory,
}

impl From<AllocError> for CodeFault {
    ghost use Rattle.std.specs.Prelude.{◌≡◌};
    ghost use Rattle.sk_profile.specs.declared.build.CodeFault.TheVariants.{Memory};

    ghost from_gives = { λ _ fault. fault ≡ Memory };

    fn from(_refused: AllocError) -> CodeFault {
        CodeFault::Memory
    }
}

impl<T: Drop> From<AllocFailed<T>> for CodeFault {
    ghost use Rattle.std.specs.Prelude.{◌≡◌};
    ghost use Rattle.sk_profile.specs.declared.build.CodeFault.TheVariants.{Memory};

    ghost from_gives = { λ _ fault. fault ≡ Memory };

    fn from(_refused: AllocFailed<T>) -> CodeFault {
        CodeFault::Memory
    }
}

/// How far a conditional jump reaches.
const NEAR: usize = 255;

// A side of a fork, and how far behind its place it begins.
#[derive(Drop)]
struct Side {
    code: Vec<Insn>,
    begins: usize,
}

// Passes over so many instructions from this number on, and so many below it.
fn push_head(code: &mut Vec<Insn>, number: u32, over: usize, under: usize) -> Result<(), CodeFault>
    ensures code { OnOk result (code.new.items ≡ code.old.items ++ head_code number over under) }
    ensures long { IfErr result (λ fault. fault ≡ TooLong → over ≤ 4096 → 4096 < under) }
{
    if over <= NEAR && under <= NEAR {
        code.push(branch(Comparison::GreaterOrEqual, number, over as u8, under as u8))?;
        return Ok(());
    }
    if over > MOST_INSNS || under > MOST_INSNS {
        return Err(CodeFault::TooLong);
    }
    code.push(branch(Comparison::GreaterOrEqual, number, 0, 1))?;
    code.push(jump(u32::from(under > 0) + over as u32))?;
    Ok(push_over(code, under as u32)?)
}

// Passes over so many instructions.
fn push_over(code: &mut Vec<Insn>, count: u32) -> Result<(), AllocError>
    ensures code { OnOk result (code.new.items ≡ code.old.items ++ over_code count) }
{
    if count > 0 {
        code.push(jump(count))?;
    }
    Ok(())
}

// Which row to cut at, so that both sides weigh as much as can be. Each row of a side weighs 1 besides its numbers. Any is
// right.
fn cut(rows: &[Row], numbers: Numbers) -> usize
    requires some { 0 < length rows.now }
    ensures inside { result < length rows.now }
{
    let mut best = 0;
    let mut least = usize::MAX;
    let heavy = heavy_rows(numbers, rows);
    for (at, row) in rows.iter().enumerate() {
        let (low, high) = numbers.cut_at(row.start);
        let before = at.min(heavy);
        let below = weight(low).saturating_add(before).saturating_add(1);
        let above = weight(high).saturating_add(heavy - before);
        if below.abs_diff(above) < least {
            best = at;
            least = below.abs_diff(above);
        }
    }
    best
}

// Where the rows' one value stands among those behind the tree, no further than this.
fn away(values: &[u32], behind: usize, most: usize, before: &Saying, rows: &[Row]) -> Option<usize>
    requires near { behind ≤ MOST_INSNS }
    ensures away { IfSome result (IsAway values.now behind before.now rows.now) }
{
    if !rows.is_empty() || !before.arms.is_empty() {
        return None;
    }
    let begins = behind + place_of(values, before.otherwise)?;
    if begins <= most { Some(begins) } else { None }
}

// The first place of a value.
fn place_of(values: &[u32], value: u32) -> Option<usize>
    ensures place { IfSome result (λ place. place ≡ place_of value values.now) }
    ensures there { IfSome result (λ _. Contains values.now value) }
    ensures within { IfSome result (λ place. place < length values.now) }
{
    match values.split_first() {
        None => None,
        Some((first, others)) => if *first == value {
            Some(0)
        } else {
            Some(place_of(others, value)? + 1)
        },
    }
}

/// The tree of the rows, where this is said below the first of them, and the values stand so many instructions behind it.
#[cycle(code)]
pub(crate) fn tree_of(
    alloc: Global,
    values: &[u32],
    behind: usize,
    before: &Saying,
    rows: &[Row],
    numbers: Numbers,
) -> Result<Vec<Insn>, CodeFault>
    requires rows { AreRows before.now rows.now }
    requires near { behind ≤ MOST_INSNS }
    ensures tree { IfOk result (λ code. IsTreeOf values.now behind before.now rows.now code.items) }
    ensures long { IfErr result (λ fault. fault ≡ TooLong → IsOverlong values.now behind before.now rows.now) }
{
    if rows.is_empty() {
        let mut code = Vec::new(alloc);
        push_saying(&mut code, before)?;
        return Ok(code);
    }
    let at = cut(rows, numbers);
    let middle = &rows[at];
    let (low, high) = numbers.cut_at(middle.start);
    let near = NEAR.saturating_sub(most(before, &rows[..at]));
    let above = side_of(
        alloc,
        values,
        behind,
        near,
        &middle.saying,
        &rows[at + 1..],
        high,
    )?;
    let more = above.code.len() + behind;
    if more > MOST_INSNS {
        return Err(CodeFault::TooLong);
    }
    let below = side_of(alloc, values, more, NEAR, before, &rows[..at], low)?;
    forked(alloc, middle.start, &below, &above)
}

// The tree of the rows of one side of a fork, which may begin no further than this behind its place without code.
#[cycle(code)]
fn side_of(
    alloc: Global,
    values: &[u32],
    behind: usize,
    most: usize,
    before: &Saying,
    rows: &[Row],
    numbers: Numbers,
) -> Result<Side, CodeFault>
    requires rows { AreRows before.now rows.now }
    requires near { behind ≤ MOST_INSNS }
    ensures side { IfOk result (λ it. IsSideOf values.now behind before.now rows.now it.code.items it.begins) }
    ensures near { IfOk result (λ it. it.begins ≤ behind + length values.now) }
    ensures long { IfErr result (λ fault. fault ≡ TooLong → IsOverlong values.now behind before.now rows.now) }
{
    if let Some(begins) = away(values, behind, most, before, rows) {
        let code = Vec::new(alloc);
        return Ok(Side { code, begins });
    }
    let code = tree_of(alloc, values, behind, before, rows, numbers)?;
    Ok(Side { code, begins: 0 })
}

// Two sides at a number.
fn forked(alloc: Global, number: u32, below: &Side, above: &Side) -> Result<Vec<Insn>, CodeFault>
    requires near { above.now.begins < 2 ^ 63 }
    ensures code { IfOk result (λ code. code.items ≡ fork_code number above.now.begins below.now.begins below.now.code.items above.now.code.items) }
    ensures long { IfErr result (λ fault. fault ≡ TooLong → length below.now.code.items + above.now.begins ≤ 4096 → 4096 < below.now.begins) }
{
    let mut code = Vec::new(alloc);
    push_head(
        &mut code,
        number,
        below.code.len() + above.begins,
        below.begins,
    )?;
    code.extend_from_slice(&below.code)?;
    code.extend_from_slice(&above.code)?;
    Ok(code)
}
