//! The section of a filter for the calls for which it is shown one number of linux/audit.h.
ghost use Rattle.std.specs.Prelude.{ℕ, ◌≡◌, ◌≤◌, ◌+◌, ◌++◌, length, map, OnOk, IfOk, IfErr};
ghost use Rattle.sk_profile.specs.declared.build.CodeFault.TheVariants.{TooLong};
ghost use Rattle.sk_profile.specs.Code.{answer, past_code};
ghost use Rattle.sk_profile.specs.CodeViews.{AreRows, IsLongSection, PutsSection};

use crate::build::{CodeFault, tree_of};
use crate::instructions::{answer, branch, jump, load};
use crate::saying::{Row, Saying};
use crate::weights::numbers_of;
use sk_insn::{Comparison, Insn, MOST_INSNS};
use std::alloc::{AllocError, Global};

/// Appends the section that answers what the rows say, where this is said below the first of them.
pub fn push_section(
    alloc: Global,
    code: &mut Vec<Insn>,
    audit: u32,
    before: &Saying,
    rows: &[Row],
) -> Result<(), CodeFault>
    requires rows { AreRows before.now rows.now }
    ensures section { OnOk result (PutsSection code.old.items code.new.items audit before.now rows.now) }
    ensures long { IfErr result (λ fault. fault ≡ TooLong → IsLongSection audit before.now rows.now) }
{
    let values = values_of(alloc, before, rows)?;
    let tree = tree_of(alloc, &values, 0, before, rows, numbers_of(audit))?;
    let behind = tree.len() + values.len();
    if behind >= MOST_INSNS {
        return Err(CodeFault::TooLong);
    }
    push_past(code, audit, behind + 1)?;
    code.push(load(0))?;
    code.extend_from_slice(&tree)?;
    Ok(push_answers(code, &values)?)
}

// Passes over so many instructions where A is another number.
fn push_past(code: &mut Vec<Insn>, audit: u32, count: usize) -> Result<(), AllocError>
    requires few { count ≤ MOST_INSNS }
    ensures code { OnOk result (code.new.items ≡ code.old.items ++ past_code audit count) }
{
    if count <= 255 {
        code.push(branch(Comparison::Equal, audit, 0, count as u8))?;
    } else {
        code.push(branch(Comparison::Equal, audit, 1, 0))?;
        code.push(jump(count as u32))?;
    }
    Ok(())
}

fn push_answers(code: &mut Vec<Insn>, values: &[u32]) -> Result<(), AllocError>
    ensures code { OnOk result (code.new.items ≡ code.old.items ++ map answer values.now) }
{
    for value in values {
        code.push(answer(*value))?;
    }
    Ok(())
}

// The values that are answered without asking for an argument, each once.
fn values_of(alloc: Global, before: &Saying, rows: &[Row]) -> Result<Vec<u32>, AllocError>
    ensures brief { IfOk result (λ values. length values.items ≤ 1 + length rows.now) }
{
    let mut values = Vec::new(alloc);
    if rows.is_empty() {
        return Ok(values);
    }
    push_value(&mut values, before)?;
    for row in rows {
        push_value(&mut values, &row.saying)?;
    }
    Ok(values)
}

fn push_value(values: &mut Vec<u32>, saying: &Saying) -> Result<(), AllocError>
    ensures one { OnOk result (length values.new.items ≤ 1 + length values.old.items) }
{
    if saying.arms.is_empty() && !values.contains(&saying.otherwise) {
        values.push(saying.otherwise)?;
    }
    Ok(())
}
