//! One filter with other loads.
ghost use Rattle.std.specs.Prelude.{◌≡◌, IfOk, map};
ghost use Rattle.sk_filter.specs.Architectures.{for_architecture};
ghost use Rattle.sk_survey.specs.Changes.{changed, IsMade};

use crate::change::Change;
use sk_filter::{Checked, check};
use sk_insn::Insn;
use std::alloc::{AllocError, Global};

/// The filter with this number wherever it loads the architecture.
pub fn program_for(
    alloc: Global,
    program: &Checked,
    architecture: u32,
) -> Result<Checked, AllocError>
    ensures program { IfOk result (λ it. it ≡ for_architecture architecture program.now) }
{
    changed_program(alloc, program, Change::Constant(architecture))
}

/// The filter with a change of its loads.
pub(crate) fn changed_program(
    alloc: Global,
    program: &Checked,
    change: Change<'_>,
) -> Result<Checked, AllocError>
    requires made { IsMade change }
    ensures program { IfOk result (λ it. it ≡ map (changed change.entry) program.now) }
{
    match check(changed_insns(alloc, program.insns(), change)?) {
        Ok(checked) => Ok(checked),
        Err(_) => unreachable!(),
    }
}

fn changed_insns(alloc: Global, insns: &[Insn], change: Change<'_>) -> Result<Vec<Insn>, AllocError>
    ensures insns { IfOk result (λ it. it.items ≡ map (changed change.entry) insns.now) }
{
    let mut others = Vec::with_capacity(alloc, insns.len())?;
    for insn in insns {
        others.push(change.changed(*insn))?;
    }
    Ok(others)
}
