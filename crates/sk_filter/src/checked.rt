//! The check of a whole program, and the type of the programs that have passed it.
ghost use Rattle.std.specs.Prelude.{◌≡◌, ◌↔◌, IsOk, IfOk, IfErr, IfNone, IfSome, MatchResult};
ghost use Rattle.sk_filter.specs.FirstFault.{first_fault};
ghost use Rattle.sk_filter.specs.Valid.{IsValid, IsFirstFault};

use crate::CheckFault;
use crate::pass::first_unstored;
use crate::places::{end_fault, first_place_fault};
use sk_insn::{Insn, MOST_INSNS};
use std::marker::Model;

/// A program that `check` found valid. It never changes.
#[derive(Debug, Drop)]
pub struct Checked {
    items: Vec<Insn>,
}

impl Model for Checked {
    ghost use Rattle.std.specs.Prelude.{List};
    ghost use Rattle.sk_insn.specs.declared.insn.Insn.{Insn};
    ghost use Rattle.sk_filter.specs.Valid.{IsValid};

    ghost Value = { List Insn };

    ghost view = { λ checked. checked.items.items };

    ghost invariant = { λ checked. IsValid checked.items.items };
}

impl Checked {
    ghost use Rattle.std.specs.Prelude.{◌≡◌};
    ghost use Rattle.sk_filter.specs.Valid.{IsValid};

    /// Its instructions.
    pub fn insns(&self) -> &[Insn]
        ensures insns { result.now ≡ self.now }
        ensures valid { IsValid self.now }
    {
        &self.items
    }
}

/// Finds a program valid, or gives it back with its first fault.
pub fn check(insns: Vec<Insn>) -> Result<Checked, (Vec<Insn>, CheckFault)>
    ensures valid { IsOk result ↔ IsValid insns.items }
    ensures value { IfOk result (λ checked. checked ≡ insns.items) }
    ensures given_back { IfErr result (λ refused. refused.0 ≡ insns) }
    ensures first { IfErr result (λ refused. IsFirstFault insns.items refused.1) }

    // The same as a function of the instructions.
    ensures told { MatchResult result (λ _. first_fault insns.items ≡ None)
        (λ refused. first_fault insns.items ≡ Some refused.1) }
{
    match first_fault(&insns) {
        None => Ok(Checked { items: insns }),
        Some(fault) => Err((insns, fault)),
    }
}

fn first_fault(insns: &[Insn]) -> Option<CheckFault>
    ensures none { IfNone result (IsValid insns.now) }
    ensures first { IfSome result (IsFirstFault insns.now) }
{
    if insns.is_empty() {
        return Some(CheckFault::Empty);
    }
    if insns.len() > MOST_INSNS {
        return Some(CheckFault::TooLong);
    }
    if let Some(fault) = first_place_fault(insns) {
        return Some(fault);
    }
    if let Some(fault) = end_fault(insns) {
        return Some(fault);
    }
    first_unstored(insns)
}
