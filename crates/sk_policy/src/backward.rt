//! Instructions that are written from the last one to the first, so that it is known how far each jump goes.
ghost use Rattle.std.specs.Prelude.{◌≡◌, ◌<◌, ◌≤◌, ◌∷◌, [], length, OnOk, IfErr};
ghost use Rattle.sk_policy.specs.declared.fault.CodeFault.TheVariants.{TooLong};

use crate::fault::CodeFault;
use sk_insn::{Insn, MOST_INSNS};
use std::alloc::{AllocError, Global};
use std::marker::Model;

/// Instructions, to which more are added in front.
#[derive(Drop)]
pub struct Backward {
    insns: Vec<Insn>,
}

impl Model for Backward {
    ghost use Rattle.std.specs.Prelude.{List, reverse};
    ghost use Rattle.sk_insn.specs.declared.insn.Insn.{Insn};

    ghost Value = { List Insn };

    ghost view = { λ code. reverse code.insns.items };
}

impl Backward {
    /// No instructions yet.
    pub fn new(alloc: Global) -> Self
        ensures none { result ≡ [] }
    {
        Backward {
            insns: Vec::new(alloc),
        }
    }

    /// How many instructions there are.
    pub fn len(&self) -> usize
        ensures len { result ≡ length self.now }
    {
        self.insns.len()
    }

    /// One instruction more, before the others.
    pub fn put(&mut self, insn: Insn) -> Result<(), AllocError>
        ensures first { OnOk result (self.new ≡ insn ∷ self.old) }
    {
        self.insns.push(insn)?;
        Ok(())
    }

    /// The instructions in the order in which they run.
    pub fn in_order(self) -> Vec<Insn>
        ensures items { result.items ≡ self }
    {
        let Backward { mut insns } = self;
        insns.reverse();
        insns
    }
}

/// One instruction, where there is room for it.
pub fn put_one(code: &mut Backward, insn: Insn) -> Result<(), CodeFault>
    ensures code { OnOk result (code.new ≡ insn ∷ code.old) }
    ensures few { OnOk result (length code.new ≤ 4096) }
    ensures long { IfErr result (λ fault. fault ≡ TooLong → 4096 < length (insn ∷ code.old)) }
{
    code.put(insn)?;
    if code.len() > MOST_INSNS {
        return Err(CodeFault::TooLong);
    }
    Ok(())
}
