//! Laws about the definitions: the functions do nothing, and their contracts are what is proved. `assemble_listing` alone lists
//! and assembles.
ghost use Rattle.std.specs.Prelude.{◌≡◌, ◌↔◌, ℕ, List, Ok, Err, ◌≤◌, length};
ghost use Rattle.sk_insn.specs.declared.insn.Insn.{Insn};
ghost use Rattle.sk_asm.specs.Assembly.{AssemblesText, Finds};
ghost use Rattle.sk_asm.specs.LineFaults.{HasFault, IsFirstFault, IsFirstTextFault};
ghost use Rattle.sk_asm.specs.Passes.{assembled, assembled_lines};
ghost use Rattle.sk_asm.specs.declared.fault.AsmFault.{AsmFault};
ghost use Rattle.sk_asm.specs.RoundTrip.{ListingAssembles, ListingIsAssembled};
ghost use Rattle.sk_asm.specs.WorkedLines.{WorkedLines};

use crate::listing::list;
use crate::{AsmFault, assemble};
use sk_insn::Insn;
use std::alloc::Global;

/// The two passes find what a text stands for, and a text stands for at most one list.
pub fn passes_find_what_a_text_stands_for()
    ensures exact { (text : List ℕ) (insns : List Insn) → (assembled text ≡ Ok insns) ↔ AssemblesText text insns }
    ensures one { (text : List ℕ) (insns others : List Insn)
        → AssemblesText text insns → AssemblesText text others → insns ≡ others }
{}

/// The fault that the two passes find is the first of those that the lines have, of which there is at most one, and where
/// they find instructions the lines have no fault.
pub fn passes_find_the_first_fault()
    ensures exact { (number : ℕ) (lines : List (List ℕ)) (fault : AsmFault)
        → (assembled_lines number lines ≡ Err fault) ↔ IsFirstFault number lines fault }
    ensures one { (number : ℕ) (lines : List (List ℕ)) (fault other : AsmFault)
        → IsFirstFault number lines fault → IsFirstFault number lines other → fault ≡ other }
    ensures one_of_a_text { (text : List ℕ) (fault other : AsmFault)
        → IsFirstTextFault text fault → IsFirstTextFault text other → fault ≡ other }
    ensures none { (number : ℕ) (lines : List (List ℕ)) (insns : List Insn) (fault : AsmFault)
        → assembled_lines number lines ≡ Ok insns → HasFault number lines fault → ⊥ }
{}

/// What is listed and assembled again is the same; only memory can be refused.
pub fn assemble_listing(alloc: Global, insns: &[Insn]) -> Result<Vec<Insn>, AsmFault>
    requires few { length insns.now ≤ 4096 }
    ensures same { Finds (λ found. found.items) result insns.now }
{
    let text = list(alloc, insns)?;
    assemble(alloc, text.as_bytes())
}

/// The listing of instructions assembles to these instructions.
#[tactic(auto, using(crate::proofs::Listings::listing_is_assembled))]
pub fn listing_assembles()
    ensures relation { ListingAssembles }
    ensures passes { ListingIsAssembled }
{}

/// The definition gives the lines that were worked out by hand.
#[tactic(auto, using(crate::proofs::ListingExamples::worked_lines))]
pub fn worked_lines()
    ensures law { WorkedLines }
{}
