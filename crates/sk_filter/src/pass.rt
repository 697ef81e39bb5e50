//! The pass over a program that follows which scratch words every path has stored.
ghost use Rattle.std.specs.Prelude.{ℕ, ◌<◌, ◌≤◌, length, IfNone, IfSome};
ghost use Rattle.sk_insn.specs.Operations.{operation_of};
ghost use Rattle.sk_filter.specs.Paths.{onward, loaded_word, stored_word, Loads};
ghost use Rattle.sk_filter.specs.Valid.{IsFirstFault, IsValid};
ghost use Rattle.sk_filter.specs.Fits.{AreInside, NoFaultBefore};
ghost use Rattle.sk_filter.specs.Sets.{Lacks, Spreads};

use crate::CheckFault;
use crate::sets::{WORDS, WordSet, has_word, meet, with_word};
use sk_insn::{Insn, MOST_INSNS, Operation, decode};

/// The first load of a scratch word that some path has not stored.
///
/// Control only goes forwards, so one pass over the places is enough: when a place is come to, its set
/// holds the words that each path to it has stored. A place that no path has come to holds every word.
pub(crate) fn first_unstored(insns: &[Insn]) -> Option<CheckFault>
    requires { NoFaultBefore insns.now 5 }
    ensures none { IfNone result (IsValid insns.now) }
    ensures first { IfSome result (IsFirstFault insns.now) }
{
    let mut stored = [WordSet::MAX; MOST_INSNS];
    stored[0] = 0;
    for (at, insn) in insns.iter().enumerate() {
        if let Some(word) = missing_word(insn, stored[at]) {
            return Some(CheckFault::Unstored { at, word });
        }
        spread(&mut stored, at, insn);
    }
    None
}

// The word that the instruction loads and the set lacks.
fn missing_word(insn: &Insn, stored: WordSet) -> Option<u32>
    requires { IfSome (loaded_word (operation_of insn.now.code) insn.now) (λ word. word < WORDS) }
    ensures none { IfNone result
        ((word : ℕ) → Loads word (operation_of insn.now.code) insn.now → Lacks stored word → ⊥) }
    ensures some { IfSome result (λ word. Loads word (operation_of insn.now.code) insn.now × Lacks stored word) }
{
    match decode(insn.code) {
        Some(Operation::LoadScratch(_)) if !has_word(stored, insn.k) => Some(insn.k),
        _ => None,
    }
}

// Hands the words that are stored after an instruction on to the places where control can go.
fn spread(stored: &mut [WordSet], at: usize, insn: &Insn)
    requires at { at < length stored.old }
    requires short { length stored.old ≤ 4096 }
    requires inside { AreInside (length stored.old) (onward at (operation_of insn.now.code) insn.now) }
    requires there { IfSome (stored_word (operation_of insn.now.code) insn.now) (λ word. word < WORDS) }
    ensures { Spreads at insn.now stored.old stored.new }
{
    let here = stored[at];
    match decode(insn.code) {
        Some(Operation::ReturnConstant | Operation::ReturnAccumulator) => {}
        Some(Operation::Jump) => meet(stored, at + 1 + insn.k as usize, here),
        Some(Operation::Branch(_, _)) => {
            meet(stored, at + 1 + insn.jt as usize, here);
            meet(stored, at + 1 + insn.jf as usize, here);
        }
        Some(Operation::StoreScratch(_)) => meet(stored, at + 1, with_word(here, insn.k)),
        _ => meet(stored, at + 1, here),
    }
}
