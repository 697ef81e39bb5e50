//! Laws on paths. No program calls these functions: the contract of each is the law.
ghost use Rattle.sk_show.specs.PathLaws.{PathsAreRuns};
ghost use Rattle.sk_show.specs.WorkedPaths.{WorkedPaths};
ghost use Rattle.sk_asm.specs.Assembly.{Finds};
ghost use Rattle.sk_show.specs.NoteLaws.{ComersAreFound, LabelsAreTargets, NotesAreRight};
ghost use Rattle.sk_show.specs.RoundTrip.{ShownAssembles};
ghost use Rattle.sk_show.specs.WorkedTexts.{WorkedTexts};

use crate::listing::show;
use sk_asm::{AsmFault, assemble};
use sk_filter::Checked;
use sk_insn::Insn;
use sk_names::Architecture;
use std::alloc::Global;

/// The path through a filter is its run: it has the run's instructions, in the run's states, and ends with its value.
#[tactic(auto, using(crate::proofs::Paths::paths_are_runs))]
pub fn paths_are_runs()
    ensures law { PathsAreRuns }
{}

/// The definition gives the texts that were worked out by hand.
#[tactic(auto, using(crate::proofs::PathExamples::worked_paths))]
pub fn worked_paths()
    ensures law { WorkedPaths }
{}

/// What is shown and assembled again is the same; only memory can be refused.
pub fn assemble_shown(
    alloc: Global,
    architecture: Architecture,
    program: &Checked,
) -> Result<Vec<Insn>, AsmFault>
    ensures same { Finds (λ found. found.items) result program.now }
{
    let text = show(alloc, architecture, program)?;
    assemble(alloc, text.as_bytes())
}

/// The text of any instructions, of which an assembler takes at most 4096, assembles to them.
pub fn shown_assembles()
    ensures law { ShownAssembles }
{}

/// Where a note names a call or the architecture, A holds the number or the architecture in each run that comes there.
pub fn notes_are_right()
    ensures law { NotesAreRight }
{}

/// Calls come only where it is found that those of their architecture come.
pub fn comers_are_found()
    ensures law { ComersAreFound }
{}

/// An instruction has a label where a jump goes to it, and only there.
pub fn labels_are_targets()
    ensures law { LabelsAreTargets }
{}

/// The definition gives the texts that were worked out by hand.
#[tactic(auto, using(crate::proofs::Examples::worked_texts))]
pub fn worked_texts()
    ensures law { WorkedTexts }
{}
