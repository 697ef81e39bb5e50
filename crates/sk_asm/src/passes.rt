//! The two passes: one over the lines, for their labels and instructions, and one over the instructions, for their jumps.
ghost use Rattle.std.specs.Prelude.{Err, ◌≡◌, ◌≢◌, ◌+◌, ◌≤◌, ◌<◌, ◌^◌, length, IfOk, IfErr, List, [], Some};
ghost use Rattle.sk_asm.specs.Assembly.{Assembles, AssemblesText, Finds};
ghost use Rattle.sk_asm.specs.Block.{lines_in, until_end};
ghost use Rattle.sk_insn.specs.declared.insn.Insn.{Insn};
ghost use Rattle.sk_asm.specs.Faults.{Answers};
ghost use Rattle.sk_asm.specs.LineFaults.{IsFirstFault, IsFirstTextFault};
ghost use Rattle.sk_asm.specs.Labels.{Labels as Places, label_place};
ghost use Rattle.sk_asm.specs.Passes.{labelled, landed, distance, resolved, emitted, assembled, assembled_lines};
ghost use Rattle.sk_asm.specs.Drafts.{AreAmong, completed};
ghost use Rattle.sk_asm.specs.Views.{destination_to, statement, labels_in, jumps_in};
ghost use Rattle.sk_text.specs.Lines.{lines_of};

use crate::block::next_line;
use crate::distance::Distance;
use crate::fault::AsmFault;
use crate::found::{Found, Labels};
use crate::parse::check_line;
use crate::statement::{Jump, Pending};
use sk_insn::Insn;
use sk_text::{Lines, MOST_BYTES};
use std::alloc::Global;

/// The instructions that a text stands for, or the first of its faults.
#[tactic(auto, unfolding(crate::specs::Passes::assembled))]
pub fn assemble(alloc: Global, text: &[u8]) -> Result<Vec<Insn>, AsmFault>
    ensures exact { Answers (λ insns. insns.items) result (assembled text.now) }
    ensures stands { IfOk result (λ insns. AssemblesText text.now insns.items) }
    ensures only { (insns : List Insn) → AssemblesText text.now insns → Finds (λ found. found.items) result insns }
    ensures limit { 1048576 < length text.now → result ≡ Err (AsmFault.TooLong 0) }
    ensures first { IfErr result (λ fault. fault ≢ AsmFault.Memory → IsFirstTextFault text.now fault) }
{
    if text.len() > MOST_BYTES {
        return Err(AsmFault::TooLong { n: 0 });
    }
    assemble_lines(alloc, 0, text, false)
}

/// The instructions that the lines of a block stand for, up to the first line `end` or to the end of
/// the text, or the first of their faults. Before the first of them stand `before` lines.
pub fn assemble_block(alloc: Global, before: usize, text: &[u8]) -> Result<Vec<Insn>, AsmFault>
    requires numbers { before + length text.now < 2 ^ 64 }
    ensures exact { Answers (λ insns. insns.items) result
        (assembled_lines (before + 1) (until_end (lines_of text.now))) }
    ensures stands { IfOk result (λ insns. Assembles (until_end (lines_of text.now)) insns.items) }
    ensures only { (insns : List Insn) →
        Assembles (until_end (lines_of text.now)) insns → Finds (λ found. found.items) result insns }
    ensures first { IfErr result (λ fault. fault ≢ AsmFault.Memory →
        IsFirstFault (before + 1) (until_end (lines_of text.now)) fault) }
{
    assemble_lines(alloc, before, text, true)
}

#[tactic(auto, unfolding(crate::specs::Passes::assembled_lines))]
fn assemble_lines(
    alloc: Global,
    before: usize,
    text: &[u8],
    is_block: bool,
) -> Result<Vec<Insn>, AsmFault>
    requires numbers { before + length text.now < 2 ^ 64 }
    ensures exact { Answers (λ insns. insns.items) result (assembled_lines (before + 1) (lines_in is_block text.now)) }
{
    let Found {
        labels,
        insns,
        jumps,
    } = find(alloc, before, text, is_block)?;
    complete(&labels, jumps.as_slice(), insns)
}

// What the lines say.
fn find<'a>(
    alloc: Global,
    before: usize,
    text: &'a [u8],
    is_block: bool,
) -> Result<Found<'a>, AsmFault>
    requires numbers { before + length text.now < 2 ^ 64 }
    ensures labels { Answers (λ found. labels_in found.labels) result (labelled (before + 1) [] 0 (lines_in is_block text.now)) }
    ensures among { IfOk result (λ found. AreAmong (length found.insns.items) (jumps_in found.jumps.items)) }
    ensures insns { IfOk result (λ found. (labels : Places)
        → completed labels found.insns.items (jumps_in found.jumps.items) ≡ emitted labels (before + 1) 0 (lines_in is_block text.now)) }
{
    let mut lines = Lines(text);
    let mut found = Found::new(alloc);
    let mut at = 0;
    let mut n = before;
    while let Some(line) = next_line(&mut lines, is_block) {
        n += 1;
        let said = check_line(n, line)?;
        at = found.take(n, at, said)?;
    }
    Ok(found)
}

// The instructions, with the distances of these jumps.
fn complete(
    labels: &Labels<'_>,
    jumps: &[Pending<'_>],
    mut insns: Vec<Insn>,
) -> Result<Vec<Insn>, AsmFault>
    requires among { AreAmong (length insns.items) (jumps_in jumps.now) }
    ensures exact { Answers (λ insns. insns.items) result (completed (labels_in labels.now) insns.items (jumps_in jumps.now)) }
{
    for pending in jumps {
        insns[pending.at] = resolve(labels, pending.n, pending.at, pending.jump)?;
    }
    Ok(insns)
}

// The jump of line `n` at a place, with its distances.
#[tactic(auto, unfolding(crate::specs::Passes::resolved))]
fn resolve(labels: &Labels<'_>, n: usize, at: usize, jump: Jump<'_>) -> Result<Insn, AsmFault>
    ensures exact { Answers (λ given. Some given) result (resolved (labels_in labels.now) n at (statement jump.entry)) }
{
    match jump {
        Jump::Always(Insn { code, k, .. }, to) => {
            let k = distance(labels, n, at, k, to)?;
            Ok(Insn {
                code,
                jt: 0,
                jf: 0,
                k,
            })
        }
        Jump::Branch(Insn { code, jt, jf, k }, first, second) => {
            let jt = distance(labels, n, at, jt, first)?;
            let jf = distance(labels, n, at, jf, second)?;
            Ok(Insn { code, jt, jf, k })
        }
    }
}

// How many instructions a jump passes over: so many, or those up to a label.
#[tactic(auto, unfolding(crate::specs::Passes::distance))]
fn distance<N: Distance>(
    labels: &Labels<'_>,
    n: usize,
    at: usize,
    count: N,
    label: Option<&[u8]>,
) -> Result<N, AsmFault>
    ensures exact { Answers N.number result (distance (labels_in labels.now) n at N.most (destination_to (N.number count) label.entry)) }
{
    match label {
        None => Ok(count),
        Some(name) => Ok(N::of(landing(labels, n, at, N::most(), name)?)),
    }
}

// How many instructions stand between a place and the label's.
fn landing(
    labels: &Labels<'_>,
    n: usize,
    at: usize,
    most: usize,
    name: &[u8],
) -> Result<usize, AsmFault>
    ensures exact { Answers (λ count. count) result (landed n at most (label_place (labels_in labels.now) name.now)) }
    ensures bound { IfOk result (λ count. count ≤ most) }
{
    match place(labels, name) {
        None => Err(AsmFault::Label { n }),
        Some(place) if place <= at => Err(AsmFault::Back { n }),
        Some(place) if most < place - at - 1 => Err(AsmFault::Far { n }),
        Some(place) => Ok(place - at - 1),
    }
}

fn place(labels: &Labels<'_>, name: &[u8]) -> Option<usize>
    ensures place { result ≡ label_place (labels_in labels.now) name.now }
{
    labels.get(name).copied()
}
