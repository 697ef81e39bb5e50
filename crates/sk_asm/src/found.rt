//! What is found in the lines: labels with their places, and instructions.
ghost use Rattle.std.specs.Prelude.{◌≡◌, [], MatchResult, Ok};
ghost use Rattle.sk_asm.specs.Drafts.{Takes, IsUntaken};
ghost use Rattle.sk_asm.specs.Faults.{Answers, IsAsmFault};
ghost use Rattle.sk_asm.specs.Grammar.{Plain};
ghost use Rattle.sk_asm.specs.Labels.{Labels as Places};
ghost use Rattle.sk_asm.specs.Passes.{counted, marked};
ghost use Rattle.sk_asm.specs.Views.{statement, said, labels_in};
ghost use Rattle.sk_asm.specs.Seeing.{seen};

use crate::fault::AsmFault;
use crate::statement::{Jump, Pending, Said};
use indexmap::IndexMap;
use sk_insn::{Insn, MOST_INSNS};
use std::alloc::Global;

pub(crate) type Labels<'a> = IndexMap<&'a [u8], usize>;

// The labels of lines, with their places, their instructions, and of these the jumps that have a label.
#[derive(Drop)]
pub(crate) struct Found<'a> {
    pub(crate) labels: Labels<'a>,
    pub(crate) insns: Vec<Insn>,
    pub(crate) jumps: Vec<Pending<'a>>,
}

impl<'a> Found<'a> {
    // Before the first line.
    pub(crate) fn new(alloc: Global) -> Found<'a>
        ensures labels { labels_in result.labels ≡ [] }
        ensures insns { result.insns.items ≡ [] }
        ensures jumps { result.jumps.items ≡ [] }
    {
        Found {
            labels: IndexMap::new(alloc),
            insns: Vec::new(alloc),
            jumps: Vec::new(alloc),
        }
    }

    // Takes what line `n` says, where the next instruction has a place, and gives the place of the one after it.
    pub(crate) fn take(&mut self, n: usize, at: usize, line: Said<'a>) -> Result<usize, AsmFault>
        ensures taken { MatchResult result
            (λ next. Takes n at (said line.entry) (seen self.old) (seen self.new) next)
            (λ fault. IsUntaken n at (said line.entry) (seen self.old) fault) }
    {
        match line {
            Said::Silent => Ok(at),
            Said::Label(name) => mark(&mut self.labels, n, at, name),
            Said::Plain(insn) => self.push(n, at, insn),
            Said::Jump(jump) => self.push_jump(n, at, jump),
        }
    }

    #[tactic(auto, unfolding(crate::specs::Passes::noted))]
    fn push(&mut self, n: usize, at: usize, insn: Insn) -> Result<usize, AsmFault>
        ensures taken { MatchResult result
            (λ next. Takes n at (Plain insn) (seen self.old) (seen self.new) next)
            (λ fault. IsUntaken n at (Plain insn) (seen self.old) fault) }
    {
        let next = count(n, at)?;
        self.insns.push(insn)?;
        Ok(next)
    }

    #[tactic(auto, unfolding(crate::specs::Passes::noted))]
    fn push_jump(&mut self, n: usize, at: usize, jump: Jump<'a>) -> Result<usize, AsmFault>
        ensures taken { MatchResult result
            (λ next. Takes n at (statement jump.entry) (seen self.old) (seen self.new) next)
            (λ fault. IsUntaken n at (statement jump.entry) (seen self.old) fault) }
    {
        let next = count(n, at)?;
        if jump.has_label() {
            self.jumps.push(Pending { at, n, jump })?;
        }
        self.insns.push(jump.draft())?;
        Ok(next)
    }
}

// The place after one more instruction.
fn count(n: usize, at: usize) -> Result<usize, AsmFault>
    ensures exact { (labels : Places) → Answers (λ next. (labels, next)) result (counted n labels at) }
{
    if at < MOST_INSNS {
        Ok(at + 1)
    } else {
        Err(AsmFault::TooLong { n })
    }
}

// Gives a label the place.
fn mark<'a>(labels: &mut Labels<'a>, n: usize, at: usize, name: &'a [u8]) -> Result<usize, AsmFault>
    ensures exact { MatchResult result
        (λ next. marked n (labels_in labels.old) at name.now ≡ Ok (labels_in labels.new, next))
        (λ fault. IsAsmFault fault (marked n (labels_in labels.old) at name.now)) }
{
    let given = labels.insert(name, at)?;
    if given.is_some() {
        return Err(AsmFault::Twice { n });
    }
    Ok(at)
}
