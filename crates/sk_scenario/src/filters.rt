//! Lines in a filter's block.
ghost use Rattle.std.specs.Prelude.{◌≡◌, ◌≢◌, ◌≤◌, ◌<◌, ◌^◌, [], IfOk};
ghost use Rattle.sk_text.specs.Lines.{lines_of, words_of};
ghost use Rattle.sk_asm.specs.Block.{until_end};
ghost use Rattle.sk_asm.specs.Passes.{assembled_lines};
ghost use Rattle.sk_asm.specs.declared.fault.AsmFault.TheVariants.{Memory};
ghost use Rattle.sk_scenario.specs.Grammar.{begins_bytes, bytes_of};
ghost use Rattle.sk_scenario.specs.Reading.{Bytes, Code, understood, limited, fault_of, held, coded, decided, grown};
ghost use Rattle.sk_scenario.specs.Answers.{Answers, Judges};
ghost use Rattle.sk_scenario.specs.views.ScenarioCode.{known_seen, block_seen};

use crate::TextFault;
use crate::fault::ScenarioFault;
use crate::state::{Block, Names};
use crate::top::check_line;
use sk_asm::{AsmFault, assemble_block};
use sk_insn::write_insns;
use sk_text::{HexFault, Words, bytes_of, is_passed_over, is_same};
use std::alloc::{AllocError, Global};

// The most bytes that a filter's image may have.
const LONGEST_IMAGE: usize = 32776;

// The bytes that line `n` adds to an image.
#[tactic(auto, unfolding(crate::specs::Grammar::bytes_of))]
fn image_bytes(
    alloc: Global,
    n: usize,
    line: &[u8],
) -> Result<Result<Vec<u8>, TextFault>, AllocError>
    ensures exact { IfOk result (λ answer. Judges (λ bytes. bytes.items) answer (understood n (bytes_of line.now))) }
{
    if is_passed_over(line) {
        return Ok(Ok(Vec::new(alloc)));
    }
    let mut words = Words(line);
    let Some(first) = words.next() else {
        return Ok(Err(TextFault::Line { n }));
    };
    if !is_same(first, b"bytes") {
        return Ok(Err(TextFault::Line { n }));
    }
    match bytes_of(alloc, words) {
        Ok(bytes) => Ok(Ok(bytes)),
        Err(HexFault::NotHexadecimal) => Ok(Err(TextFault::Line { n })),
        Err(HexFault::Memory) => Err(AllocError),
    }
}

// Whether an image is short enough with the bytes of line `n`.
fn judge_image(n: usize, image: &[u8]) -> Result<(), TextFault>
    ensures exact { Judges (λ none. Bytes image.now) result (limited n image.now) }
{
    if image.len() > LONGEST_IMAGE {
        return Err(TextFault::Limit { n });
    }
    Ok(())
}

// What a fault of the assembler is in a scenario.
fn text_fault(fault: AsmFault) -> Result<TextFault, AllocError>
    ensures exact { IfOk result (λ why. (fault ≢ Memory) × (why ≡ fault_of fault)) }
{
    match fault {
        AsmFault::Label { n } => Ok(TextFault::Unresolved { n }),
        AsmFault::TooLong { n } => Ok(TextFault::Limit { n }),
        AsmFault::Line { n } | AsmFault::Twice { n } | AsmFault::Far { n } | AsmFault::Back { n } =>
            Ok(TextFault::Line { n }),
        AsmFault::Memory => Err(AllocError),
    }
}

// Passes over a label that is not given, where the names are not known yet.
fn hold(known: Option<&Names<'_>>, why: TextFault) -> Result<(), TextFault>
    ensures exact { Judges (λ none. Code []) result (held (known_seen known.entry) why) }
{
    match why {
        TextFault::Unresolved { n } => match known {
            None => Ok(()),
            Some(_) => Err(TextFault::Unresolved { n }),
        },
        TextFault::Line { n } => Err(TextFault::Line { n }),
        TextFault::Limit { n } => Err(TextFault::Limit { n }),
    }
}

// The image of a block of assembler lines, of which the first is line `n`.
#[tactic(auto, unfolding(crate::specs::Reading::coded))]
fn assemble(
    alloc: Global,
    known: Option<&Names<'_>>,
    n: usize,
    ahead: &[u8],
) -> Result<Block, ScenarioFault>
    requires first { 1 ≤ n }
    requires numbers { n < 2 ^ 63 }
    ensures exact { Answers block_seen result (coded (known_seen known.entry) (assembled_lines n (until_end (lines_of ahead.now)))) }
{
    match assemble_block(alloc, n - 1, ahead) {
        Ok(insns) => {
            let image = write_insns(alloc, insns.as_slice())?;
            Ok(Block::Code(image))
        }
        Err(fault) => {
            let why = text_fault(fault)?;
            hold(known, why)?;
            Ok(Block::Code(Vec::new(alloc)))
        }
    }
}

fn begins_bytes(line: &[u8]) -> bool
    ensures exact { result ≡ begins_bytes (words_of line.now) }
{
    match Words(line).next() {
        Some(word) => is_same(word, b"bytes"),
        None => false,
    }
}

// The first line that says something decides what the block is of. All of the assembler is behind it, so that it stays a
// function of its own: LLVM would take nothing else into the loop over the lines.
#[inline(never)]
#[tactic(auto, unfolding(crate::specs::Reading::decided))]
pub(crate) fn decide(
    alloc: Global,
    known: Option<&Names<'_>>,
    n: usize,
    line: &[u8],
    ahead: &[u8],
) -> Result<Block, ScenarioFault>
    requires first { 1 ≤ n }
    requires numbers { n < 2 ^ 63 }
    ensures exact { Answers block_seen result (decided (known_seen known.entry) n line.now (until_end (lines_of ahead.now))) }
{
    if is_passed_over(line) {
        return Ok(Block::Undecided);
    }
    if !begins_bytes(line) {
        return assemble(alloc, known, n, ahead);
    }
    let image = image_bytes(alloc, n, line)??;
    judge_image(n, image.as_slice())?;
    Ok(Block::Bytes(image))
}

// An image with the bytes of line `n` behind it.
#[tactic(auto, unfolding(crate::specs::Reading::checked))]
pub(crate) fn grow(
    alloc: Global,
    n: usize,
    image: &mut Vec<u8>,
    line: &[u8],
) -> Result<(), ScenarioFault>
    ensures exact { Answers (λ none. Bytes image.new.items) result (grown n image.old.items line.now) }
{
    check_line(n, line)?;
    let bytes = image_bytes(alloc, n, line)??;
    image.extend_from_slice(bytes.as_slice())?;
    judge_image(n, image.as_slice())?;
    Ok(())
}
