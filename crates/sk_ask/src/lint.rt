//! `ask lint`: the calls that get another verdict by bits that Linux does not read.
ghost use Rattle.std.specs.Prelude.{◌≡◌, ◌++◌, ℕ, IfOk, map, string_bytes};
ghost use Rattle.sk_filter.specs.Chains.{IsWithinLimit};
ghost use Rattle.sk_ask.specs.Concluding.{EndsAs};
ghost use Rattle.sk_ask.specs.Counts.{CountsReads};
ghost use Rattle.sk_ask.specs.Endings.{MayEnd, ending_of};
ghost use Rattle.sk_ask.specs.Lints.{IsLinted, TellsLint, lint_printed, not_followed, note_text, remarks_on};
ghost use Rattle.sk_ask.specs.Said.{all_said};
ghost use Rattle.sk_ask.specs.Troubles.{OfFiles};

use crate::analysis::Analysis;
use crate::answer::{Answer, Tells};
use crate::conclusion::{concluded, printing_for};
use crate::on::On;
use crate::printing::Printing;
use crate::remark::{Entries, entries_of};
use crate::{Filters, Reader, Shelf, Trouble, of_word};
use sk_arguments::Naming;
use sk_document::lint_document;
use sk_filter::Chain;
use sk_profile_json::Context;
use sk_text::Lines;
use sk_when::{Budgets, Finding, Linted, Piece, lint_text};
use std::alloc::{AllocError, Global};

/// How many rows may take all the steps of a row.
const MOST_ROWS: u32 = 4;

/// What could not be done where some calls are undecided.
const NOT_FOLLOWED: &str = "lint: the filters could not be followed";

/// `ask lint`, of FILEs with these names, where the profiles among them are to hold so, and of calls too that get a stricter verdict,
/// where these are wanted.
#[derive(Drop)]
pub struct Lint<'a, A> {
    pub on: On<'a, A>,
    pub all: bool,
    pub context: &'a Context<'a>,
    pub names: &'a [String],
}

impl<A: Analysis> Tells for Lint<'_, A> {
    ghost tells = { λ it read ending.
        TellsLint (A.may_spend it.on.analysis.now) it.on.naming it.on.printing it.all it.context.now (map string_bytes it.names.now) read ending };

    fn told(self, alloc: Global, filters: Filters) -> Result<Answer, Trouble> {
        let entries = entries_of(alloc, self.context, self.names, &filters.files)?;
        let it = linted(alloc, self.on.analysis, &filters.chain)?;
        let printing = printing_for(it.finding, self.on.printing);
        let text = printed(
            alloc,
            printing,
            self.all,
            self.on.naming,
            &entries,
            it.finding,
            &it.pieces,
        )?;
        answered(alloc, it.finding, text, &it.notes, filters.notes)
    }
}

/// The answer to the filters of the files with these names.
pub fn lint_answer<S: Shelf, A: Analysis>(
    alloc: Global,
    names: &[String],
    reader: &Reader<'_, S>,
    on: On<'_, A>,
    all: bool,
    reads: &mut u64,
) -> Result<Answer, Trouble>
    ensures told { OfFiles reader.now.manner (S.held reader.now.shelf.now) reader.now.context.now (map string_bytes names.now) (ending_of result) (λ read.
        TellsLint (A.may_spend on.entry.analysis.now) on.entry.naming on.entry.printing all reader.now.context.now
        (map string_bytes names.now) read (ending_of result)) }
    ensures counted { CountsReads result reads.old reads.new }
{
    let context = reader.context;
    let lint = Lint {
        on,
        all,
        context,
        names,
    };
    reader.answer(alloc, reads, names, lint)
}

/// What is found of a chain with the steps that this gets.
pub fn linted<A: Analysis>(alloc: Global, analysis: &A, chain: &Chain) -> Result<Linted, AllocError>
    requires limited { IsWithinLimit chain.now }
    ensures linted { IfOk result (λ it. IsLinted (A.may_spend analysis.now) chain.now it.finding it.pieces.items (string_bytes it.notes)) }
{
    let mut budgets = Budgets::of_rows(MOST_ROWS);
    let it = analysis.lint(alloc, chain, &mut budgets)?;
    Ok(it)
}

fn printed(
    alloc: Global,
    printing: Printing,
    all: bool,
    naming: Naming,
    entries: &Entries<'_>,
    finding: Finding,
    pieces: &[Piece],
) -> Result<Vec<u8>, AllocError>
    ensures printed { IfOk result (λ text. text.items ≡ lint_printed printing all naming (remarks_on (all_said entries.now)) finding pieces.now) }
{
    match printing {
        Printing::Text => {
            Ok(lint_text(alloc, all, naming, entries, finding, pieces)?.into_bytes())
        }
        Printing::Document => lint_document(alloc, naming, entries, finding, pieces),
    }
}

// What is answered with this text and these lines, where that is told of the profiles.
fn answered(
    alloc: Global,
    finding: Finding,
    text: Vec<u8>,
    lines: &str,
    mut notes: Vec<u8>,
) -> Result<Answer, Trouble>
    ensures told { MayEnd (EndsAs not_followed finding (notes.items ++ note_text lines.now) text.items) (ending_of result) }
    ensures unread { (reads : ℕ) → CountsReads result reads reads }
{
    let more = note_text(alloc, lines)?;
    notes.extend_from_slice(&more)?;
    concluded(alloc, NOT_FOLLOWED, finding, text, notes)
}

/// The lines of what is noted.
pub fn note_text(alloc: Global, notes: &str) -> Result<Vec<u8>, AllocError>
    ensures text { IfOk result (λ text. text.items ≡ note_text notes.now) }
{
    let mut text = Vec::new(alloc);
    for line in Lines(notes.as_bytes()) {
        text.extend_from_slice(&of_word(alloc, "lint: ", line)?)?;
    }
    Ok(text)
}
