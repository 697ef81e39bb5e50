//! Two chains, compared on every call of an architecture.
ghost use Rattle.std.specs.Prelude.{◌≡◌, ℕ, IfOk};
ghost use Rattle.sk_ask.specs.Comparisons.{IsAnalysed, IsCompared, comparison_printed};
ghost use Rattle.sk_ask.specs.Counts.{CountsReads};
ghost use Rattle.sk_ask.specs.Endings.{ending_of};

use crate::Trouble;
use crate::analysis::Analysis;
use crate::answer::Answer;
use crate::conclusion::{concluded, printing_for};
use crate::on::{On, chain_on};
use crate::printing::Printing;
use sk_document::comparison_document;
use sk_filter::Chain;
use sk_names::Architecture;
use sk_when::{Budgets, Comparison, Finding, Names, Piece, Relation, comparison_text};
use std::alloc::{AllocError, Global};

/// How many rows a comparison may take that need all the steps of a row.
const MOST_ROWS: u32 = 4;

/// The answer of a word of ask that a new chain stands so to an old one; where some calls are undecided there is none, and this
/// could not be done.
pub fn compared<A: Analysis>(
    alloc: Global,
    on: &On<'_, A>,
    word: &str,
    relation: Relation,
    undone: &str,
    old: Chain,
    new: Chain,
    notes: Vec<u8>,
) -> Result<Answer, Trouble>
    ensures told { IsCompared (A.may_spend on.now.analysis.now) on.now.naming on.now.printing on.now.architecture word.now relation undone.now old new
        notes.items (ending_of result) }
    ensures unread { (reads : ℕ) → CountsReads result reads reads }
{
    let old = chain_on(alloc, on.architecture, old)?;
    let new = chain_on(alloc, on.architecture, new)?;
    let it = analysed(alloc, on.analysis, on.architecture, relation, &old, &new)?;
    let names = Names {
        naming: on.naming,
        architecture: on.architecture,
    };
    let printing = printing_for(it.finding, on.printing);
    let text = printed(
        alloc, printing, word, names, relation, it.finding, &it.pieces,
    )?;
    concluded(alloc, undone, it.finding, text, notes)
}

/// The comparison of two chains with the steps that a comparison gets.
pub fn analysed<A: Analysis>(
    alloc: Global,
    analysis: &A,
    architecture: Architecture,
    relation: Relation,
    old: &Chain,
    new: &Chain,
) -> Result<Comparison, AllocError>
    ensures compared { IfOk result (λ it. IsAnalysed (A.may_spend analysis.now) architecture relation old.now new.now
        it.finding it.pieces.items) }
{
    let mut budgets = Budgets::of_rows(MOST_ROWS);
    analysis.diff(alloc, architecture, relation, old, new, &mut budgets)
}

fn printed(
    alloc: Global,
    printing: Printing,
    word: &str,
    names: Names,
    relation: Relation,
    finding: Finding,
    pieces: &[Piece],
) -> Result<Vec<u8>, AllocError>
    ensures printed { IfOk result (λ text. text.items ≡ comparison_printed printing word.now names relation finding pieces.now) }
{
    match printing {
        Printing::Text => {
            Ok(comparison_text(alloc, names, relation, finding, pieces)?.into_bytes())
        }
        Printing::Document => { comparison_document(alloc, word, names, relation, finding, pieces) }
    }
}
