//! `ask page`: what a reviewer reads of filters, and of what changed since an old one, as a page of HTML.
ghost use Rattle.std.specs.Prelude.{◌≡◌, ◌++◌, ℕ, [], IfOk, Some, None, OnOk, codes, flat_map, string_bytes, map, take, drop};
ghost use Rattle.sk_filter.specs.Chains.{IsWithinLimit};
ghost use Rattle.sk_ask.specs.Counts.{CountsReads};
ghost use Rattle.sk_when.specs.Naming.{names_of};
ghost use Rattle.sk_document.specs.Page.{review_page};
ghost use Rattle.sk_ask.specs.Endings.{MayEnd, ending_of};
ghost use Rattle.sk_ask.specs.Lints.{note_text, remarks_on};
ghost use Rattle.sk_ask.specs.Said.{all_said};
ghost use Rattle.sk_names.specs.declared.architecture.Architecture.TheVariants.{X86_64};
ghost use Rattle.sk_conditions.specs.declared.standing.Relation.TheVariants.{Same};
ghost use Rattle.sk_ask.specs.Comparisons.{IsAnalysed};
ghost use Rattle.sk_ask.specs.Pages.{EndsAsPage, IsComparedWith, IsReviewed, is_followed, TellsPage, listed, page_title};
ghost use Rattle.sk_ask.specs.Whens.{AreRowsTold};
ghost use Rattle.sk_ask.specs.Troubles.{OfFiles};

use crate::analysis::Analysis;
use crate::answer::{Answer, Tells};
use crate::comparison::analysed;
use crate::diff::sides;
use crate::known::is_followed;
use crate::lint::{linted, note_text};
use crate::on::On;
use crate::remark::{Entries, entries_of};
use crate::{Filters, Reader, Shelf, Trouble, of_word};
use sk_arguments::Naming;
use sk_document::review_page;
use sk_filter::Chain;
use sk_names::Architecture;
use sk_profile_json::Context;
use sk_survey::Told;
use sk_when::{Budgets, Comparison, ConditionalRow, Linted, Names, Relation};
use std::alloc::{AllocError, Global};

/// How many rows may take all the steps of a row, as in `ask when`.
const MOST_ROWS: u32 = 2;

/// What could not be done where something is left open.
const NOT_FOLLOWED: &str =
    "page: the filters could not be followed on all calls: ask when, ask lint and ask diff say where";

/// `ask page`, of FILEs with these names, where the profiles among them are to hold so, behind the old FILE, if there is one.
#[derive(Drop)]
pub struct Page<'a, A> {
    pub on: On<'a, A>,
    pub context: &'a Context<'a>,
    pub old_names: &'a [String],
    pub old: Option<Chain>,
    pub noted: Vec<u8>,
    pub names: &'a [String],
}

impl<A: Analysis> Tells for Page<'_, A> {
    ghost use Rattle.std.specs.Prelude.{map, string_bytes};
    ghost use Rattle.sk_ask.specs.Pages.{TellsPage};

    ghost tells = { λ it read ending. TellsPage (A.may_spend it.on.analysis.now) it.on.naming it.context.now
        (map string_bytes it.old_names.now) it.old it.noted.items (map string_bytes it.names.now) read ending };

    fn told(self, alloc: Global, filters: Filters) -> Result<Answer, Trouble> {
        let Page {
            on,
            context,
            old_names,
            old,
            noted,
            names,
        } = self;
        let entries = entries_of(alloc, context, names, &filters.files)?;
        let compared = compared_with(alloc, on.analysis, old, &filters.chain)?;
        let it = review(alloc, on.analysis, &filters.chain)?;
        let notes = all_notes(alloc, noted, &filters.notes, &it.linted.notes)?;
        answered(
            alloc, old_names, names, on.naming, &entries, &compared, &it, notes,
        )
    }
}

// All that is told beside the page: of the old file, of the others, and what lint notes.
fn all_notes(alloc: Global, noted: Vec<u8>, more: &[u8], lines: &str) -> Result<Vec<u8>, AllocError>
    ensures notes { IfOk result (λ notes. notes.items ≡ noted.items ++ (more.now ++ note_text lines.now)) }
{
    let mut notes = noted;
    notes.extend_from_slice(more)?;
    let text = note_text(alloc, lines)?;
    notes.extend_from_slice(&text)?;
    Ok(notes)
}

// The page with these notes, where nothing is left open.
fn answered(
    alloc: Global,
    old_names: &[String],
    names: &[String],
    naming: Naming,
    entries: &Entries<'_>,
    compared: &Option<Comparison>,
    it: &Reviewed,
    notes: Vec<u8>,
) -> Result<Answer, Trouble>
    ensures told { MayEnd (EndsAsPage (is_followed compared.now it.now.rows.items it.now.linted) notes.items
        (review_page (page_title (map string_bytes old_names.now) (map string_bytes names.now)) (names_of naming X86_64) (remarks_on (all_said entries.now))
        compared.now it.now.rows.items it.now.told it.now.linted)) (ending_of result) }
    ensures unread { (reads : ℕ) → CountsReads result reads reads }
{
    if !is_followed(compared, &it.rows, &it.linted) {
        return Err(Trouble::Refused(of_word(alloc, NOT_FOLLOWED, b"")?));
    }
    let text = page_of(alloc, old_names, names, naming, entries, compared, it)?;
    Ok(Answer {
        text,
        notes,
        denies: false,
    })
}

fn page_of(
    alloc: Global,
    old_names: &[String],
    names: &[String],
    naming: Naming,
    entries: &Entries<'_>,
    compared: &Option<Comparison>,
    it: &Reviewed,
) -> Result<Vec<u8>, AllocError>
    ensures page { IfOk result (λ text. text.items ≡ review_page (page_title (map string_bytes old_names.now) (map string_bytes names.now))
        (names_of naming X86_64) (remarks_on (all_said entries.now)) compared.now it.now.rows.items it.now.told it.now.linted) }
{
    let title = page_title(alloc, old_names, names)?;
    let names = Names {
        naming,
        architecture: Architecture::X86_64,
    };
    let compared = compared.as_ref();
    review_page(
        alloc,
        title.as_str(),
        names,
        entries,
        compared,
        &it.rows,
        &it.told,
        &it.linted,
    )
}

/// The answer to the filters of the files with these names.
pub fn page_answer<S: Shelf, A: Analysis>(
    alloc: Global,
    names: &[String],
    reader: &Reader<'_, S>,
    on: On<'_, A>,
    reads: &mut u64,
) -> Result<Answer, Trouble>
    ensures told { OfFiles reader.now.manner (S.held reader.now.shelf.now) reader.now.context.now (map string_bytes names.now) (ending_of result) (λ read.
        TellsPage (A.may_spend on.entry.analysis.now) on.entry.naming reader.now.context.now [] None []
        (map string_bytes names.now) read (ending_of result)) }
    ensures counted { CountsReads result reads.old reads.new }
{
    let page = Page {
        on,
        context: reader.context,
        old_names: &[],
        old: None,
        noted: Vec::new(alloc),
        names,
    };
    reader.answer(alloc, reads, names, page)
}

/// The answer to the filters of the files behind the first of these names, compared with those of the file with that name.
pub fn comparison_answer<S: Shelf, A: Analysis>(
    alloc: Global,
    names: &[String],
    reader: &Reader<'_, S>,
    on: On<'_, A>,
    reads: &mut u64,
) -> Result<Answer, Trouble>
    ensures told { OfFiles reader.now.manner (S.held reader.now.shelf.now) reader.now.context.now (take 1 (map string_bytes names.now)) (ending_of result) (λ old.
        OfFiles reader.now.manner (S.held reader.now.shelf.now) reader.now.context.now (drop 1 (map string_bytes names.now)) (ending_of result) (λ new.
        TellsPage (A.may_spend on.entry.analysis.now) on.entry.naming reader.now.context.now
        (take 1 (map string_bytes names.now)) (Some old.chain) old.notes (drop 1 (map string_bytes names.now)) new (ending_of result))) }
    ensures counted { CountsReads result reads.old reads.new }
{
    let (old, new) = sides(names);
    let filters = reader.filters(alloc, reads, old)?;
    let page = Page {
        on,
        context: reader.context,
        old_names: old,
        old: Some(filters.chain),
        noted: filters.notes,
        names: new,
    };
    reader.answer(alloc, reads, new, page)
}

// The comparison of a chain with an old one, where there is one.
fn compared_with<A: Analysis>(
    alloc: Global,
    analysis: &A,
    old: Option<Chain>,
    new: &Chain,
) -> Result<Option<Comparison>, AllocError>
    ensures compared { IfOk result (IsComparedWith (A.may_spend analysis.now) old new.now) }
{
    match old {
        Some(old) => Ok(Some(compared(alloc, analysis, &old, new)?)),
        None => Ok(None),
    }
}

fn compared<A: Analysis>(
    alloc: Global,
    analysis: &A,
    old: &Chain,
    new: &Chain,
) -> Result<Comparison, AllocError>
    ensures compared { IfOk result (λ it. IsAnalysed (A.may_spend analysis.now) X86_64 Same old.now new.now it.finding it.pieces.items) }
{
    analysed(
        alloc,
        analysis,
        Architecture::X86_64,
        Relation::Same,
        old,
        new,
    )
}

// What a page tells of a chain.
#[derive(Drop)]
struct Reviewed {
    rows: Vec<ConditionalRow>,
    told: Told,
    linted: Linted,
}

fn review<A: Analysis>(alloc: Global, analysis: &A, chain: &Chain) -> Result<Reviewed, AllocError>
    requires limited { IsWithinLimit chain.now }
    ensures reviewed { IfOk result (λ it. IsReviewed (A.may_spend analysis.now) chain.now it.rows.items it.told it.linted) }
{
    let rows = rows(alloc, analysis, chain)?;
    let told = sk_survey::arches(alloc, chain)?;
    let linted = linted(alloc, analysis, chain)?;
    Ok(Reviewed { rows, told, linted })
}

// Its rows with the steps that these get.
fn rows<A: Analysis>(
    alloc: Global,
    analysis: &A,
    chain: &Chain,
) -> Result<Vec<ConditionalRow>, AllocError>
    ensures rows { IfOk result (λ rows. AreRowsTold (A.may_spend analysis.now) X86_64 chain.now None rows.items) }
{
    let budgets = &mut Budgets::of_rows(MOST_ROWS);
    analysis.rows(alloc, Architecture::X86_64, chain, None, budgets)
}

fn page_title(alloc: Global, old: &[String], new: &[String]) -> Result<String, AllocError>
    ensures title { IfOk result (λ title. string_bytes title ≡ page_title (map string_bytes old.now) (map string_bytes new.now)) }
{
    let mut title = String::new(alloc);
    title.push_str("ask page: ")?;
    if !old.is_empty() {
        push_listed(&mut title, old)?;
        title.push_str(" to ")?;
    }
    push_listed(&mut title, new)?;
    Ok(title)
}

// Names with a comma between two.
fn push_listed(text: &mut String, names: &[String]) -> Result<(), AllocError>
    ensures text { OnOk result (string_bytes text.new ≡ string_bytes text.old ++ listed (map string_bytes names.now)) }
{
    let Some((first, others)) = names.split_first() else {
        return Ok(());
    };
    text.push_str(first)?;
    push_others(text, others)
}

fn push_others(text: &mut String, names: &[String]) -> Result<(), AllocError>
    ensures text { OnOk result (string_bytes text.new ≡
        string_bytes text.old ++ flat_map (λ other. codes ", " ++ other) (map string_bytes names.now)) }
{
    for name in names {
        text.push_str(", ")?;
        text.push_str(name)?;
    }
    Ok(())
}
