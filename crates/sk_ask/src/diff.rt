//! `ask diff`: where the filters of two files answer otherwise.
ghost use Rattle.std.specs.Prelude.{◌≡◌, ◌++◌, take, drop, map, string_bytes};
ghost use Rattle.sk_ask.specs.Counts.{CountsReads};
ghost use Rattle.sk_ask.specs.Diffs.{IsDiff, relation_asked};
ghost use Rattle.sk_ask.specs.Endings.{ending_of};
ghost use Rattle.sk_ask.specs.Troubles.{OfFiles};

use crate::analysis::Analysis;
use crate::answer::{Answer, Tells};
use crate::comparison::compared;
use crate::on::On;
use crate::{Filters, Reader, Shelf, Trouble};
use sk_when::Relation;
use std::alloc::Global;

/// What could not be done where some calls are undecided.
const NOT_COMPARED: &str = "diff: the filters could not be compared";

/// `ask diff`, behind the old FILE.
#[derive(Drop)]
pub struct Diff<'a, A> {
    pub on: On<'a, A>,
    pub stricter: bool,
    pub old: Filters,
}

impl<A: Analysis> Tells for Diff<'_, A> {
    ghost use Rattle.std.specs.Prelude.{◌++◌};
    ghost use Rattle.sk_ask.specs.Diffs.{IsDiff};

    ghost tells = { λ it read ending.
        IsDiff (A.may_spend it.on.analysis.now) it.on.naming it.on.printing it.on.architecture it.stricter it.old.chain read.chain
        (it.old.notes.items ++ read.notes) ending };

    fn told(self, alloc: Global, filters: Filters) -> Result<Answer, Trouble> {
        let Diff { on, stricter, old } = self;
        let mut notes = old.notes;
        notes.extend_from_slice(&filters.notes)?;
        let relation = relation_asked(stricter);
        compared(
            alloc,
            &on,
            "diff",
            relation,
            NOT_COMPARED,
            old.chain,
            filters.chain,
            notes,
        )
    }
}

/// The answer to the filters of the file with the first of these names, and to those of the files behind it.
pub fn diff_answer<S: Shelf, A: Analysis>(
    alloc: Global,
    names: &[String],
    reader: &Reader<'_, S>,
    on: On<'_, A>,
    stricter: bool,
    reads: &mut u64,
) -> Result<Answer, Trouble>
    ensures told { OfFiles reader.now.manner (S.held reader.now.shelf.now) reader.now.context.now (take 1 (map string_bytes names.now)) (ending_of result) (λ old.
        OfFiles reader.now.manner (S.held reader.now.shelf.now) reader.now.context.now (drop 1 (map string_bytes names.now)) (ending_of result) (λ new.
        IsDiff (A.may_spend on.entry.analysis.now) on.entry.naming on.entry.printing on.entry.architecture stricter old.chain new.chain
        (old.notes ++ new.notes) (ending_of result))) }
    ensures counted { CountsReads result reads.old reads.new }
{
    let (old, new) = sides(names);
    let old = reader.filters(alloc, reads, old)?;
    reader.answer(alloc, reads, new, Diff { on, stricter, old })
}

/// The first name, and those behind it.
pub fn sides(names: &[String]) -> (&[String], &[String])
    ensures old { map string_bytes result.0.now ≡ take 1 (map string_bytes names.now) }
    ensures new { map string_bytes result.1.now ≡ drop 1 (map string_bytes names.now) }
{
    names.split_at(names.len().min(1))
}

fn relation_asked(stricter: bool) -> Relation
    ensures relation { result ≡ relation_asked stricter }
{
    if stricter {
        Relation::AsStrict
    } else {
        Relation::Same
    }
}
