//! `ask when`: under which conditions on a call each verdict comes, and with `--dot` the picture of a call's tree.
ghost use Rattle.std.specs.Prelude.{◌≡◌, IfOk, Some, string_bytes};
ghost use Rattle.sk_ask.specs.Whens.{IsPictured, IsWhenText, when_printed};

use crate::analysis::Analysis;
use crate::answer::{Answer, Tells};
use crate::each::{OfCall, items_of_each};
use crate::on::{On, filters_on};
use crate::only::{Sought, rows_sought};
use crate::printing::Printing;
use crate::{Filters, Trouble};
use sk_document::when_document;
use sk_filter::Chain;
use sk_names::Architecture;
use sk_when::{Budget, Budgets, ConditionalRow, Names, when_text};
use std::alloc::{AllocError, Global};

/// How many rows may take all the steps of a row: fewer than in a comparison, since here the survey's verdicts are told beyond.
const MOST_ROWS: u32 = 2;

/// `ask when`, of some calls or of all, or the pictures of these calls' trees.
#[derive(Drop)]
pub struct When<'a, A> {
    pub on: On<'a, A>,
    pub calls: &'a [u32],
    pub only: &'a [Sought],
    pub dot: bool,
}

impl<A: Analysis> Tells for When<'_, A> {
    ghost use Rattle.sk_ask.specs.Whens.{TellsWhenOf};

    ghost tells = { λ it read ending. TellsWhenOf (A.may_spend it.on.analysis.now) it.on.naming it.on.printing it.on.architecture it.dot it.calls.now
        it.only.now read.chain read.notes ending };

    fn told(self, alloc: Global, filters: Filters) -> Result<Answer, Trouble> {
        let When {
            on,
            calls,
            only,
            dot,
        } = self;
        let (chain, notes) = filters_on(alloc, on.architecture, filters)?;
        Ok(Answer {
            text: text_of(alloc, &on, dot, calls, only, &chain)?,
            notes,
            denies: false,
        })
    }
}

fn text_of<A: Analysis>(
    alloc: Global,
    on: &On<'_, A>,
    dot: bool,
    calls: &[u32],
    only: &[Sought],
    chain: &Chain,
) -> Result<Vec<u8>, AllocError>
    ensures text { IfOk result (λ text.
        IsWhenText (A.may_spend on.now.analysis.now) on.now.naming on.now.printing on.now.architecture dot calls.now only.now chain.now text.items) }
{
    let (analysis, architecture) = (on.analysis, on.architecture);
    if dot {
        return items_of_each(alloc, &Pictures { analysis, chain }, calls);
    }
    let conditions = Conditions {
        analysis,
        architecture,
        chain,
    };
    let rows = rows_sought(only, items_of_each(alloc, &conditions, calls)?);
    let names = Names {
        naming: on.naming,
        architecture,
    };
    printed(alloc, on.printing, names, &rows)
}

fn printed(
    alloc: Global,
    printing: Printing,
    names: Names,
    rows: &[ConditionalRow],
) -> Result<Vec<u8>, AllocError>
    ensures printed { IfOk result (λ text. text.items ≡ when_printed printing names rows.now) }
{
    match printing {
        Printing::Text => Ok(when_text(alloc, names, rows)?.into_bytes()),
        Printing::Document => when_document(alloc, names, rows),
    }
}

// The conditions of a chain as it is for an architecture.
#[derive(Drop)]
struct Conditions<'a, A> {
    analysis: &'a A,
    architecture: Architecture,
    chain: &'a Chain,
}

impl<A: Analysis> OfCall for Conditions<'_, A> {
    ghost use Rattle.sk_ask.specs.Whens.{AreRowsTold};

    type Item = ConditionalRow;

    ghost tells = { λ it call rows. AreRowsTold (A.may_spend it.analysis.now) it.architecture it.chain.now call rows };

    fn items(&self, alloc: Global, call: Option<u32>) -> Result<Vec<ConditionalRow>, AllocError> {
        let budgets = &mut Budgets::of_rows(MOST_ROWS);
        self.analysis
            .rows(alloc, self.architecture, self.chain, call, budgets)
    }
}

// The pictures of a chain.
#[derive(Drop)]
struct Pictures<'a, A> {
    analysis: &'a A,
    chain: &'a Chain,
}

impl<A: Analysis> OfCall for Pictures<'_, A> {
    type Item = u8;

    ghost tells = { λ it call text. IsPictured (A.may_spend it.analysis.now) it.chain.now call text };

    fn items(&self, alloc: Global, call: Option<u32>) -> Result<Vec<u8>, AllocError> {
        match call {
            Some(nr) => Ok(picture(alloc, self.analysis, self.chain, nr)?.into_bytes()),
            None => Ok(Vec::new(alloc)),
        }
    }
}

// The picture of the tree of one call.
fn picture<A: Analysis>(
    alloc: Global,
    analysis: &A,
    chain: &Chain,
    nr: u32,
) -> Result<String, AllocError>
    ensures picture { IfOk result (λ text. IsPictured (A.may_spend analysis.now) chain.now (Some nr) (string_bytes text)) }
{
    analysis.dot(alloc, chain, nr, &mut Budget::whole())
}
