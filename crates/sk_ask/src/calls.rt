//! `ask calls`: what filters can answer to each call.
ghost use Rattle.std.specs.Prelude.{◌≡◌, IfOk};
ghost use Rattle.sk_ask.specs.CallsText.{AreLinesTold, calls_printed, is_unseen};

use crate::analysis::Analysis;
use crate::answer::{Answer, Tells};
use crate::calls_text::calls_text;
use crate::each::{OfCall, items_of_each};
use crate::on::{On, chain_on};
use crate::only::{Sought, lines_sought};
use crate::printing::Printing;
use crate::{Filters, Trouble};
use sk_document::calls_document;
use sk_filter::Chain;
use sk_names::Architecture;
use sk_show::{Line, Options};
use sk_survey::looks_at_architecture;
use sk_when::Budgets;
use std::alloc::{AllocError, Global};

/// How many rows may take all the steps of a row, where calls are looked for.
const MOST_ROWS: u32 = 2;

/// `ask calls`, of some calls or of all, with calls for the verdicts where they are wanted.
#[derive(Drop)]
pub struct Calls<'a, A> {
    pub on: On<'a, A>,
    pub calls: &'a [u32],
    pub only: &'a [Sought],
    pub examples: bool,
}

impl<A: Analysis> Tells for Calls<'_, A> {
    ghost use Rattle.sk_ask.specs.CallsText.{TellsSurvey};

    ghost tells = { λ it read ending.
        TellsSurvey (A.may_spend it.on.analysis.now) it.on.printing it.on.architecture it.examples it.calls.now it.only.now read.chain read.notes ending };

    fn told(self, alloc: Global, filters: Filters) -> Result<Answer, Trouble> {
        let Calls {
            on,
            calls,
            only,
            examples,
        } = self;
        let Filters { chain, notes, .. } = filters;
        let looks = looks_at_architecture(&chain);
        let chain = chain_on(alloc, on.architecture, chain)?;
        let survey = Survey {
            analysis: on.analysis,
            architecture: on.architecture,
            examples,
            chain: &chain,
        };
        let told = items_of_each(alloc, &survey, calls)?;
        let lines = lines_sought(only, told);
        let unseen = is_unseen(calls, looks);
        Ok(Answer {
            text: printed(alloc, on.printing, on.architecture, looks, &lines, unseen)?,
            notes,
            denies: false,
        })
    }
}

// A survey of a chain as it is for an architecture.
#[derive(Drop)]
struct Survey<'a, A> {
    analysis: &'a A,
    architecture: Architecture,
    examples: bool,
    chain: &'a Chain,
}

impl<A: Analysis> OfCall for Survey<'_, A> {
    ghost use Rattle.sk_ask.specs.CallsText.{AreLinesTold};

    type Item = Line;

    ghost tells = { λ it call lines. AreLinesTold (A.may_spend it.analysis.now)
        (record { architecture = it.architecture; call = call; examples = it.examples }) it.chain.now lines };

    fn items(&self, alloc: Global, call: Option<u32>) -> Result<Vec<Line>, AllocError> {
        let options = Options {
            architecture: self.architecture,
            call,
            examples: self.examples,
        };
        lines_of(alloc, self.analysis, options, self.chain)
    }
}

fn lines_of<A: Analysis>(
    alloc: Global,
    analysis: &A,
    options: Options,
    chain: &Chain,
) -> Result<Vec<Line>, AllocError>
    ensures told { IfOk result (λ lines. AreLinesTold (A.may_spend analysis.now) options chain.now lines.items) }
{
    let budgets = &mut Budgets::of_rows(MOST_ROWS);
    let lines = analysis.lines(alloc, options, chain, budgets)?;
    Ok(lines)
}

// Whether it is said that no filter looks at the architecture.
fn is_unseen(calls: &[u32], looks: bool) -> bool
    ensures unseen { result ≡ is_unseen calls.now looks }
{
    calls.is_empty() && !looks
}

fn printed(
    alloc: Global,
    printing: Printing,
    architecture: Architecture,
    looks: bool,
    lines: &[Line],
    unseen: bool,
) -> Result<Vec<u8>, AllocError>
    ensures printed { IfOk result (λ text. text.items ≡ calls_printed printing architecture looks lines.now unseen) }
{
    match printing {
        Printing::Text => Ok(calls_text(alloc, architecture, lines, unseen)?.into_bytes()),
        Printing::Document => calls_document(alloc, architecture, looks, lines),
    }
}
