//! `ask filter`: the filters as lines, or one filter in another form, and with `--smaller` one in place of all.
ghost use Rattle.std.specs.Prelude.{◌≡◌, ◌++◌, ℕ, IfOk, OnOk, map};
ghost use Rattle.sk_ask.specs.Counts.{CountsReads};
ghost use Rattle.sk_ask.specs.Endings.{ending_of};
ghost use Rattle.sk_ask.specs.FilterText.{filter_line, filter_lines};
ghost use Rattle.sk_ask.specs.Targets.{Gives, GivesOne};

use crate::analysis::Analysis;
use crate::answer::{Answer, Tells};
use crate::smaller::smaller;
use crate::target::{Target, written};
use crate::{Filters, Trouble, of_word};
use sk_filter::Chain;
use std::alloc::{AllocError, Global};

/// `ask filter`, in a form, or of one in place of all.
#[derive(Drop)]
pub struct Filter<'a, A> {
    pub analysis: &'a A,
    pub target: Target,
    pub smaller: bool,
}

impl<A: Analysis> Tells for Filter<'_, A> {
    ghost use Rattle.sk_ask.specs.Smaller.{TellsFilter};

    ghost tells = { λ it read ending. TellsFilter (A.may_spend it.analysis.now) it.target it.smaller read.chain read.found.images read.notes ending };

    fn told(self, alloc: Global, filters: Filters) -> Result<Answer, Trouble> {
        if self.smaller {
            return smaller(alloc, self.analysis, self.target, filters);
        }
        given(alloc, self.target, filters)
    }
}

fn given(alloc: Global, target: Target, filters: Filters) -> Result<Answer, Trouble>
    ensures told { Gives target filters.chain (map (λ image. image.items) filters.found.images.items) filters.notes.items (ending_of result) }
    ensures unread { (reads : ℕ) → CountsReads result reads reads }
{
    let Filters {
        found,
        chain,
        notes,
        ..
    } = filters;
    match target {
        Target::Lines => Ok(Answer {
            text: filter_lines(alloc, &found.images)?,
            notes,
            denies: false,
        }),
        _ => only(alloc, target, &chain, notes),
    }
}

// The only filter of a chain, in a form that has room for one.
fn only(alloc: Global, target: Target, chain: &Chain, notes: Vec<u8>) -> Result<Answer, Trouble>
    ensures told { GivesOne target chain.now notes.items (ending_of result) }
    ensures unread { (reads : ℕ) → CountsReads result reads reads }
{
    let mut programs = chain.programs();
    match (programs.next(), programs.next()) {
        (Some(program), None) => Ok(Answer {
            text: written(alloc, target, program.insns())?,
            notes,
            denies: false,
        }),
        _ => Err(Trouble::Refused(of_word(
            alloc,
            "filter: the FILEs hold several filters: expected one with ",
            target.option().as_bytes(),
        )?)),
    }
}

fn filter_lines(alloc: Global, images: &[Vec<u8>]) -> Result<Vec<u8>, AllocError>
    ensures text { IfOk result (λ text. text.items ≡ filter_lines (map (λ image. image.items) images.now)) }
{
    let mut text = Vec::new(alloc);
    for image in images {
        push_filter(alloc, &mut text, image)?;
    }
    Ok(text)
}

/// Puts a line `filter HEX` behind a text.
pub fn push_filter(alloc: Global, text: &mut Vec<u8>, image: &[u8]) -> Result<(), AllocError>
    ensures text { OnOk result (text.new.items ≡ text.old.items ++ filter_line image.now) }
{
    text.extend_from_slice(b"filter ")?;
    text.extend_from_slice(hex::encode(alloc, image)?.as_bytes())?;
    text.extend_from_slice(b"\n")
}
