//! The ranges of a text's rows.
ghost use Rattle.std.specs.Prelude.{◌≡◌, ◌++◌, map, IfOk, OnOk, IsPermutation};
ghost use Rattle.sk_policy_text.specs.PolicyRows.{part_in, parts_in, parts_at, parts_of, cases_of_part};
ghost use Rattle.sk_policy_text.specs.PolicyRanges.{part_of, Rise};

use crate::sentence::{Range, Sentence};
use crate::stated::{Stated, cases_below};
use std::alloc::{AllocError, Global};

/// One range of a row, with the line and the verdict of the row, and the sentences behind it.
#[derive(Clone, Copy)]
pub struct Span<'a> {
    pub first: u32,
    pub last: u32,
    pub line: usize,
    pub verdict: Option<u32>,
    pub behind: &'a [Stated<'a>],
}

// A range from a greater number has none.
fn push_range<'a>(
    spans: &mut Vec<Span<'a>>,
    range: Range,
    line: usize,
    verdict: Option<u32>,
    behind: &'a [Stated<'a>],
) -> Result<(), AllocError>
    ensures parts { OnOk result (map part_of spans.new.items ≡ map part_of spans.old.items ++ part_in range line verdict behind.now) }
{
    if range.first <= range.last {
        spans.push(Span {
            first: range.first,
            last: range.last,
            line,
            verdict,
            behind,
        })?;
    }
    Ok(())
}

fn push_ranges<'a>(
    spans: &mut Vec<Span<'a>>,
    ranges: &[Range],
    line: usize,
    verdict: Option<u32>,
    behind: &'a [Stated<'a>],
) -> Result<(), AllocError>
    ensures parts { OnOk result (map part_of spans.new.items ≡ map part_of spans.old.items ++ parts_in ranges.now line verdict behind.now) }
{
    let mut left = ranges;
    while let Some((range, rest)) = left.split_first() {
        push_range(spans, *range, line, verdict, behind)?;
        left = rest;
    }
    Ok(())
}

fn push_row<'a>(
    spans: &mut Vec<Span<'a>>,
    row: &'a Stated<'a>,
    behind: &'a [Stated<'a>],
) -> Result<(), AllocError>
    ensures parts { OnOk result (map part_of spans.new.items ≡ map part_of spans.old.items ++ parts_at row.now.sentence row.now.line behind.now) }
{
    match &row.sentence {
        Sentence::Row(ranges, verdict) => push_ranges(spans, ranges, row.line, *verdict, behind),
        _ => Ok(()),
    }
}

// In the order of the text.
fn spans_of<'a>(alloc: Global, text: &'a [Stated<'a>]) -> Result<Vec<Span<'a>>, AllocError>
    ensures parts { IfOk result (λ spans. map part_of spans.items ≡ parts_of text.now) }
{
    let mut spans = Vec::new(alloc);
    let (_, mut left) = text.split_at(0);
    while let Some((first, rest)) = left.split_first() {
        push_row(&mut spans, first, rest)?;
        left = rest;
    }
    Ok(spans)
}

/// The ranges of a text's rows, in the order of their first numbers.
pub fn sorted_spans<'a>(alloc: Global, text: &'a [Stated<'a>]) -> Result<Vec<Span<'a>>, AllocError>
    ensures parts { IfOk result (λ spans. IsPermutation (parts_of text.now) (map part_of spans.items)) }
    ensures rise { IfOk result (λ spans. Rise (map part_of spans.items)) }
{
    let mut spans = spans_of(alloc, text)?;
    spans.sort_by_key(|span| span.first)?;
    Ok(spans)
}

/// How many cases a range has.
pub fn case_count(span: &Span<'_>) -> usize
    ensures count { result ≡ cases_of_part (part_of span.now) }
{
    match span.verdict {
        Some(_) => 0,
        None => cases_below(span.behind),
    }
}
