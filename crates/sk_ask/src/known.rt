//! Whether all that a page tells is known.
ghost use Rattle.std.specs.Prelude.{◌≡◌, is_some};
ghost use Rattle.std.specs.List.{list_all};
ghost use Rattle.sk_ask.specs.Pages.{are_decided, is_comparison_decided, is_decided, is_followed, is_row_followed};

use sk_terms::Line;
use sk_when::{Comparison, ConditionalRow, Linted, Outcome, Part, Piece};

/// Whether nothing that a page tells is left open.
pub fn is_followed(compared: &Option<Comparison>, rows: &[ConditionalRow], linted: &Linted) -> bool
    ensures followed { result ≡ is_followed compared.now rows.now linted.now }
{
    are_rows_followed(rows) && are_decided(&linted.pieces) && is_comparison_decided(compared)
}

fn are_rows_followed(rows: &[ConditionalRow]) -> bool
    ensures all { result ≡ list_all is_row_followed rows.now }
{
    rows.iter().all(|told| is_row_followed(told))
}

fn is_row_followed(told: &ConditionalRow) -> bool
    ensures followed { result ≡ is_row_followed told.now }
{
    told.otherwise.is_some() && have_verdicts(&told.lines)
}

fn have_verdicts(lines: &[Line]) -> bool
    ensures all { result ≡ list_all (λ line. is_some line.value) lines.now }
{
    lines.iter().all(|line| line.value.is_some())
}

fn is_comparison_decided(compared: &Option<Comparison>) -> bool
    ensures decided { result ≡ is_comparison_decided compared.now }
{
    match compared {
        Some(it) => are_decided(&it.pieces),
        None => true,
    }
}

fn are_decided(pieces: &[Piece]) -> bool
    ensures all { result ≡ are_decided pieces.now }
{
    pieces.iter().all(|piece| are_parts_decided(&piece.parts))
}

fn are_parts_decided(parts: &[Part]) -> bool
    ensures all { result ≡ list_all (λ part. is_decided part.outcome) parts.now }
{
    parts.iter().all(|part| is_decided(part.outcome))
}

fn is_decided(outcome: Outcome) -> bool
    ensures decided { result ≡ is_decided outcome }
{
    match outcome {
        Outcome::Undecided => false,
        Outcome::Apart(_, _) => true,
    }
}
