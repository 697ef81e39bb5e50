//! What a comparison of two chains tells, as a document.
ghost use Rattle.std.specs.Prelude.{◌≡◌, ◌++◌, flat_map, IfOk, OnOk};
ghost use Rattle.sk_document.specs.ComparisonDocument.{comparison_document, comparison_part, comparison_piece, comparison_pieces, comparison_tokens, kind_at, kind_word, relation_at, relation_word};

use crate::difference::{add_difference, add_differences_name, add_holds};
use crate::document::Document;
use crate::numbers::{add_architecture, add_numbers};
use sk_conditions::Numbers;
use sk_when::{Finding, Kind, Names, Part, Piece, Relation, kind_of};
use std::alloc::{AllocError, Global};

/// Each part of each piece, by its kind, below the word that was asked.
pub fn comparison_document(
    alloc: Global,
    word: &str,
    names: Names,
    relation: Relation,
    finding: Finding,
    pieces: &[Piece],
) -> Result<Vec<u8>, AllocError>
    ensures document { IfOk result (λ text. text.items ≡ comparison_document word.now names relation finding pieces.now) }
{
    let mut document = Document::new(alloc);
    add_comparison(&mut document, word, names, relation, finding, pieces)?;
    document.finished()
}

#[tactic(auto, unfolding(crate::specs::ComparisonDocument::comparison_tokens))]
fn add_comparison(
    to: &mut Document,
    word: &str,
    names: Names,
    relation: Relation,
    finding: Finding,
    pieces: &[Piece],
) -> Result<(), AllocError>
    ensures added { OnOk result (to.new ≡ to.old ++ comparison_tokens word.now names relation finding pieces.now) }
{
    to.begin_object()?;
    to.word_at(word)?;
    add_architecture(to, names.architecture)?;
    add_relation(to, relation)?;
    add_holds(to, finding)?;
    add_differences(to, relation, names, pieces)?;
    to.end_object()
}

#[tactic(auto, unfolding(crate::specs::ComparisonDocument::relation_at))]
fn add_relation(to: &mut Document, relation: Relation) -> Result<(), AllocError>
    ensures added { OnOk result (to.new ≡ to.old ++ relation_at relation) }
{
    to.string_at("relation", relation_word(relation))
}

fn relation_word(relation: Relation) -> &'static str
    ensures word { result.now ≡ relation_word relation }
{
    match relation {
        Relation::Same => "same",
        Relation::AsStrict => "as strict",
        Relation::Expected => "as expected",
    }
}

#[tactic(auto, unfolding(crate::specs::ComparisonDocument::comparison_pieces))]
fn add_differences(
    to: &mut Document,
    relation: Relation,
    names: Names,
    pieces: &[Piece],
) -> Result<(), AllocError>
    ensures added { OnOk result (to.new ≡ to.old ++ comparison_pieces relation names pieces.now) }
{
    add_differences_name(to)?;
    to.begin_array()?;
    add_pieces(to, relation, names, pieces)?;
    to.end_array()
}

fn add_pieces(
    to: &mut Document,
    relation: Relation,
    names: Names,
    pieces: &[Piece],
) -> Result<(), AllocError>
    ensures added { OnOk result (to.new ≡ to.old ++ flat_map (comparison_piece relation names) pieces.now) }
{
    for piece in pieces {
        add_piece(to, relation, names, piece)?;
    }
    Ok(())
}

#[tactic(auto, unfolding(crate::specs::ComparisonDocument::comparison_piece))]
fn add_piece(
    to: &mut Document,
    relation: Relation,
    names: Names,
    piece: &Piece,
) -> Result<(), AllocError>
    ensures added { OnOk result (to.new ≡ to.old ++ comparison_piece relation names piece.now) }
{
    add_parts(to, relation, names, piece.numbers, &piece.parts)
}

fn add_parts(
    to: &mut Document,
    relation: Relation,
    names: Names,
    numbers: Numbers,
    parts: &[Part],
) -> Result<(), AllocError>
    ensures added { OnOk result (to.new ≡ to.old ++ flat_map (comparison_part relation names numbers) parts.now) }
{
    for part in parts {
        add_part(to, relation, names, numbers, part)?;
    }
    Ok(())
}

#[tactic(auto, unfolding(crate::specs::ComparisonDocument::comparison_part))]
fn add_part(
    to: &mut Document,
    relation: Relation,
    names: Names,
    numbers: Numbers,
    part: &Part,
) -> Result<(), AllocError>
    ensures added { OnOk result (to.new ≡ to.old ++ comparison_part relation names numbers part.now) }
{
    to.begin_object()?;
    add_numbers(to, names.architecture, numbers.first, numbers.last)?;
    add_kind(to, kind_of(relation, part.outcome))?;
    add_difference(to, relation, names, numbers, part)?;
    to.end_object()
}

#[tactic(auto, unfolding(crate::specs::ComparisonDocument::kind_at))]
fn add_kind(to: &mut Document, kind: Kind) -> Result<(), AllocError>
    ensures added { OnOk result (to.new ≡ to.old ++ kind_at kind) }
{
    to.string_at("kind", kind_word(kind))
}

pub(crate) fn kind_word(kind: Kind) -> &'static str
    ensures word { result.now ≡ kind_word kind }
{
    match kind {
        Kind::Looser => "looser",
        Kind::Stricter => "stricter",
        Kind::Other => "other",
        Kind::Undecided => "undecided",
    }
}
