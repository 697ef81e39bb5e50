//! Of each number whether its calls get another verdict than the calls that Linux takes them for.
ghost use Rattle.std.specs.Prelude.{◌≡◌, ◌^◌, ◌<◌, ◌∷◌, ◌++◌, false, true, if◌then◌else◌, length, map, slice_index_or, IfOk, IfSome, IsTrue, OnOk, [], List, ◌↔◌};
ghost use Rattle.std.specs.List.{All, filter};
ghost use Rattle.sk_arguments.specs.Reading.{unread_places};
ghost use Rattle.sk_filter.specs.Chains.{IsWithinLimit};
ghost use Rattle.sk_survey.specs.Taken.{chain_taking, loaded_places};
ghost use Rattle.sk_survey.specs.Without.{chain_without};
ghost use Rattle.sk_conditions.specs.Followed.{AreFollowed};
ghost use Rattle.sk_conditions.specs.Steps.{BothGoOneWay, NeverPart};
ghost use Rattle.sk_conditions.specs.declared.standing.Relation.TheVariants.{Same};
ghost use Rattle.sk_when.specs.declared.lint_pieces.Kept.{Kept};
ghost use Rattle.sk_when.specs.Lint.{IsLinted, is_asked, number_of};
ghost use Rattle.sk_when.specs.LintPieces.{IsKept};
ghost use Rattle.sk_when.specs.Pieces.{AreDecided, Holds};

use crate::piece::Piece;
use crate::pieces::next_piece;
use sk_arguments::unread_places;
use sk_conditions::{Budgets, Comparing, Numbers, Relation};
use sk_filter::Chain;
use sk_survey::{chain_without, loaded_places};
use std::alloc::{AllocError, Global};

/// The chain without the words at some places.
#[derive(Drop)]
pub struct Kept {
    pub places: Vec<u32>,
    pub chain: Chain,
}

/// The pieces of those among some numbers of whose calls a filter loads a word that Linux does not read.
pub fn lint_pieces(
    alloc: Global,
    numbers: &[u32],
    chain: &Chain,
    budgets: &mut Budgets,
) -> Result<Vec<Piece>, AllocError>
    requires limited { IsWithinLimit chain.now }
    ensures numbers { IfOk result (λ pieces. map number_of pieces.items ≡ filter (is_asked chain.now) numbers.now) }
    ensures holds { IfOk result (λ pieces. All (IsLinted chain.now) pieces.items) }
    ensures decided { IfOk result (λ pieces. All AreFollowed chain.now → budgets.new.is_spent ≡ false → All AreDecided pieces.items) }
    ensures one_way { NeverPart 0 (2 ^ 32) chain.now → budgets.old.is_spent ≡ false → budgets.new.is_spent ≡ false }
{
    let mut kept = Vec::new(alloc);
    let mut pieces = Vec::new(alloc);
    for nr in numbers {
        push_number(alloc, &mut pieces, &mut kept, chain, *nr, budgets)?;
    }
    Ok(pieces)
}

// Adds the piece of a number, if a filter loads a word that Linux does not read of its calls.
fn push_number(
    alloc: Global,
    pieces: &mut Vec<Piece>,
    kept: &mut Vec<Kept>,
    chain: &Chain,
    nr: u32,
    budgets: &mut Budgets,
) -> Result<(), AllocError>
    requires limited { IsWithinLimit chain.now }
    requires kept { All (IsKept chain.now) kept.old.items }
    ensures kept { OnOk result (All (IsKept chain.now) kept.new.items) }
    ensures numbers { OnOk result (map number_of pieces.new.items
        ≡ (if is_asked chain.now nr then map number_of pieces.old.items ++ nr ∷ [] else map number_of pieces.old.items)) }
    ensures holds { OnOk result (All (IsLinted chain.now) pieces.old.items → All (IsLinted chain.now) pieces.new.items) }
    ensures decided { OnOk result (All AreFollowed chain.now → (budgets.old.is_spent ≡ false → All AreDecided pieces.old.items)
        → budgets.new.is_spent ≡ false → All AreDecided pieces.new.items) }
    ensures one_way { NeverPart 0 (2 ^ 32) chain.now → budgets.old.is_spent ≡ false → budgets.new.is_spent ≡ false }
{
    let places = asked_places(alloc, chain, nr)?;
    if are_none(&places) {
        return Ok(());
    }
    let at = kept_at(alloc, kept, chain, places)?;
    let piece = number_piece(alloc, &kept[at].chain, chain, nr, budgets)?;
    pieces.push(piece)?;
    Ok(())
}

// The words that Linux does not read of calls with a number, and that a filter loads.
fn asked_places(alloc: Global, chain: &Chain, nr: u32) -> Result<Vec<u32>, AllocError>
    ensures places { IfOk result (λ places. places.items ≡ loaded_places chain.now (unread_places nr)) }
{
    let unread = unread_places(alloc, nr)?;
    loaded_places(alloc, chain, &unread)
}

fn are_none(places: &[u32]) -> bool
    ensures none { IsTrue result ↔ (places.now ≡ []) }
{
    places.is_empty()
}

// Where the chain without the words at some places is kept. It is made where it is not kept yet.
fn kept_at(
    alloc: Global,
    kept: &mut Vec<Kept>,
    chain: &Chain,
    places: Vec<u32>,
) -> Result<usize, AllocError>
    requires limited { IsWithinLimit chain.now }
    requires kept { All (IsKept chain.now) kept.old.items }
    ensures kept { OnOk result (All (IsKept chain.now) kept.new.items) }
    ensures there { IfOk result (λ at. at < length kept.new.items) }
    ensures chain { IfOk result (λ at. (other : Kept) → (slice_index_or kept.new.items at other).chain ≡ chain_without places.items chain.now) }
{
    if let Some(at) = place_among(kept, &places) {
        return Ok(at);
    }
    let at = kept.len();
    let chain = chain_without(alloc, chain, &places)?;
    kept.push(Kept { places, chain })?;
    Ok(at)
}

// Where the chain without the words at these places stands.
fn place_among(kept: &[Kept], places: &[u32]) -> Option<usize>
    ensures there { IfSome result (λ at. at < length kept.now) }
    ensures places { IfSome result (λ at. (other : Kept) → (slice_index_or kept.now at other).places.items ≡ places.now) }
{
    for (at, one) in kept.iter().enumerate() {
        if *one.places == *places {
            return Some(at);
        }
    }
    None
}

// The piece of a number, by the chain that takes its calls as Linux does.
fn number_piece(
    alloc: Global,
    taking: &Chain,
    chain: &Chain,
    nr: u32,
    budgets: &mut Budgets,
) -> Result<Piece, AllocError>
    requires taking { taking.now ≡ chain_taking nr chain.now }
    ensures number { IfOk result (λ piece. piece.numbers.first ≡ nr) }
    ensures holds { IfOk result (IsLinted chain.now) }
    ensures decided { IfOk result (λ piece. All AreFollowed chain.now → budgets.new.is_spent ≡ false → AreDecided piece) }
    ensures spent { budgets.new.is_spent ≡ false → budgets.old.is_spent ≡ false }
    ensures one_way { NeverPart 0 (2 ^ 32) chain.now → budgets.old.is_spent ≡ false → budgets.new.is_spent ≡ false }
{
    let chains = Comparing {
        relation: Relation::Same,
        old: taking,
        new: chain,
        numbers: Numbers {
            first: nr,
            last: nr,
        },
    };
    let piece = next_piece(alloc, chains, false, budgets)?;
    Ok(piece)
}
