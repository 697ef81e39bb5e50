//! The chain of filters that were found.
ghost use Rattle.std.specs.Prelude.{◌≡◌, ◌<◌, ℕ, IfOk, length};
ghost use Rattle.sk_ask.specs.Filters.{chain_of, place_at};
ghost use Rattle.sk_ask.specs.Finding.{filters_of};
ghost use Rattle.sk_ask.specs.Given.{ArePlaced, IsGiven};

use crate::fault::{FileFault, Refused};
use crate::found::{Found, Place};
use sk_engines::attach_images;
use sk_filter::Chain;
use std::alloc::{AllocError, Global};

/// The chain of the filters that were found, or the file of the first that is refused, and why.
pub fn attach(alloc: Global, found: &Found) -> Result<Result<Chain, Refused>, AllocError>
    requires paired { length (filters_of found.now).places ≡ length (filters_of found.now).images }
    ensures exact { IfOk result (λ chain. chain ≡ chain_of (filters_of found.now)) }
    ensures given { (count : ℕ) → ArePlaced count (filters_of found.now) → IfOk result (IsGiven count) }
{
    match attach_images(alloc, &found.images)? {
        Ok(filters) => Ok(Ok(Chain::over(filters))),
        Err((number, why)) => {
            let place = place_at(&found.places, number);
            Ok(Err(Refused {
                file: place.file,
                why: FileFault::Filter(place.line, why),
            }))
        }
    }
}

fn place_at(places: &[Place], number: usize) -> Place
    requires placed { number < length places.now }
    ensures place { result ≡ place_at places.now number }
{
    places[number]
}
