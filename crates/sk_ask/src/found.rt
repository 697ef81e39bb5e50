//! Filters that were found in files, one after the other.
ghost use Rattle.std.specs.Prelude.{◌≡◌, IfOk};
ghost use Rattle.sk_ask.specs.Filters.{with_filter, no_filters};
ghost use Rattle.sk_ask.specs.Finding.{filters_of};
ghost use Rattle.sk_ask.specs.Answers.{Finds};

use crate::fault::{FileFault, Refused};
use sk_engines::MOST_FILTERS;
use std::alloc::{AllocError, Global};

/// Where a filter stands: the number of its file from 0 on, and that of its line from 1 on, or none where the file is one
/// filter.
#[derive(Clone, Copy, Debug, PartialEq, Eq)]
pub struct Place {
    pub file: usize,
    pub line: Option<usize>,
}

/// The images of filters, the oldest first, and where each stands.
#[derive(Drop)]
pub struct Found {
    pub images: Vec<Vec<u8>>,
    pub places: Vec<Place>,
}

/// One filter more, of 32 at most.
pub fn with_filter(
    found: Found,
    place: Place,
    image: Vec<u8>,
) -> Result<Result<Found, Refused>, AllocError>
    ensures exact { IfOk result (λ more. Finds more (with_filter (filters_of found) place image.items)) }
{
    if found.images.len() >= MOST_FILTERS {
        return Ok(Err(Refused {
            file: place.file,
            why: FileFault::TooMany(place.line),
        }));
    }
    let Found {
        mut images,
        mut places,
    } = found;
    images.push(image)?;
    places.push(place)?;
    Ok(Ok(Found { images, places }))
}

/// Nothing is found yet.
pub fn nothing(alloc: Global) -> Found
    ensures nothing { filters_of result ≡ no_filters }
{
    Found {
        images: Vec::new(alloc),
        places: Vec::new(alloc),
    }
}
