//! Several files, one after the other.
ghost use Rattle.std.specs.Prelude.{◌≡◌, IfOk, length, map};
ghost use Rattle.sk_ask.specs.Filters.{filters_in};
ghost use Rattle.sk_ask.specs.Answers.{Finds, found_in};
ghost use Rattle.sk_ask.specs.Given.{AreGiven};

use crate::fault::Refused;
use crate::form::with_file;
use crate::found::{Found, nothing};
use std::alloc::{AllocError, Global};

/// The filters in files with these bytes, the oldest first, or the first file that can't be understood.
pub fn find(alloc: Global, files: &[Vec<u8>]) -> Result<Result<Found, Refused>, AllocError>
    ensures exact { IfOk result (λ found. Finds found (filters_in (map (λ file. file.items) files.now))) }
    ensures given { IfOk result (λ found. AreGiven (length files.now) (found_in found)) }
{
    let mut found = nothing(alloc);
    let mut number = 0;
    let mut rest = files;
    while let Some((file, left)) = rest.split_first() {
        found = match with_file(alloc, number, found, file.as_slice())? {
            Ok(more) => more,
            Err(refused) => return Ok(Err(refused)),
        };
        number += 1;
        rest = left;
    }
    Ok(Ok(found))
}
