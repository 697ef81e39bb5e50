//! The profile that a file says.
ghost use Rattle.std.specs.Prelude.{IfOk};
ghost use Rattle.std.specs.Option.{option_map};
ghost use Rattle.sk_profile.specs.Views.{profile_of};
ghost use Rattle.sk_profile_json.specs.Partings.{IsSaidBy};

use crate::{Context, ReadFault, read};
use sk_profile::Profile;
use std::alloc::{AllocError, Global};

/// The profile that the bytes of a file say, where it is to hold; none where they say none. Whether a filter can be made of it is not asked.
pub fn profile_of_bytes(
    alloc: Global,
    context: &Context<'_>,
    bytes: &[u8],
) -> Result<Option<Profile>, AllocError>
    ensures said { IfOk result (λ said. IsSaidBy context.now bytes.now (option_map profile_of said)) }
{
    match str::from_utf8(bytes) {
        Ok(text) => profile_of_text(alloc, context, text),
        Err(_) => Ok(None),
    }
}

fn profile_of_text(
    alloc: Global,
    context: &Context<'_>,
    text: &str,
) -> Result<Option<Profile>, AllocError>
    ensures said { IfOk result (λ said. IsSaidBy context.now text.now (option_map profile_of said)) }
{
    match read(alloc, context, text) {
        Ok(profile) => Ok(Some(profile)),
        Err(ReadFault::Memory) => Err(AllocError),
        Err(_) => Ok(None),
    }
}
