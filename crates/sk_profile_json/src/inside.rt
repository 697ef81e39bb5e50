//! The profile of which docker has the text.
ghost use Rattle.std.specs.Prelude.{IfOk, IfErr};
ghost use Rattle.sk_profile.specs.Views.{profile_of};
ghost use Rattle.sk_profile_json.specs.Made.{IsMadeInside};
ghost use Rattle.sk_profile_json.specs.Wholes.{IsFaultInside, SaysInside};

use crate::answer::{Made, Refusal};
use crate::making::made_of_value;
use crate::{Absence, Context, ReadFault, profile_in, value_of};
use json::Scratch;
use sk_profile::Profile;
use std::alloc::{AllocError, Global};

/// The profile that the text says, where it is to hold.
pub(crate) fn read_inside(
    alloc: Global,
    context: &Context<'_>,
    text: &str,
) -> Result<Profile, ReadFault>
    ensures says { IfOk result (λ profile. SaysInside context.now text.now (profile_of profile)) }
    ensures fault { IfErr result (IsFaultInside context.now text.now) }
{
    let mut scratch = Scratch::new(alloc);
    match value_of(alloc, text, &mut scratch) {
        Ok(profile) => profile_in(alloc, context, &profile),
        Err(ReadFault::NotJson(_)) => Err(ReadFault::NoProfile(Absence::NotJson)),
        Err(fault) => Err(fault),
    }
}

/// The image of the filter that means the profile, where it is to hold, or why it has none.
pub(crate) fn made_inside(
    alloc: Global,
    context: &Context<'_>,
    text: &str,
) -> Result<Result<Made, Refusal>, AllocError>
    ensures made { IfOk result (IsMadeInside context.now text.now) }
{
    let mut scratch = Scratch::new(alloc);
    match value_of(alloc, text, &mut scratch) {
        Ok(profile) => made_of_value(alloc, context, &profile),
        Err(ReadFault::NotJson(_)) => Ok(Err(Refusal::NoProfile(Absence::NotJson))),
        Err(ReadFault::KeyTwice) => Ok(Err(Refusal::KeyTwice)),
        Err(ReadFault::Profile(_)) | Err(ReadFault::NoProfile(_)) => unreachable!(),
        Err(ReadFault::Memory) => Err(AllocError),
    }
}
