//! From the bytes of a profile's file to the image of its filter.
ghost use Rattle.std.specs.Prelude.{◌≡◌, Ok, IfOk};
ghost use Rattle.json.specs.Value.{value_view};
ghost use Rattle.sk_profile.specs.Views.{profile_of};
ghost use Rattle.sk_profile_json.specs.Wholes.{AreGood, profile_in};
ghost use Rattle.sk_profile_json.specs.Inspected.{text_inside};
ghost use Rattle.sk_profile_json.specs.Made.{IsMade, IsMadeOfBytes, IsMadeOfText, IsMadeOf, IsMadeWithin, Builds};

use crate::answer::{Made, Refusal};
use crate::document::profile_of_document;
use crate::image::image_of;
use crate::inside::made_inside;
use crate::inspected::text_inside;
use crate::note::notes_of;
use crate::{Context, ReadFault, profile_in, value_of};
use json::{Scratch, Value};
use sk_profile::{Profile, ProfileFault, profile_filter};
use std::alloc::{AllocError, Global};

/// The image of the filter that means a profile, where it is to hold, or why it has none.
pub fn made(
    alloc: Global,
    context: &Context<'_>,
    bytes: &[u8],
) -> Result<Result<Made, Refusal>, AllocError>
    ensures made { IfOk result (IsMade context.now bytes.now) }
{
    match context.machine {
        None => Ok(Err(Refusal::NoMachine)),
        Some(_) => made_of_bytes(alloc, context, bytes),
    }
}

fn made_of_bytes(
    alloc: Global,
    context: &Context<'_>,
    bytes: &[u8],
) -> Result<Result<Made, Refusal>, AllocError>
    ensures made { IfOk result (IsMadeOfBytes context.now bytes.now) }
{
    match str::from_utf8(bytes) {
        Ok(text) => made_of_text(alloc, context, text),
        Err(_) => Ok(Err(Refusal::NotText)),
    }
}

fn made_of_text(
    alloc: Global,
    context: &Context<'_>,
    text: &str,
) -> Result<Result<Made, Refusal>, AllocError>
    ensures made { IfOk result (IsMadeOfText context.now text.now) }
{
    let mut scratch = Scratch::new(alloc);
    match value_of(alloc, text, &mut scratch) {
        Ok(document) => made_of_document(alloc, context, &document),
        Err(ReadFault::NotJson(slip)) => Ok(Err(Refusal::NotJson(slip))),
        Err(ReadFault::KeyTwice) => Ok(Err(Refusal::KeyTwice)),
        Err(ReadFault::Profile(_)) | Err(ReadFault::NoProfile(_)) => unreachable!(),
        Err(ReadFault::Memory) => Err(AllocError),
    }
}

fn made_of_document(
    alloc: Global,
    context: &Context<'_>,
    document: &Value<'_>,
) -> Result<Result<Made, Refusal>, AllocError>
    ensures made { IfOk result (IsMadeWithin context.now (text_inside (value_view document.now)) (value_view document.now)) }
{
    match text_inside(document) {
        None => made_of_value(alloc, context, profile_of_document(document)),
        Some(Ok(text)) => made_inside(alloc, context, text),
        Some(Err(why)) => Ok(Err(Refusal::NoProfile(why))),
    }
}

/// What a value is made into.
pub(crate) fn made_of_value(
    alloc: Global,
    context: &Context<'_>,
    value: &Value<'_>,
) -> Result<Result<Made, Refusal>, AllocError>
    ensures made { IfOk result (IsMadeOf context.now (value_view value.now)) }
{
    match profile_in(alloc, context, value) {
        Ok(profile) => made_of_profile(alloc, context, value, &profile),
        Err(ReadFault::Profile(fault)) => Ok(Err(Refusal::Wrong(fault))),
        Err(ReadFault::Memory) => Err(AllocError),
        Err(ReadFault::NotJson(_)) | Err(ReadFault::KeyTwice) | Err(ReadFault::NoProfile(_)) => {
            unreachable!()
        }
    }
}

fn made_of_profile(
    alloc: Global,
    context: &Context<'_>,
    value: &Value<'_>,
    profile: &Profile,
) -> Result<Result<Made, Refusal>, AllocError>
    requires said { profile_in context.now (value_view value.now) ≡ Ok (profile_of profile.now) }
    ensures made { IfOk result (IsMadeOf context.now (value_view value.now)) }
{
    match built(alloc, profile)? {
        Ok(image) => {
            let notes = notes_of(alloc, context, value)?;
            Ok(Ok(Made { image, notes }))
        }
        Err(refusal) => Ok(Err(refusal)),
    }
}

// The image of the filter of a profile whose rules are good.
fn built(alloc: Global, profile: &Profile) -> Result<Result<Vec<u8>, Refusal>, AllocError>
    requires good { AreGood (profile_of profile.now).parts }
    ensures builds { IfOk result (Builds (profile_of profile.now)) }
{
    match profile_filter(alloc, profile) {
        Ok(insns) => Ok(Ok(image_of(alloc, &insns)?)),
        Err(ProfileFault::Rule(_)) => unreachable!(),
        Err(ProfileFault::Clashes(it)) => Ok(Err(Refusal::Clashes(it))),
        Err(ProfileFault::TooLong) => Ok(Err(Refusal::TooLong)),
        Err(ProfileFault::Memory) => Err(AllocError),
    }
}
