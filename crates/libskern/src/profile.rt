//! The filter of a container's profile.
ghost use Rattle.std.specs.Prelude.{◌≡◌, ◌≢◌, ◌++◌, IfOk, IsErr};
ghost use Rattle.sk_profile_json.specs.Capabilities.{all_names, names_of};
ghost use Rattle.libskern.specs.Faults.{no_memory};
ghost use Rattle.libskern.specs.Profiles.{AnswersProfile, IsMadeThere, held_names, refusal_number};

use crate::Fault;
use crate::writing::{give, say};
use sk_profile_json::{Context, Kernel, Machine, Refusal, capability, made, refusal_text};
use std::alloc::{AllocError, Global};

/// Where a profile is to hold.
#[repr(C)]
#[derive(Clone, Copy, Debug)]
pub struct Setting {
    /// The capabilities that are held: bit n for the one with the number n of linux/capability.h.
    pub capabilities: u64,
    pub kernel_major: u32,
    pub kernel_minor: u32,
    /// Whether runc attaches the filter.
    pub runc: bool,
}

/// Writes the image of the filter that means a profile, where it is to hold, or why it has none.
pub(crate) fn written(
    alloc: Global,
    profile: &[u8],
    setting: &Setting,
    room: &mut [u8],
    size: &mut usize,
) -> Result<Fault, AllocError>
    ensures answered { IfOk result (λ fault. fault.reason ≢ no_memory × AnswersProfile setting.now profile.now room.old fault size.new room.new) }
    ensures memory { IsErr result → (size.new ≡ size.old) × (room.new ≡ room.old) }
{
    match image_of(alloc, profile, setting)? {
        Ok(image) => Ok(give(&image, room, size)),
        Err(refusal) => {
            let what = refusal_text(alloc, refusal)?;
            Ok(say(Fault::plain(number_of(refusal)), &what, room, size))
        }
    }
}

// The image of the filter that means a profile, where it is to hold, or why it has none.
fn image_of(
    alloc: Global,
    profile: &[u8],
    setting: &Setting,
) -> Result<Result<Vec<u8>, Refusal>, AllocError>
    ensures made { IfOk result (IsMadeThere setting.now profile.now) }
{
    let names = held(alloc, setting.capabilities)?;
    let context = Context {
        capabilities: &names,
        kernel: Kernel {
            major: setting.kernel_major,
            minor: setting.kernel_minor,
        },
        runc: setting.runc,
        machine: Some(Machine::X86_64),
        native: false,
    };
    match made(alloc, &context, profile)? {
        Ok(made) => Ok(Ok(made.image)),
        Err(refusal) => Ok(Err(refusal)),
    }
}

// The names of the capabilities with these bits.
fn held(alloc: Global, bits: u64) -> Result<Vec<&'static str>, AllocError>
    ensures names { IfOk result (λ names. names_of names.items ≡ held_names bits all_names) }
{
    with_held(Vec::new(alloc), bits, all())
}

#[tactic(auto, unfolding(sk_profile_json::specs::Capabilities::capability))]
fn all() -> &'static [&'static str]
    ensures all { names_of result.now ≡ all_names }
{
    match capability(b"all") {
        Some(names) => names,
        None => unreachable!(),
    }
}

// Those of some names whose bits are set, behind others.
fn with_held<'a>(
    names: Vec<&'a str>,
    bits: u64,
    all: &[&'a str],
) -> Result<Vec<&'a str>, AllocError>
    ensures held { IfOk result (λ more. names_of more.items ≡ names_of names.entry.items ++ held_names bits (names_of all.now)) }
{
    let Some((name, others)) = all.split_first() else {
        return Ok(names);
    };
    let mut names = names;
    if bits % 2 == 1 {
        names.push(*name)?;
    }
    with_held(names, bits / 2, others)
}

// The number that tells why a profile has no filter.
fn number_of(refusal: Refusal) -> u32
    ensures number { result ≡ refusal_number refusal }
{
    match refusal {
        Refusal::TooLong => 2,
        Refusal::NotText => 17,
        Refusal::NotJson(_) => 18,
        Refusal::KeyTwice => 19,
        Refusal::NoMachine | Refusal::NoProfile(_) | Refusal::Wrong(_) => 20,
        Refusal::Clashes(_) => 21,
    }
}
