//! The library for C: what `include/skern.h` declares, each function thin over the proved libraries. It keeps nothing
//! between calls, and hands out no memory.
#![tactic(auto)]

ghost use Rattle.std.specs.Prelude.{◌≡◌, ◌≢◌, ◌≤◌, ◌<◌, ◌+◌, ◌^◌, ◌++◌, ◌∷◌, [], drop, length, IfOk, IsOk};
ghost use Rattle.std.specs.List.{All};
ghost use Rattle.sk_insn.specs.Instructions.{image_instructions};
ghost use Rattle.sk_filter.specs.Valid.{IsValid};
ghost use Rattle.sk_conditions.specs.Followed.{AreFollowed};
ghost use Rattle.sk_conditions.specs.Steps.{NeverPart};
ghost use Rattle.libskern.specs.Comparing.{BothFollowed, Differ, NeitherParts, Stand};
ghost use Rattle.libskern.specs.Faults.{IsTold, differ, fine, no_memory, spent, told_of_calls, told_of_image, unfollowed};
ghost use Rattle.libskern.specs.Lints.{AnswersLint};
ghost use Rattle.libskern.specs.Policies.{AnswersPolicy};
ghost use Rattle.libskern.specs.Profiles.{AnswersProfile};
ghost use Rattle.libskern.specs.Shapes.{chain_in, chains_in, images_of, verdicts_of};
ghost use Rattle.libskern.specs.Texts.{text_of};

mod call;
mod check;
mod compare;
mod comparison;
mod fault;
mod filters;
mod lint;
mod policy;
mod profile;
mod reason;
mod verdict;
mod writing;

use crate::check::told_of_image;
use crate::comparison::told_of_chains;
pub use call::Call;
pub use compare::Difference;
pub use fault::Fault;
pub use filters::Image;
pub use profile::Setting;
use std::alloc::{AllocError, Global};

/// Whether one filter is valid by seccomp(2), or its first fault. `image` has its `struct sock_filter`s, 8 bytes each.
#[unsafe(no_mangle)]
pub extern "C" fn skern_check(alloc: Global, image: &[u8]) -> Fault
    ensures told { result.reason ≢ no_memory → result ≡ told_of_image (image_instructions image.now) }
    ensures valid { result.reason ≡ fine → IfOk (image_instructions image.now) IsValid }
    ensures memory { result.reason ≡ no_memory → IsOk (image_instructions image.now) }
{
    match told_of_image(alloc, image) {
        Ok(fault) => fault,
        Err(AllocError) => Fault::plain(reason::NO_MEMORY),
    }
}

/// What filters answer to calls by seccomp(2), the oldest filter first: `verdicts` gets for each call the value whose action has
/// precedence, with its data. Without a filter each call is allowed.
#[unsafe(no_mangle)]
pub extern "C" fn skern_verdict(
    alloc: Global,
    filters: &[Image<'_>],
    calls: &[Call],
    verdicts: &mut [u32],
) -> Fault
    ensures told { result.reason ≢ no_memory
        → result ≡ told_of_calls (length calls.now) (length verdicts.old) (chain_in 0 filters.now) }
    ensures verdicts { result.reason ≡ fine → IfOk (chain_in 0 filters.now) (λ chain.
        verdicts.new ≡ verdicts_of chain calls.now ++ drop (length calls.now) verdicts.old) }
    ensures kept { result.reason ≢ fine → verdicts.new ≡ verdicts.old }
{
    match verdict::written(alloc, filters, calls, verdicts) {
        Ok(fault) => fault,
        Err(AllocError) => Fault::plain(reason::NO_MEMORY),
    }
}

/// Whether new filters answer every call of x86-64 as old ones do, or with `stricter` as strictly: no action of an old
/// verdict takes precedence over that of the new one. Else `difference` gets a call to which they do not. Libseccomp's
/// filters are all followed.
#[unsafe(no_mangle)]
pub extern "C" fn skern_compare(
    alloc: Global,
    old: &[Image<'_>],
    new: &[Image<'_>],
    stricter: bool,
    difference: &mut Difference,
) -> Fault
    ensures told { result.reason ≢ no_memory → IsTold (chains_in old.now new.now) result }
    ensures stand { result.reason ≡ fine → IfOk (chains_in old.now new.now) (Stand stricter) }
    ensures differ { result.reason ≡ differ → IfOk (chains_in old.now new.now) (Differ stricter difference.new) }
    ensures followed { IfOk (chains_in old.now new.now) (λ chains. BothFollowed chains → result.reason ≢ unfollowed) }
    ensures same { result.reason ≢ no_memory → images_of old.now ≡ images_of new.now
        → IfOk (chains_in old.now new.now) (λ _. result.reason ≡ fine) }
    ensures spent { IfOk (chains_in old.now new.now) (λ chains. NeitherParts chains → result.reason ≢ spent) }
    ensures kept { result.reason ≢ differ → difference.new ≡ difference.old }
{
    match told_of_chains(alloc, old, new, stricter, difference) {
        Ok(fault) => fault,
        Err(AllocError) => Fault::plain(reason::NO_MEMORY),
    }
}

/// The filter of a container's profile, the JSON of docker, podman and their like, where it is to hold: it answers to every
/// call what the profile says, on all architectures that the profile lists for x86-64, which has x32 and i386 beside its own.
/// `size` gets how many bytes it takes, and `room` gets them where there is room. So it does with the text of what is wrong,
/// where there is no filter.
#[unsafe(no_mangle)]
pub extern "C" fn skern_profile(
    alloc: Global,
    profile: &[u8],
    setting: &Setting,
    room: &mut [u8],
    size: &mut usize,
) -> Fault
    ensures answered { result.reason ≢ no_memory → AnswersProfile setting.now profile.now room.old result size.new room.new }
    ensures memory { result.reason ≡ no_memory → (size.new ≡ size.old) × (room.new ≡ room.old) }
{
    match profile::written(alloc, profile, setting, room, size) {
        Ok(fault) => fault,
        Err(AllocError) => Fault::plain(reason::NO_MEMORY),
    }
}

/// The filter of a policy's text: it answers to every call what the text says. It is given as that of a profile is. What is
/// wrong is told with its line, from 1 on.
#[unsafe(no_mangle)]
pub extern "C" fn skern_policy(
    alloc: Global,
    text: &[u8],
    room: &mut [u8],
    size: &mut usize,
) -> Fault
    ensures answered { result.reason ≢ no_memory → AnswersPolicy text.now room.old result size.new room.new }
    ensures memory { result.reason ≡ no_memory → (size.new ≡ size.old) × (room.new ≡ room.old) }
{
    match policy::written(alloc, text, room, size) {
        Ok(fault) => fault,
        Err(AllocError) => Fault::plain(reason::NO_MEMORY),
    }
}

/// Whether filters, the oldest first, tell calls of x86-64 and x32 apart by bits of arguments that Linux does not read: a call
/// that gets a less strict verdict than the call that Linux takes it for. `size` gets how many bytes the lines of `ask lint`
/// take, and `room` gets them where there is room.
#[unsafe(no_mangle)]
pub extern "C" fn skern_lint(
    alloc: Global,
    filters: &[Image<'_>],
    room: &mut [u8],
    size: &mut usize,
) -> Fault
    ensures answered { result.reason ≢ no_memory
        → AnswersLint (chain_in 0 filters.now) room.old size.old result size.new room.new }
    ensures followed { IfOk (chain_in 0 filters.now) (λ chain. All AreFollowed chain → result.reason ≢ unfollowed) }
    ensures spent { IfOk (chain_in 0 filters.now) (λ chain. NeverPart 0 (2 ^ 32) chain → result.reason ≢ spent) }
    ensures memory { result.reason ≡ no_memory → (size.new ≡ size.old) × (room.new ≡ room.old) }
{
    match lint::written(alloc, filters, room, size) {
        Ok(fault) => fault,
        Err(AllocError) => Fault::plain(reason::NO_MEMORY),
    }
}

/// The text of a number, in ASCII with a zero byte at its end. Gives the bytes that this takes, and writes none of them
/// where there is less room.
#[unsafe(no_mangle)]
pub extern "C" fn skern_reason(reason: u32, text: &mut [u8]) -> usize
    ensures size { result ≡ length (text_of reason) + 1 }
    ensures written { result ≤ length text.old → text.new ≡ text_of reason ++ 0 ∷ drop result text.old }
    ensures kept { length text.old < result → text.new ≡ text.old }
{
    let given = reason::text_of(reason).as_bytes();
    let size = given.len() + 1;
    if size <= text.len() {
        text[given.len()] = 0;
        text[..given.len()].copy_from_slice(given);
    }
    size
}
