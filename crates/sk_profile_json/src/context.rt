//! Where a profile is to hold, and whether an entry counts there.
ghost use Rattle.std.specs.Prelude.{◌≡◌, ◌==◌, ◌<◌, ◌||◌, length, map, IfSome};
ghost use Rattle.std.specs.List.{list_any, list_all, position_from};
ghost use Rattle.std.specs.Result.{result_map_both};
ghost use Rattle.std.specs.Option.{option_map};
ghost use Rattle.json.specs.Value.{value_view};
ghost use Rattle.sk_profile_json.specs.Contexts.{counts, where_in, where_of, kernel_in, kernel_of, kernel_at, is_version_byte, is_reached, is_held, reaches, leaves_out, takes_in, nowhere, is_arch, is_empty};
ghost use Rattle.sk_profile_json.specs.ContextViews.{where_view};

use crate::fault::{Field, Wrong};
use crate::fields::{given, is_the, text, texts, wrong_keys};
use crate::machine::Machine;
use json::Value;
use sk_text::number_up_to;

/// The version of a kernel.
#[derive(Clone, Copy, Debug, Drop, PartialEq, Eq)]
pub struct Kernel {
    pub major: u32,
    pub minor: u32,
}

/// Where a profile is to hold: the capabilities that are held, by name, the kernel, and whether runc attaches the filter; on which
/// machine, if that is one, and whether its own architecture is to stand alone, whatever others the profile lists.
#[derive(Clone, Copy, Debug, Drop)]
pub struct Context<'a> {
    pub capabilities: &'a [&'a str],
    pub kernel: Kernel,
    pub runc: bool,
    pub machine: Option<Machine>,
    pub native: bool,
}

/// What an entry includes, or excludes.
#[derive(Clone, Copy, Debug, Drop)]
pub(crate) struct Where<'v, 'a> {
    pub arches: &'v [Value<'a>],
    pub caps: &'v [Value<'a>],
    pub kernel: Option<Kernel>,
}

/// The fields that `includes` and `excludes` may have.
const FIELDS: [Field; 3] = [Field::Arches, Field::Caps, Field::MinKernel];

/// Whether an entry counts.
pub(crate) fn counts(context: &Context<'_>, entry: &Value<'_>) -> Result<bool, Wrong>
    ensures counts { result ≡ counts context.now (value_view entry.now) }
{
    let includes = where_in(entry, Field::Includes)?;
    let excludes = where_in(entry, Field::Excludes)?;
    Ok(takes_in(context, &includes) && !leaves_out(context, &excludes))
}

fn where_in<'v, 'a>(entry: &'v Value<'a>, field: Field) -> Result<Where<'v, 'a>, Wrong>
    ensures place { result_map_both where_view (λ e. e) result ≡ where_in field (value_view entry.now) }
{
    match given(entry, field) {
        None => Ok(nowhere()),
        Some(object) => match where_of(object) {
            Err(_) => Err(Wrong::NotTaken(field)),
            Ok(place) => Ok(place),
        },
    }
}

fn nowhere<'v, 'a>() -> Where<'v, 'a>
    ensures nowhere { where_view result ≡ nowhere }
{
    Where {
        arches: &[],
        caps: &[],
        kernel: None,
    }
}

fn where_of<'v, 'a>(object: &'v Value<'a>) -> Result<Where<'v, 'a>, Wrong>
    ensures place { result_map_both where_view (λ e. e) result ≡ where_of (value_view object.now) }
{
    if let Some(wrong) = wrong_keys(&FIELDS, object) {
        return Err(wrong);
    }
    let arches = texts(object, Field::Arches)?;
    let caps = texts(object, Field::Caps)?;
    let kernel = kernel_in(object)?;
    Ok(Where {
        arches,
        caps,
        kernel,
    })
}

fn kernel_in(object: &Value<'_>) -> Result<Option<Kernel>, Wrong>
    ensures kernel { result ≡ kernel_in (value_view object.now) }
{
    match text(object, Field::MinKernel)? {
        None => Ok(None),
        Some(text) => match kernel_of(text.as_bytes()) {
            None => Err(Wrong::NotTaken(Field::MinKernel)),
            Some(kernel) => Ok(Some(kernel)),
        },
    }
}

/// The version that a text is, as `4.8`.
pub fn kernel_of(text: &[u8]) -> Option<Kernel>
    ensures kernel { result ≡ kernel_of text.now }
{
    if !are_version_bytes(text) {
        return None;
    }
    match point(text) {
        None => None,
        Some(place) => kernel_at(text, place),
    }
}

fn are_version_bytes(text: &[u8]) -> bool
    ensures version { result ≡ list_all is_version_byte text.now }
{
    text.iter().all(|byte| is_version_byte(*byte))
}

fn is_version_byte(byte: u8) -> bool
    ensures version { result ≡ is_version_byte byte }
{
    byte == b'.' || (b'0' <= byte && byte <= b'9')
}

fn point(text: &[u8]) -> Option<usize>
    ensures point { result ≡ position_from (λ byte. byte == 46) 0 text.now }
    ensures within { IfSome result (λ place. place < length text.now) }
{
    for (place, byte) in text.iter().enumerate() {
        if *byte == b'.' {
            return Some(place);
        }
    }
    None
}

fn kernel_at(text: &[u8], place: usize) -> Option<Kernel>
    requires within { place < length text.now }
    ensures kernel { result ≡ kernel_at text.now (Some place) }
{
    let major = number_up_to(&text[..place], u64::from(u32::MAX))? as u32;
    let minor = number_up_to(&text[place + 1..], u64::from(u32::MAX))? as u32;
    Some(Kernel { major, minor })
}

fn is_reached(now: Kernel, least: Kernel) -> bool
    ensures reached { result ≡ is_reached now least }
{
    least.major < now.major || (least.major == now.major && least.minor <= now.minor)
}

fn reaches(otherwise: bool, now: Kernel, least: Option<Kernel>) -> bool
    ensures reaches { result ≡ reaches otherwise now least }
{
    match least {
        None => otherwise,
        Some(least) => is_reached(now, least),
    }
}

fn is_held(context: &Context<'_>, value: &Value<'_>) -> bool
    ensures held { result ≡ is_held context.now (value_view value.now) }
{
    context.capabilities.iter().any(|name| is_the(*name, value))
}

#[tactic(auto, using(crate::proofs::Reading::any_of_map))]
fn holds_any(context: &Context<'_>, caps: &[Value<'_>]) -> bool
    ensures any { result ≡ list_any (is_held context.now) (map value_view caps.now) }
{
    any_is_held(context, caps)
}

fn any_is_held(context: &Context<'_>, caps: &[Value<'_>]) -> bool
    ensures any { result ≡ list_any (λ v. is_held context.now (value_view v)) caps.now }
{
    caps.iter().any(|value| is_held(context, value))
}

#[tactic(auto, using(crate::proofs::Reading::all_of_map))]
fn holds_all(context: &Context<'_>, caps: &[Value<'_>]) -> bool
    ensures all { result ≡ list_all (is_held context.now) (map value_view caps.now) }
{
    all_are_held(context, caps)
}

fn all_are_held(context: &Context<'_>, caps: &[Value<'_>]) -> bool
    ensures all { result ≡ list_all (λ v. is_held context.now (value_view v)) caps.now }
{
    caps.iter().all(|value| is_held(context, value))
}

fn leaves_out(context: &Context<'_>, place: &Where<'_, '_>) -> bool
    ensures leaves_out { result ≡ leaves_out context.now (where_view place.now) }
{
    has_arch(context, place.arches)
        || holds_any(context, place.caps)
        || reaches(false, context.kernel, place.kernel)
}

fn takes_in(context: &Context<'_>, place: &Where<'_, '_>) -> bool
    ensures takes_in { result ≡ takes_in context.now (where_view place.now) }
{
    is_for_arch(context, place.arches)
        && holds_all(context, place.caps)
        && reaches(true, context.kernel, place.kernel)
}

fn is_for_arch(context: &Context<'_>, arches: &[Value<'_>]) -> bool
    ensures arch { result ≡ is_empty (map value_view arches.now) || list_any (is_arch context.now) (map value_view arches.now) }
{
    arches.is_empty() || has_arch(context, arches)
}

#[tactic(auto, using(crate::proofs::Reading::any_of_map))]
fn has_arch(context: &Context<'_>, arches: &[Value<'_>]) -> bool
    ensures any { result ≡ list_any (is_arch context.now) (map value_view arches.now) }
{
    any_is_arch(context, arches)
}

fn any_is_arch(context: &Context<'_>, arches: &[Value<'_>]) -> bool
    ensures any { result ≡ list_any (λ v. is_arch context.now (value_view v)) arches.now }
{
    arches.iter().any(|value| is_arch(context, value))
}

// Whether a value is the name of the machine.
fn is_arch(context: &Context<'_>, value: &Value<'_>) -> bool
    ensures arch { result ≡ is_arch context.now (value_view value.now) }
{
    match context.machine {
        None => false,
        Some(machine) => is_the(machine.arch(), value),
    }
}
