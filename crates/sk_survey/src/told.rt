//! What is told of the architectures.
ghost use Rattle.std.specs.Prelude.{◌≡◌, IfOk};
ghost use Rattle.sk_filter.specs.Chains.{IsWithinLimit};
ghost use Rattle.sk_names.specs.X86_64.{named_from, names_end};
ghost use Rattle.sk_survey.specs.Told.{judges_calls, warns, AreMisjudged, IsTold};

use crate::Surveyor;
use crate::answered::{Answered, X32_BIT, answered_all};
use crate::numbered::{are_judged_alike, are_judged_by_name};
use crate::other::{Other, answered_other};
use crate::text::only_value;
use sk_filter::Chain;
use sk_names::{Architecture, numbers, x86_64};
use std::alloc::{AllocError, Global};

/// What is told of a chain.
#[derive(Debug, Drop)]
pub struct Told {
    /// What it answers to the calls of each architecture.
    pub all: Vec<Answered>,
    /// What it answers to those of every other architecture.
    pub other: Other,
    /// Whether it judges the calls of i386 by the numbers of x86-64, though one of them is another call there.
    pub i386: bool,
    /// The same of x32, whose numbers have a bit more.
    pub x32: bool,
}

impl Told {
    /// Whether there is something to warn of: calls of another architecture that x86-64 takes too are judged call by call,
    /// by the numbers of x86-64, and one of them so gets what is meant for another call.
    pub fn warns(&self) -> bool
        ensures warns { result ≡ warns self.now }
    {
        judges_calls(&self.all) && (self.i386 || self.x32)
    }
}

/// Whether the first of these architectures has no one verdict.
pub(crate) fn judges_calls(all: &[Answered]) -> bool
    ensures judges { result ≡ judges_calls all.now }
{
    match all.first() {
        Some(it) => only_value(&it.row.answers).is_none(),
        None => false,
    }
}

/// What is told of a chain.
pub fn arches(alloc: Global, chain: &Chain) -> Result<Told, AllocError>
    requires limited { IsWithinLimit chain.now }
    ensures told { IfOk result (IsTold chain.now) }
{
    let all = answered_all(alloc, chain)?;
    let numbers = x86_64::numbers(alloc)?;
    let named = numbers.as_slice();
    let mut survey = Surveyor::new(alloc)?;
    let other = answered_other(alloc, &mut survey, chain)?;
    let i386 = are_misjudged(alloc, &mut survey, chain, Architecture::I386, 0, named)?;
    let x32 = are_misjudged(alloc, &mut survey, chain, Architecture::X32, X32_BIT, named)?;
    Ok(Told {
        all,
        other,
        i386,
        x32,
    })
}

// Whether a chain judges the calls of another architecture by the numbers of x86-64, where these calls of x86-64 have a name, and
// one of them not as x86-64's call of its name.
fn are_misjudged(
    alloc: Global,
    survey: &mut Surveyor,
    chain: &Chain,
    architecture: Architecture,
    bits: u32,
    named: &[u32],
) -> Result<bool, AllocError>
    requires limited { IsWithinLimit chain.now }
    requires named { named.now ≡ named_from names_end 0 }
    ensures misjudged { IfOk result (AreMisjudged chain.now architecture bits) }
{
    if !are_judged_alike(alloc, survey, chain, architecture, bits, named)? {
        return Ok(false);
    }
    let own = numbers(alloc, architecture)?;
    Ok(!are_judged_by_name(alloc, survey, chain, architecture, &own)?)
}
