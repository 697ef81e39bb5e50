//! The filter that means a profile.
ghost use Rattle.std.specs.Prelude.{ℕ, ◌≡◌, ◌≢◌, ◌<◌, ◌^◌, List, All, IsTrue, IfOk, IfErr, OnOk};
ghost use Rattle.sk_filter.specs.Valid.{IsValid};
ghost use Rattle.sk_insn.specs.declared.record.Record.{Record};
ghost use Rattle.sk_insn.specs.Actions.{allow};
ghost use Rattle.sk_insn.specs.Record.{architecture};
ghost use Rattle.sk_filter.specs.Meaning.{meaning_of};
ghost use Rattle.sk_filter.specs.Walk.{walks};
ghost use Rattle.sk_profile.specs.Code.{Section, filter_code};
ghost use Rattle.sk_profile.specs.Means.{IsCall, Gives};
ghost use Rattle.sk_profile.specs.Sayings.{AlwaysSays};
ghost use Rattle.sk_profile.specs.Clashes.{IsClear, IsClearPart};
ghost use Rattle.sk_profile.specs.declared.fault.ProfileFault.TheVariants.{TooLong};
ghost use Rattle.sk_profile.specs.Faults.{IsFaultIn, IsFaultOf};
ghost use Rattle.sk_profile.specs.Rows.{AreAllGood, AreGood, HasLongSections, IsLongPart, PutsSectionOf, PutsSections};
ghost use Rattle.sk_profile.specs.Profiles.{said_by, saying_for};
ghost use Rattle.sk_profile.specs.Views.{part_of, profile_of};

use crate::fault::ProfileFault;
use crate::instructions::{answer, load};
use crate::judge::wrong_rule;
use crate::profile::{Part, Profile};
use crate::rows::{Rows, rows_of};
use crate::section::push_section;
use sk_insn::{Insn, MOST_INSNS};
use std::alloc::Global;

/// The filter that answers to every call what the profile says.
pub fn profile_filter(alloc: Global, profile: &Profile) -> Result<Vec<Insn>, ProfileFault>
    ensures means { IfOk result (λ code. (call : Record) → IsCall call → Gives (said_by (profile_of profile.now) call) (meaning_of code.items call)) }
    ensures guard { IfOk result (λ code. (sections : List Section) × (code.items ≡ filter_code profile.now.bad sections)) }
    ensures valid { IfOk result (λ code. IsValid code.items) }
    ensures known { IfOk result (λ code. (nr : ℕ) → nr < 2 ^ 32 → AlwaysSays allow (saying_for (profile_of profile.now) architecture nr) → IsTrue (walks code.items nr)) }
    ensures clear { IfOk result (λ _. IsClear (profile_of profile.now)) }
    ensures long { IfErr result (λ fault. fault ≡ TooLong → HasLongSections (profile_of profile.now)) }
    ensures fault { IfErr result (IsFaultOf (profile_of profile.now)) }
{
    if let Some(place) = wrong_rule(profile) {
        return Err(ProfileFault::Rule(place));
    }
    let mut code = Vec::new(alloc);
    code.push(load(4))?;
    push_parts(alloc, &mut code, profile)?;
    code.push(answer(profile.bad))?;
    if code.len() > MOST_INSNS {
        return Err(ProfileFault::TooLong);
    }
    Ok(code)
}

// The sections of all parts.
fn push_parts(alloc: Global, code: &mut Vec<Insn>, profile: &Profile) -> Result<(), ProfileFault>
    requires good { AreAllGood profile.now }
    ensures sections { OnOk result (PutsSections (profile_of profile.now) code.old.items code.new.items) }
    ensures clear { OnOk result (All (IsClearPart profile.now.default profile.now.bad) (profile_of profile.now).parts) }
    ensures long { IfErr result (λ fault. fault ≡ TooLong → HasLongSections (profile_of profile.now)) }
    ensures fault { IfErr result (IsFaultOf (profile_of profile.now)) }
{
    let mut left: &[Part] = &profile.parts;
    while let Some((part, rest)) = left.split_first() {
        push_part(alloc, code, profile.default, profile.bad, part)?;
        left = rest;
    }
    Ok(())
}

// The section of a part.
fn push_part(
    alloc: Global,
    code: &mut Vec<Insn>,
    default: u32,
    bad: u32,
    part: &Part,
) -> Result<(), ProfileFault>
    requires good { AreGood part.now }
    ensures section { OnOk result (PutsSectionOf default bad (part_of part.now) code.old.items code.new.items) }
    ensures clear { OnOk result (IsClearPart default bad (part_of part.now)) }
    ensures long { IfErr result (λ fault. fault ≡ TooLong → IsLongPart default bad (part_of part.now)) }
    ensures fault { IfErr result (λ fault. fault ≢ TooLong → IsFaultIn default bad (part_of part.now) fault) }
{
    let Rows { before, rows } = rows_of(alloc, default, bad, part)?;
    Ok(push_section(alloc, code, part.audit, &before, &rows)?)
}
