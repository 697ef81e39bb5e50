//! A policy: what is said of the calls with some numbers, and of all others; and its filter.
ghost use Rattle.std.specs.Prelude.{◌≡◌, ◌<◌, ◌+◌, IfOk, IfErr, All};
ghost use Rattle.sk_filter.specs.Valid.{IsValid};
ghost use Rattle.sk_policy.specs.declared.fault.CodeFault.TheVariants.{TooLong};
ghost use Rattle.sk_policy.specs.Policies.{AreApart, AreWithin, RuleThere, MeansPolicy, AnswersOthers};
ghost use Rattle.sk_policy.specs.Sizes.{rules_most};

use crate::backward::{Backward, put_one};
use crate::cases::Case;
use crate::fault::CodeFault;
use crate::rules::put_rules;
use sk_insn::{Comparison, Insn};
use sk_profile::instructions::{answer, branch, load};
use sk_profile::numbers_of;
use std::alloc::Global;

/// What is said of the calls whose numbers lie in a range: the value of the first case that a call meets, and else another one.
#[derive(Drop)]
pub struct Rule {
    pub first: u32,
    pub last: u32,
    pub cases: Vec<Case>,
    pub otherwise: u32,
}

/// What is said of all calls, in values that a filter returns: an action of seccomp(2) with its data.
#[derive(Drop)]
pub struct Policy {
    /// The architecture of whose calls it tells, by its number of linux/audit.h.
    pub audit: u32,
    /// In the order of their numbers, no number in two of them.
    pub rules: Vec<Rule>,
    /// The value of calls whose numbers are in none of them.
    pub default: u32,
    /// The value of calls of other architectures.
    pub others: u32,
}

/// The filter of a policy. It asks for the architecture, then for the call's number, and last for what the rule of the number
/// asks; numbers side by side of which one value is said share its instruction.
pub fn policy_filter(alloc: Global, policy: &Policy) -> Result<Vec<Insn>, CodeFault>
    requires apart { AreApart policy.now.rules.items }
    requires within { AreWithin 0 0xffffffff policy.now.rules.items }
    requires there { All RuleThere policy.now.rules.items }
    ensures means { IfOk result (λ code. MeansPolicy code.items policy.now) }
    ensures others { IfOk result (λ code. AnswersOthers code.items policy.now) }
    ensures valid { IfOk result (λ code. IsValid code.items) }
    ensures long { IfErr result (λ fault. fault ≡ TooLong → 4096 < rules_most policy.now.rules.items + 5) }
{
    let mut code = Backward::new(alloc);
    let often = numbers_of(policy.audit).often;
    put_rules(&mut code, &policy.rules, policy.default, often, 0, u32::MAX)?;
    put_one(&mut code, load(0))?;
    put_one(&mut code, answer(policy.others))?;
    put_one(&mut code, branch(Comparison::Equal, policy.audit, 1, 0))?;
    put_one(&mut code, load(4))?;
    Ok(code.in_order())
}
