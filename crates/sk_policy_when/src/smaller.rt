//! One filter that answers as a chain of filters does.
ghost use Rattle.std.specs.Prelude.{◌≡◌, ◌^◌, false, IfErr, IfOk};
ghost use Rattle.sk_filter.specs.Chains.{IsWithinLimit};
ghost use Rattle.sk_filter.specs.Valid.{IsValid};
ghost use Rattle.sk_conditions.specs.Steps.{NeverPart};
ghost use Rattle.sk_policy_when.specs.Smaller.{AnswersAs, IsNoFilter};

use crate::others::others_verdict;
use crate::rules::rules_of;
use sk_filter::Chain;
use sk_insn::Insn;
use sk_names::Architecture;
use sk_policy::{CodeFault, Policy, policy_filter};
use sk_survey::Other;
use sk_survey::architecture_laws::other_verdict_is_of_each_call;
use sk_when::{Budgets, told_rows};
use std::alloc::{AllocError, Global};

/// The value of no call, since rows are told of each number: SECCOMP_RET_KILL_PROCESS.
const NO_CALLS: u32 = 0x8000_0000;

/// Why no filter is made of a chain.
#[derive(Clone, Copy, Debug, PartialEq, Eq)]
pub enum OneFilterFault {
    /// Which verdict calls of x86-64 get is not told: the filters are not followed so far.
    Untold,
    /// Calls of other architectures get several verdicts.
    SeveralOthers,
    /// Which verdict calls of other architectures get is not told: the filters load each word of a call.
    UnknownOthers,
    /// The filter may have more than 4096 instructions.
    TooLong,
    /// Memory was refused.
    Memory,
}

impl From<AllocError> for OneFilterFault {
    ghost use Rattle.std.specs.Prelude.{◌≡◌};
    ghost use Rattle.sk_policy_when.specs.declared.smaller.OneFilterFault.TheVariants.{Memory};

    ghost from_gives = { λ _ fault. fault ≡ Memory };

    fn from(_refused: AllocError) -> OneFilterFault {
        OneFilterFault::Memory
    }
}

impl From<CodeFault> for OneFilterFault {
    ghost use Rattle.std.specs.Prelude.{◌≡◌};
    ghost use Rattle.sk_policy_when.specs.OneFilterFaults.{fault_of};

    ghost from_gives = { λ fault made. made ≡ fault_of fault };

    fn from(fault: CodeFault) -> OneFilterFault {
        match fault {
            CodeFault::TooLong => OneFilterFault::TooLong,
            CodeFault::Memory => OneFilterFault::Memory,
        }
    }
}

/// One filter that answers each call as the chain does, made of the rows that `ask when` tells. Its length goes by these, so it may
/// have more instructions than the filters of the chain have together.
pub fn one_filter(
    alloc: Global,
    chain: &Chain,
    budgets: &mut Budgets,
) -> Result<Vec<Insn>, OneFilterFault>
    requires limited { IsWithinLimit chain.now }
    ensures same { IfOk result (λ insns. AnswersAs chain.now insns.items) }
    ensures valid { IfOk result (λ insns. IsValid insns.items) }
    ensures fault { IfErr result (IsNoFilter chain.now budgets.new.is_spent) }
    ensures one_way { NeverPart 0 (2 ^ 32) chain.now → budgets.old.is_spent ≡ false → budgets.new.is_spent ≡ false }
{
    // That its filters are valid is known of them alone, and what is told of other architectures by the law.
    let _filters = chain.programs();
    other_verdict_is_of_each_call();
    let rows = told_rows(alloc, Architecture::X86_64, chain, None, budgets)?;
    let others = match others_verdict(alloc, chain)? {
        Other::Verdict(value) => value,
        Other::Several => return Err(OneFilterFault::SeveralOthers),
        Other::Unknown => return Err(OneFilterFault::UnknownOthers),
    };
    let Some(rules) = rules_of(alloc, rows)? else {
        return Err(OneFilterFault::Untold);
    };
    let policy = Policy {
        audit: Architecture::X86_64.audit(),
        rules,
        default: NO_CALLS,
        others,
    };
    let insns = policy_filter(alloc, &policy)?;
    Ok(insns)
}
