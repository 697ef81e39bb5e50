//! Calls that are the same one to Linux, and get other verdicts.
ghost use Rattle.std.specs.Prelude.{◌≡◌, ◌≢◌, ◌^◌, [], IfOk, IsErr};
ghost use Rattle.std.specs.List.{All};
ghost use Rattle.sk_filter.specs.Chains.{IsWithinLimit};
ghost use Rattle.sk_conditions.specs.Followed.{AreFollowed};
ghost use Rattle.sk_conditions.specs.Steps.{NeverPart};
ghost use Rattle.libskern.specs.Faults.{no_memory, spent, unfollowed};
ghost use Rattle.libskern.specs.Lints.{AnswersLint, IsLinted, number_of};
ghost use Rattle.libskern.specs.Shapes.{chain_in};

use crate::filters::chain_of;
use crate::writing::say;
use crate::{Fault, Image, reason};
use sk_arguments::Naming;
use sk_filter::Chain;
use sk_insn::Record;
use sk_when::{Budgets, Finding, Remarks, lint, lint_text};
use std::alloc::{AllocError, Global};

/// How many rows of numbers may take all the steps of a row.
const MOST_ROWS: u32 = 4;

/// Says nothing of a call.
struct Nothing;

impl Remarks for Nothing {
    ghost use Rattle.std.specs.Prelude.{[]};

    ghost remark = { λ _ _. [] };

    fn push(&self, _text: &mut String, _call: &Record) -> Result<(), AllocError> {
        Ok(())
    }
}

/// Writes the lines of `ask lint` on these filters, or tells the fault of the first one that is refused.
pub(crate) fn written(
    alloc: Global,
    filters: &[Image<'_>],
    room: &mut [u8],
    size: &mut usize,
) -> Result<Fault, AllocError>
    ensures answered { IfOk result (λ fault. fault.reason ≢ no_memory
        × AnswersLint (chain_in 0 filters.now) room.old size.old fault size.new room.new) }
    ensures followed { IfOk result (λ fault. IfOk (chain_in 0 filters.now) (λ chain. All AreFollowed chain → fault.reason ≢ unfollowed)) }
    ensures spent { IfOk result (λ fault. IfOk (chain_in 0 filters.now) (λ chain. NeverPart 0 (2 ^ 32) chain → fault.reason ≢ spent)) }
    ensures memory { IsErr result → (size.new ≡ size.old) × (room.new ≡ room.old) }
{
    match chain_of(alloc, 0, filters)? {
        Ok(chain) => linted(alloc, &chain, room, size),
        Err(fault) => Ok(fault),
    }
}

fn linted(
    alloc: Global,
    chain: &Chain,
    room: &mut [u8],
    size: &mut usize,
) -> Result<Fault, AllocError>
    requires limited { IsWithinLimit chain.now }
    ensures linted { IfOk result (λ fault. fault.reason ≢ no_memory × IsLinted chain.now room.old fault size.new room.new) }
    ensures followed { IfOk result (λ fault. All AreFollowed chain.now → fault.reason ≢ unfollowed) }
    ensures spent { IfOk result (λ fault. NeverPart 0 (2 ^ 32) chain.now → fault.reason ≢ spent) }
    ensures memory { IsErr result → (size.new ≡ size.old) × (room.new ≡ room.old) }
{
    let mut budgets = Budgets::of_rows(MOST_ROWS);
    let it = lint(alloc, chain, &mut budgets)?;
    let text = lint_text(
        alloc,
        false,
        Naming::Constants,
        &Nothing,
        it.finding,
        &it.pieces,
    )?;
    let told = Fault::plain(number_of(budgets.is_spent, it.finding));
    Ok(say(told, &text, room, size))
}

fn number_of(is_spent: bool, finding: Finding) -> u32
    ensures number { result ≡ number_of is_spent finding }
{
    match finding {
        Finding::Holds => reason::FINE,
        Finding::Fails => reason::WIDE,
        Finding::Undecided if is_spent => reason::SPENT,
        Finding::Undecided => reason::UNFOLLOWED,
    }
}
