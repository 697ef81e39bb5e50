//! Calls with some numbers, and the chain's verdicts on them.
ghost use Rattle.std.specs.Prelude.{◌≡◌, ◌+◌, ◌≤◌, ◌<◌, ◌++◌, IfOk, OnOk, map};
ghost use Rattle.std.specs.List.{All};
ghost use Rattle.sk_filter.specs.Chains.{cost_of};
ghost use Rattle.sk_conditions.specs.Followed.{AreFollowed};
ghost use Rattle.sk_conditions.specs.Steps.{GoOneWay};
ghost use Rattle.sk_when.specs.Verdicts.{IsJudged, BeginsPlain, HaveEachVerdict, judged_of};

use sk_conditions::{Budget, Comparing, Numbers, Relation, Tree, differ};
use sk_filter::Chain;
use sk_insn::Record;
use std::alloc::{AllocError, Global};

/// A call, and the chain's verdict on it.
#[derive(Clone, Copy, Debug, PartialEq, Eq)]
pub struct Judged {
    pub call: Record,
    pub verdict: u32,
}

/// Calls of some numbers.
#[derive(Drop)]
pub struct Calls {
    pub judged: Vec<Judged>,
    /// Whether other verdicts may come, where no steps were wanting.
    pub open: bool,
}

/// Calls with the numbers: the first of these with no other word that is not 0, and then one that comes to each end of the tree
/// of the chain's verdicts, beside no filter at all.
pub fn judged_calls(
    alloc: Global,
    chain: &Chain,
    numbers: Numbers,
    budget: &mut Budget,
) -> Result<Calls, AllocError>
    requires range { numbers.first ≤ numbers.last }
    ensures judged { IfOk result (λ calls. All (IsJudged chain.now numbers.first numbers.last) calls.judged.items) }
    ensures plain { IfOk result (λ calls. BeginsPlain numbers.first calls.judged.items) }
    ensures each { IfOk result (λ calls. All AreFollowed chain.now → 0 < budget.new.steps
        → HaveEachVerdict chain.now numbers.first numbers.last calls.judged.items) }
    ensures one_way { All (GoOneWay numbers.first numbers.last) chain.now → budget.old.steps ≤ budget.new.steps + (cost_of chain.now + 1) }
{
    let nothing = Chain::empty(alloc);
    let comparing = Comparing {
        relation: Relation::Same,
        old: chain,
        new: &nothing,
        numbers,
    };
    let differences = differ(alloc, comparing, budget)?;
    let mut judged = Vec::new(alloc);
    judged.push(judge(chain, Record::native(numbers.first, 0, [0; 6])))?;
    judge_all(chain, &differences.calls, &mut judged)?;
    let open = budget.steps > 0 && is_open(&differences.tree);
    Ok(Calls { judged, open })
}

// Whether a verdict is not told at some end.
fn is_open(tree: &Tree) -> bool {
    match tree {
        Tree::Is(_) => false,
        Tree::Untold => true,
        Tree::Ask(_, held, failed) => is_open(held) || is_open(failed),
    }
}

fn judge_all(chain: &Chain, calls: &[Record], judged: &mut Vec<Judged>) -> Result<(), AllocError>
    ensures judged { OnOk result (judged.new.items ≡ judged.old.items ++ map (judged_of chain.now) calls.now) }
{
    for call in calls {
        judged.push(judge(chain, *call))?;
    }
    Ok(())
}

fn judge(chain: &Chain, call: Record) -> Judged
    ensures judged { result ≡ judged_of chain.now call }
{
    Judged {
        call,
        verdict: chain.verdict(&call),
    }
}
