//! The analysis of filters that `ask` stands on: which conditions a verdict has, whether two chains answer the same, whether a
//! chain answers the same to calls that are the same one to Linux, and which filter answers as a chain does.
ghost use Rattle.std.specs.Prelude.{◌≡◌, ◌≤◌, ◌==◌, ◌+◌, ◌^◌, ℕ, Bool, false, IfOk, IfErr, string_bytes};
ghost use Rattle.std.specs.List.{All};
ghost use Rattle.sk_conditions.specs.Followed.{AreFollowed};
ghost use Rattle.sk_conditions.specs.Steps.{GoOneWay, NeverPart};
ghost use Rattle.sk_when.specs.Verdicts.{ShowsEach};
ghost use Rattle.sk_filter.specs.Chains.{IsWithinLimit, cost_of};
ghost use Rattle.sk_filter.specs.Valid.{IsValid};
ghost use Rattle.sk_policy_when.specs.Smaller.{AnswersAs, IsNoFilter};
ghost use Rattle.sk_show.specs.Lines.{AreLinesOf, end_told, first_told};
ghost use Rattle.sk_ask.specs.Steps.{MayBeSpent};
ghost use Rattle.sk_when.specs.Diffs.{IsComparison};
ghost use Rattle.sk_when.specs.Lints.{IsLint};
ghost use Rattle.sk_when.specs.Picture.{IsPicture};
ghost use Rattle.sk_when.specs.Telling.{AreTold};

use sk_filter::Chain;
use sk_insn::Insn;
use sk_names::Architecture;
use sk_policy_when::OneFilterFault;
use sk_show::{Line, Options};
use sk_when::{Budget, Budgets, Comparison, ConditionalRow, Linted, Relation};
use std::alloc::{AllocError, Global};

/// Analyses chains, as far as the steps reach that it is given.
/// Where all calls of each row go one way through each filter, `lines`, `rows`, `diff`, `lint` and `one_filter`
/// use the steps of no row up.
pub trait Analysis {
    // Whether it may use up so many steps.
    ghost may_spend: { Self → ℕ → Bool };

    /// Tells what the chain answers, with calls that show its verdicts where they are wanted.
    fn lines(
        &self,
        alloc: Global,
        options: Options,
        chain: &Chain,
        budgets: &mut Budgets,
    ) -> Result<Vec<Line>, AllocError>
        ensures lines { IfOk result (λ lines. AreLinesOf options chain.now lines.items) }
        ensures each { IfOk result (λ lines. All AreFollowed chain.now → budgets.new.is_spent ≡ false → All (ShowsEach chain.now) lines.items) }
        ensures spent { budgets.old.is_spent ≡ false → MayBeSpent (may_spend self.now) budgets.old.steps budgets.new.is_spent }
        ensures one_way { NeverPart (first_told options.call) (end_told options.call) chain.now → budgets.old.is_spent ≡ false → budgets.new.is_spent ≡ false };

    /// Tells under which conditions on a call each verdict of the chain comes.
    fn rows(
        &self,
        alloc: Global,
        architecture: Architecture,
        chain: &Chain,
        call: Option<u32>,
        budgets: &mut Budgets,
    ) -> Result<Vec<ConditionalRow>, AllocError>
        ensures told { IfOk result (λ rows. AreTold architecture call chain.now budgets.new.is_spent rows.items) }
        ensures spent { budgets.old.is_spent ≡ false → MayBeSpent (may_spend self.now) budgets.old.steps budgets.new.is_spent }
        ensures one_way { NeverPart (first_told call) (end_told call) chain.now → budgets.old.is_spent ≡ false → budgets.new.is_spent ≡ false };

    /// Draws the tree of the chain's verdicts on one call.
    fn dot(
        &self,
        alloc: Global,
        chain: &Chain,
        nr: u32,
        budget: &mut Budget,
    ) -> Result<String, AllocError>
        ensures picture { IfOk result (λ text. IsPicture chain.now nr budget.new.steps (string_bytes text)) }
        ensures spent { MayBeSpent (may_spend self.now) budget.old.steps (budget.new.steps == 0) }
        ensures one_way { All (GoOneWay nr nr) chain.now → budget.old.steps ≤ budget.new.steps + cost_of chain.now };

    /// Compares a new chain with an old one on every call.
    fn diff(
        &self,
        alloc: Global,
        architecture: Architecture,
        relation: Relation,
        old: &Chain,
        new: &Chain,
        budgets: &mut Budgets,
    ) -> Result<Comparison, AllocError>
        ensures compared { IfOk result (λ it. IsComparison architecture relation old.now new.now budgets.new.is_spent it.finding it.pieces.items) }
        ensures spent { budgets.old.is_spent ≡ false → MayBeSpent (may_spend self.now) budgets.old.steps budgets.new.is_spent }
        ensures one_way { NeverPart 0 (2 ^ 32) old.now → NeverPart 0 (2 ^ 32) new.now → budgets.old.is_spent ≡ false → budgets.new.is_spent ≡ false };

    /// Looks for calls of a chain that are the same one to Linux and get other verdicts.
    fn lint(
        &self,
        alloc: Global,
        chain: &Chain,
        budgets: &mut Budgets,
    ) -> Result<Linted, AllocError>
        requires limited { IsWithinLimit chain.now }
        ensures linted { IfOk result (λ it. IsLint chain.now budgets.new.is_spent it.finding it.pieces.items (string_bytes it.notes)) }
        ensures spent { budgets.old.is_spent ≡ false → MayBeSpent (may_spend self.now) budgets.old.steps budgets.new.is_spent }
        ensures one_way { NeverPart 0 (2 ^ 32) chain.now → budgets.old.is_spent ≡ false → budgets.new.is_spent ≡ false };

    /// Makes one filter that answers each call as the chain does.
    fn one_filter(
        &self,
        alloc: Global,
        chain: &Chain,
        budgets: &mut Budgets,
    ) -> Result<Vec<Insn>, OneFilterFault>
        requires limited { IsWithinLimit chain.now }
        ensures same { IfOk result (λ insns. AnswersAs chain.now insns.items) }
        ensures valid { IfOk result (λ insns. IsValid insns.items) }
        ensures fault { IfErr result (IsNoFilter chain.now budgets.new.is_spent) }
        ensures spent { budgets.old.is_spent ≡ false → MayBeSpent (may_spend self.now) budgets.old.steps budgets.new.is_spent }
        ensures one_way { NeverPart 0 (2 ^ 32) chain.now → budgets.old.is_spent ≡ false → budgets.new.is_spent ≡ false };
}

/// That by decision trees. How many steps it takes where calls part is not known.
#[derive(Clone, Copy, Debug)]
pub struct Trees;

impl Analysis for Trees {
    ghost use Rattle.std.specs.Prelude.{true};

    ghost may_spend = { λ _ _. true };

    fn lines(
        &self,
        alloc: Global,
        options: Options,
        chain: &Chain,
        budgets: &mut Budgets,
    ) -> Result<Vec<Line>, AllocError> {
        sk_when::lines_of(alloc, options, chain, budgets)
    }

    fn rows(
        &self,
        alloc: Global,
        architecture: Architecture,
        chain: &Chain,
        call: Option<u32>,
        budgets: &mut Budgets,
    ) -> Result<Vec<ConditionalRow>, AllocError> {
        sk_when::told_rows(alloc, architecture, chain, call, budgets)
    }

    fn dot(
        &self,
        alloc: Global,
        chain: &Chain,
        nr: u32,
        budget: &mut Budget,
    ) -> Result<String, AllocError> {
        sk_when::dot(alloc, chain, nr, budget)
    }

    fn diff(
        &self,
        alloc: Global,
        architecture: Architecture,
        relation: Relation,
        old: &Chain,
        new: &Chain,
        budgets: &mut Budgets,
    ) -> Result<Comparison, AllocError> {
        sk_when::diff(alloc, architecture, relation, old, new, budgets)
    }

    fn lint(
        &self,
        alloc: Global,
        chain: &Chain,
        budgets: &mut Budgets,
    ) -> Result<Linted, AllocError> {
        sk_when::lint(alloc, chain, budgets)
    }

    fn one_filter(
        &self,
        alloc: Global,
        chain: &Chain,
        budgets: &mut Budgets,
    ) -> Result<Vec<Insn>, OneFilterFault> {
        sk_policy_when::one_filter(alloc, chain, budgets)
    }
}
