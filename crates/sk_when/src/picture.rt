//! The tree of one call as a picture: text for Graphviz.
ghost use Rattle.std.specs.Prelude.{◌≡◌, ◌+◌, ◌≤◌, ◌++◌, IfOk, None, OnOk, string_bytes, codes};
ghost use Rattle.std.specs.List.{All};
ghost use Rattle.sk_insn.specs.Actions.{action_of};
ghost use Rattle.sk_filter.specs.Chains.{cost_of};
ghost use Rattle.sk_conditions.specs.Steps.{GoOneWay};
ghost use Rattle.sk_terms.specs.Text.{term_text};
ghost use Rattle.sk_filter.specs.VerdictText.{verdict_text};
ghost use Rattle.sk_when.specs.Picture.{colour_of, next_node, node_after, fill_text, leaf_text, inner_text, edge_text, nodes_text, dot_text, IsPicture};

use sk_conditions::{Budget, Numbers, chain_tree};
use sk_filter::{Chain, push_verdict};
use sk_insn::Action;
use sk_terms::{Decision, Term, decide, push_term};
use std::alloc::{AllocError, Global};
use std::fmt::Write;

/// The tree of terms that decides the calls with a number, as text for Graphviz. Where these go one way through each filter, it
/// takes no more steps than the chain counts against the path limit.
pub fn dot(alloc: Global, chain: &Chain, nr: u32, budget: &mut Budget) -> Result<String, AllocError>
    ensures picture { IfOk result (λ text. IsPicture chain.now nr budget.new.steps (string_bytes text)) }
    ensures one_way { All (GoOneWay nr nr) chain.now → budget.old.steps ≤ budget.new.steps + cost_of chain.now }
{
    let numbers = Numbers {
        first: nr,
        last: nr,
    };
    let tree = chain_tree(alloc, chain, numbers, budget)?;
    let decision = decide(alloc, &tree)?;
    dot_text(alloc, &decision)
}

fn dot_text(alloc: Global, decision: &Decision) -> Result<String, AllocError>
    ensures text { IfOk result (λ text. string_bytes text ≡ dot_text decision.now) }
{
    let mut text = String::new(alloc);
    text.push_str("digraph {\n")?;
    let _after = push_nodes(&mut text, 0, decision)?;
    text.push_str("}\n")?;
    Ok(text)
}

// The lines of a tree whose first node has this number; answers the number behind its nodes.
fn push_nodes(text: &mut String, node: u64, decision: &Decision) -> Result<u64, AllocError>
    ensures text { IfOk result (λ after. string_bytes text.new ≡ string_bytes text.old ++ nodes_text node decision.now) }
    ensures after { IfOk result (λ after. after ≡ node_after node decision.now) }
{
    match decision {
        Decision::Is(value) => {
            push_verdict_leaf(text, node, *value)?;
            Ok(node.saturating_add(1))
        }
        Decision::Untold => {
            push_untold_leaf(text, node)?;
            Ok(node.saturating_add(1))
        }
        Decision::Ask(term, held, failed) => {
            push_inner(text, node, *term)?;
            let yes = node.saturating_add(1);
            push_edge(text, node, yes, "yes")?;
            let no = push_nodes(text, yes, held)?;
            push_edge(text, node, no, "no")?;
            push_nodes(text, no, failed)
        }
    }
}

#[tactic(auto, unfolding(crate::specs::Picture::leaf_text))]
fn push_verdict_leaf(text: &mut String, node: u64, value: u32) -> Result<(), AllocError>
    ensures text { OnOk result (string_bytes text.new ≡ string_bytes text.old ++ leaf_text node (verdict_text value) (colour_of (action_of value))) }
{
    write!(text, "  n{node} [label=\"")?;
    push_verdict(text, value)?;
    push_fill(text, colour_of(Action::of(value)))
}

fn push_untold_leaf(text: &mut String, node: u64) -> Result<(), AllocError>
    ensures text { OnOk result (string_bytes text.new ≡ string_bytes text.old ++ leaf_text node (codes "not followed") (codes "white")) }
{
    push_leaf(text, node, "not followed", "white")
}

#[tactic(auto, unfolding(crate::specs::Picture::leaf_text))]
fn push_leaf(text: &mut String, node: u64, label: &str, colour: &str) -> Result<(), AllocError>
    ensures text { OnOk result (string_bytes text.new ≡ string_bytes text.old ++ leaf_text node label.now colour.now) }
{
    write!(text, "  n{node} [label=\"")?;
    text.push_str(label)?;
    push_fill(text, colour)
}

#[tactic(auto, unfolding(crate::specs::Picture::fill_text))]
fn push_fill(text: &mut String, colour: &str) -> Result<(), AllocError>
    ensures text { OnOk result (string_bytes text.new ≡ string_bytes text.old ++ fill_text colour.now) }
{
    push_three(text, "\", style=filled, fillcolor=", colour, "];\n")
}

fn push_three(text: &mut String, first: &str, second: &str, third: &str) -> Result<(), AllocError>
    ensures text { OnOk result (string_bytes text.new ≡ string_bytes text.old ++ (first.now ++ (second.now ++ third.now))) }
{
    text.push_str(first)?;
    text.push_str(second)?;
    text.push_str(third)
}

#[tactic(auto, unfolding(crate::specs::Picture::inner_text))]
fn push_inner(text: &mut String, node: u64, term: Term) -> Result<(), AllocError>
    ensures text { OnOk result (string_bytes text.new ≡ string_bytes text.old ++ inner_text node (term_text None term)) }
{
    write!(text, "  n{node} [label=\"")?;
    push_term(text, None, term)?;
    text.push_str("\"];\n")
}

#[tactic(auto, unfolding(crate::specs::Picture::edge_text))]
fn push_edge(text: &mut String, from: u64, to: u64, answer: &str) -> Result<(), AllocError>
    ensures text { OnOk result (string_bytes text.new ≡ string_bytes text.old ++ edge_text from to answer.now) }
{
    write!(text, "  n{from} -> n{to} [label=")?;
    text.push_str(answer)?;
    text.push_str("];\n")
}

fn colour_of(action: Action) -> &'static str
    ensures colour { result.now ≡ colour_of action }
{
    match action {
        Action::Allow | Action::Log => "palegreen",
        Action::KillProcess | Action::KillThread | Action::Unknown => "salmon",
        Action::Trap | Action::Errno | Action::UserNotif | Action::Trace => "khaki",
    }
}
