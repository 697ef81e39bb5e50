//! Under which conditions on the rest of a call each value comes, for every call of some numbers.
#![tactic(auto)]

mod budget;
mod chains;
mod differences;
mod expectation;
mod explore;
mod follow;
mod join;
pub mod laws;
mod numbers;
mod pair;
mod path;
mod solve;
mod some_words;
mod standing;
mod test;
mod tree;
mod way;
mod witness;

pub use budget::{Budget, Budgets};
pub use chains::chain_tree;
pub use differences::{Differences, Verdicts, differ};
pub use expectation::Expectation;
pub use explore::program_tree;
pub use numbers::Numbers;
pub use standing::{Comparing, Relation, is_reflexive, stands};
pub use test::Test;
pub use tree::Tree;
