//! Terms on the registers of a call: trees of them, the lines of a tree, and conditions in expressions of C.
#![tactic(auto)]

mod blocks;
mod choice;
mod choices;
mod clause;
mod constants;
mod decision;
mod forms;
mod joining;
mod known;
pub mod laws;
mod lines;
mod mask;
mod meaning;
mod merging;
mod met;
mod ranges;
mod term;
mod text;
mod wording;

pub use choice::heaviest;
pub use choices::Choice;
pub use clause::Clause;
pub use decision::{Decision, decide};
pub use lines::{LeftOut, Line, add_lines, lines_of};
pub use merging::merged;
pub use met::meets;
pub use term::{Register, Term};
pub use text::{push_argument, push_condition, push_term};
