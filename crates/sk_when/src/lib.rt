//! When a verdict comes, and two chains of filters compared on every call: what `ask when` and `ask diff` tell. Calls that are the
//! same one to Linux and get other verdicts, which `ask lint` tells. `told_rows`, `diff` and `lint` hand these out as values, and
//! `when_text`, `comparison_text` and `lint_text` write them, conditions in expressions of C. And calls that show the verdicts of a
//! survey's rows, taken from the trees of the filters: on each of them the chain was run.
#![tactic(auto)]

mod concern;
mod diff_engine;
mod diff_text;
mod example;
mod filling;
mod judged;
pub mod laws;
mod lines;
mod lint_engine;
mod lint_lines;
mod lint_notes;
mod lint_pieces;
mod names;
mod parts;
mod picture;
mod piece;
mod pieces;
mod remarks;
mod row;
mod same_filters;
mod showing;
mod when_engine;
mod when_lines;

pub use concern::{Concern, concern_of, lint_names};
pub use diff_engine::{Comparison, Finding, diff};
pub use diff_text::{Kind, comparison_text, kind_of, push_call};
pub use lines::lines_of;
pub use lint_engine::{Linted, lint};
pub use lint_lines::lint_text;
pub use names::{Names, constants_of};
pub use picture::dot;
pub use piece::{Calls, Outcome, Part, Piece};
pub use remarks::Remarks;
pub use row::ConditionalRow;
pub use sk_conditions::{Budget, Budgets, Relation};
pub use when_engine::told_rows;
pub use when_lines::when_text;
