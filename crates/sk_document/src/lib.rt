//! What `ask` tells, as documents of JSON, and as a page of HTML for reviewers.
#![tactic(auto)]

mod arches;
mod call;
mod calls;
mod comparison;
mod deciding;
mod difference;
mod document;
mod group;
mod html;
pub mod laws;
mod lint;
mod numbers;
mod page;
mod page_arches;
mod page_changes;
mod page_lint;
mod page_parts;
mod page_rows;
mod replay;
mod terms;
mod verdict;
mod when;
mod why;

pub use arches::arches_document;
pub use calls::calls_document;
pub use comparison::comparison_document;
pub use deciding::{Decider, Decision};
pub use lint::lint_document;
pub use page::review_page;
pub use replay::replay_document;
pub use when::when_document;
pub use why::why_document;
