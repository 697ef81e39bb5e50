//! What `ask when` tells of filters, made a filter again: one that answers each call as a chain of them does.
#![tactic(auto)]

mod allowing;
pub mod laws;
mod narrowing;
mod others;
mod rules;
mod smaller;

pub use allowing::allow_text;
pub use narrowing::{allowed_rows, is_wide, unshown_arguments};
pub use others::others_verdict;
pub use smaller::{OneFilterFault, one_filter};
