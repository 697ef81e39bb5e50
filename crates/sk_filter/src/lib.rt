//! Filters: the checker, which says which programs may run; the machine of classic BPF, which runs one on a call; chains of
//! filters, their verdict, and the verdict's text.
#![tactic(auto)]

mod chain;
mod checked;
mod errors;
mod fault;
mod filters;
mod interpreter;
pub mod laws;
mod machine;
mod node;
mod pass;
mod places;
mod precedence;
mod sets;
mod table;
mod together;
mod verdict_text;
mod walker;

pub use chain::Chain;
pub use checked::{Checked, check};
pub use errors::{error_name, error_number};
pub use fault::CheckFault;
pub use filters::{ChainFault, Filters};
pub use interpreter::{Ran, run};
pub use machine::{calculate, holds};
pub use node::Programs;
pub use precedence::{first_of, preceding};
pub use together::walk_together;
pub use verdict_text::push_verdict;
pub use walker::walk;
