//! The filter of a policy: from conditions on the registers of a call to the instructions that ask them.
#![tactic(auto)]

mod backward;
mod cases;
mod fault;
mod joined;
mod line;
mod policy;
mod rules;
mod term;
mod test;

pub use cases::Case;
pub use fault::CodeFault;
pub use policy::{Policy, Rule, policy_filter};
