//! What a profile says of every call, and the filter that answers so: from what the profile says of each number to the
//! instructions of a filter that says the same of every call.
#![tactic(auto)]

mod build;
mod clash;
mod common;
mod condition;
mod emit;
mod fault;
mod filter;
mod from_rules;
pub mod instructions;
mod judge;
pub mod laws;
mod marks;
mod pieces;
mod profile;
mod rows;
mod saying;
mod section;
mod stub;
mod weights;

pub use condition::{Condition, Test};
pub use fault::{Clash, ProfileFault, RulePlace};
pub use filter::profile_filter;
pub use judge::are_apart;
pub use profile::{Part, Profile, Rule};
pub use weights::{Numbers, OFTEN, numbers_of, weight};
