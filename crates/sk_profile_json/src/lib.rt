//! The seccomp profile of a container runtime, read from its JSON; and the image of the filter that means it, or why
//! there is none.
#![tactic(auto)]

mod actions;
mod answer;
mod architectures;
mod argument;
mod capabilities;
mod conditions;
mod context;
mod deciding;
mod document;
mod entry;
mod fault;
mod fields;
pub mod filter_laws;
mod form;
mod image;
mod inside;
mod inspected;
pub mod laws;
mod line;
mod machine;
mod making;
mod multiplexed;
mod named;
mod note;
mod parting;
mod parting_text;
mod parts;
mod rules;
mod runc;
mod said;
mod slip;
mod text;
mod whole;
mod writing;

pub use answer::{Made, Refusal};
pub use capabilities::capability;
pub use context::{Context, Kernel, kernel_of};
pub use deciding::{Decider, decider_by};
pub use fault::{Absence, Fault, Field, Place, ReadFault, Wrong};
pub use form::is_profile;
pub use line::entry_line;
pub use machine::{Machine, scmp_name};
pub use making::made;
pub use parting::{Parting, partings};
pub use parting_text::push_parting;
pub use said::profile_of_bytes;
pub use slip::{Extra, Slip};
pub use text::refusal_text;
pub use whole::{profile_in, read, value_of};
pub use writing::profile_text;
