//! What filters answer on every call of a number, or of a range of numbers, by following all paths at once; and to the calls of
//! each architecture, and whether they look at it at all. Of each architecture filters are asked as they are for its calls: its
//! number stands there as a constant. So whoever can tell of calls of x86-64 can tell of those of every other architecture.
#![tactic(auto)]

mod answered;
mod answers;
pub mod architecture_laws;
mod chain;
mod change;
pub mod cuts;
mod decide;
mod follow;
mod known;
pub mod laws;
mod looks;
mod merge;
mod numbered;
mod other;
mod pass;
mod program;
mod rows;
mod survey;
mod taint;
mod taken;
mod text;
mod told;
mod values;

pub use answered::{Answered, answered_all, answered_for};
pub use answers::Answers;
pub use chain::{chain_by_architecture, chain_for, chain_without};
pub use decide::decide_number;
pub use looks::looks_at_architecture;
pub use numbered::are_judged_alike;
pub use other::{Other, answered_other};
pub use program::program_for;
pub use rows::Row;
pub use survey::Surveyor;
pub use taken::{loaded_places, taken_as};
pub use text::arches_text;
pub use told::{Told, arches};
