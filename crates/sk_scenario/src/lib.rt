//! The scenario reader: from the bytes of a scenario to its filters and programs, or to its first fault.
#![tactic(auto)]

mod call;
mod call_names;
mod calls;
mod examples;
mod fault;
mod filters;
pub mod laws;
mod line;
mod parse;
mod reader;
mod reading;
mod scenario;
mod state;
mod text_fault;
mod top;
mod values;

pub use call::{Named, ScriptCall};
pub use examples::{example_faults, example_limits, example_scenarios};
pub use fault::ScenarioFault;
pub use reader::read;
pub use scenario::{Program, Scenario};
pub use text_fault::TextFault;
