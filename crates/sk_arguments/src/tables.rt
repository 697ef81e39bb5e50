//! The tables. `tools/call_arguments` makes them.
pub mod calls;
pub mod constants;
pub mod forms;
