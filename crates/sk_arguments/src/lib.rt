//! What Linux reads of the arguments of calls, and how their numbers are named in its headers: of each argument of a call of
//! x86-64 its kind, its name in the manual, and which other argument decides whether it is read; and the constants that it takes.
#![tactic(auto)]

mod constants;
mod forms;
mod kinds;
pub mod laws;
mod naming;
mod reading;
mod rows;
mod runs;
mod tables;

pub use constants::{Set, number_of_constant};
pub use forms::{Field, Form, form_of};
pub use kinds::{Kind, kind_of, reads_lower, reads_upper};
pub use naming::{Naming, call_with_constants};
pub use reading::{narrow_numbers, unread_places};
pub use rows::{argument_name, decided_by};
