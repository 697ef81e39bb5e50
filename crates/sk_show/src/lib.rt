//! Filters and their answers as people read them. The listing of a filter with labels and notes, and the path of a call through
//! each, instruction by instruction. What a survey tells: a line for each call with a name and for the numbers between, with the
//! verdicts of the filters and calls that show them, and how numbers, names and verdicts are written. Such a call is found by
//! running filters on calls, from turn to turn: on it the chain answers the value that is looked for.
#![tactic(auto)]

mod coming;
mod compared;
mod example;
mod execution;
mod held;
pub mod laws;
mod line;
mod listing;
mod note;
mod options;
mod origin;
mod path_line;
pub mod survey_laws;
mod survey_line;
mod survey_rows;
mod survey_text;
mod text;
mod tracing;
mod turning;
mod ways;

pub use example::{Example, answering, find, shown_by};
pub use execution::{Next, Run};
pub use held::Held;
pub use listing::show;
pub use options::Options;
pub use survey_line::{Line, Shown};
pub use survey_rows::rows_of;
pub use survey_text::{name_of_numbers, push_answers, push_numbers};
pub use text::why;
pub use tracing::{Path, Registers, Step, trace};
