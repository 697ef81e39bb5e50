//! The turns of a scenario, the engine that writes its report, and the program `skern` as a function of its words, a reader and
//! a writer. What the report of a scenario is stands in `specs/`, and the text of one of its lines is made here too.
#![tactic(auto)]

mod calls;
mod cli;
mod due;
mod fault;
pub mod laws;
mod level;
mod levels;
mod machine;
mod making;
pub mod report_laws;
mod reporting;
mod stacks;
mod text;
mod turn;

pub use cli::command;
pub use fault::EngineFault;
pub use level::Level;
pub use machine::Machine;
pub use reporting::{engine, engine_with};
pub use sk_engines::{CommandFault, FAILED, failed, finish, words_of};
pub use sk_text::{Counted, Sink, Source};
pub use text::{turn_line, write_line};
pub use turn::{End, ReportLine};
