//! Calls as people and programs write them: a word of a command line, and the lines of a log of strace(1) or of the kernel, with
//! the verdicts on those.
#![tactic(auto)]

mod action;
mod answer;
mod argument;
mod attaching;
mod audit;
mod call;
mod cuts;
mod digits;
mod fault;
mod judged;
pub mod laws;
mod line;
mod logged;
mod mode;
mod named;
mod nest;
mod octal;
mod quoted;
mod recorded;
mod replaying;
mod row;
mod seen;
pub mod seen_laws;
mod shown;
mod since;
mod tally;
mod text;
mod value;
mod word;
mod written;

pub use action::{push_logged, push_logged_name};
pub use answer::Replay;
pub use argument::number_or_constant;
pub use call::Call;
pub use fault::CallFault;
pub use judged::Judged;
pub use logged::{LineCounts, add_logged};
pub use named::{call_named, plain_number};
pub use quoted::plain_word;
pub use recorded::Recorded;
pub use replaying::replay;
pub use row::Row;
pub use seen::{calls_of, seen_numbers};
pub use since::since_attached;
pub use text::{push_call, replay_text};
pub use value::Value;
pub use word::{call_in, name_part};
