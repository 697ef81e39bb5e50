//! The process machine: the events of the kernel, their answers, and, in `specs/`, what every event does
//! to the world.
#![tactic(auto)]

mod answer;
mod arguments;
mod asking;
mod ending;
mod event;
mod grouping;
mod images;
pub mod laws;
mod operation;
mod orphans;

pub use answer::{Answer, Effect, Outcome, Reason};
pub use arguments::{register, signed, unsigned};
pub use asking::{getpgid, getsid, group_of, session_of};
pub use ending::end;
pub use event::{Event, Need, is_waiting};
pub use grouping::{setpgid, setsid};
pub use images::{Images, Mark};
pub use operation::{PrctlOption, SeccompOperation};
pub use orphans::orphaned;
pub use sk_names::Syscall;
