//! The kernel over any store: what it answers to each event, and the world that it keeps, are those of the process machine
//! that `sk_machine` defines. What each call does when it is performed; whether an event is possible, which processes can run, and
//! what they need next. And a store of processes that knows whose turn may come: who is no candidate cannot run, and is not asked
//! when the next turn is given.
#![tactic(auto)]

mod asking;
mod attaching;
mod authority;
mod blocked;
mod caller;
mod calls;
mod candidates;
mod delivering;
mod groups;
mod kernel;
mod killing;
pub mod laws;
mod outcome;
mod own;
mod performing;
mod prctl;
mod processes;
mod reasons;
mod seccomp;
mod signals;
mod stepping;
mod targets;
mod turns;
mod waiting;

pub use asking::Runner;
pub use candidates::Candidates;
pub use delivering::deliver;
pub use kernel::{Kernel, Stopped};
pub use killing::kill;
pub use performing::perform;
pub use reasons::{halted, reason, signal_due, signal_for};
pub use sk_machine::{Answer, Effect, Event, Images, Mark, Need, Outcome, Reason};
pub use turns::{need, need_to_run, runnable};
pub use waiting::{resume, wait4};
