//! Processes with their user ids and signals, the errors of calls, the world that processes make up with the rules of fork(2),
//! kill(2), exit(2) and wait(2) on it, the trait of a store that keeps them, and the functions that follow those rules over any
//! store. Signals of one process: signal sets, dispositions, and the mask, the pending set and the handler frames, with the rules
//! of signal(7), sigaction(2), sigprocmask(2) and sigreturn(2) on them. And sets of numbers below 32768, and rows of pairs of
//! numbers in rising order: a set takes no memory, and a row none once it is made.
#![tactic(auto)]

mod asking;
mod creds;
mod disposition;
mod ending;
mod errno;
mod forking;
pub mod laws;
mod number_set;
mod pair_row;
mod process;
mod request;
mod sending;
pub mod signal_laws;
mod signal_set;
mod signal_state;
pub mod signals;
mod store;
mod subreapers;
mod waiting;

pub use asking::{is_alive, is_asked_for, is_stopped, is_zombie, parent_of};
pub use creds::{Creds, NO_ID};
pub use disposition::{DefaultAction, Disposition, default_action, tty_stop};
pub use ending::{end, reparent};
pub use errno::Errno;
pub use forking::fork;
pub use number_set::{NUMBERS, NumberSet};
pub use pair_row::{PAIRS, PairRow};
pub use process::{Body, INIT, LAST_PID, Life, Links, Note, PROCESSES, Proc, Waiting};
pub use request::{Poll, Request, WaitOptions, Who};
pub use sending::send;
pub use signal_set::SigSet;
pub use signal_state::{FRAMES, SigState};
pub use store::ProcStore;
pub use subreapers::reaper;
pub use waiting::{ready, reap, wait_poll};
