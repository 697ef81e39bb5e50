//! The stores of the processes of a world: a plain list, and slots. Beside the slots stand the rows and counts that lead from
//! the links of the processes back to their pids. Once a store in slots is made it takes no memory. All of `sk_world` stands
//! here too.
#![tactic(auto)]

mod first;
mod index;
mod list_store;
mod numbering;
mod scan;
mod slot_store;
mod uses;

pub use first::first_process;
pub use list_store::ListStore;
pub use numbering::next_number;
pub use sk_world::{
    Body, INIT, LAST_PID, Life, Links, Note, PROCESSES, Poll, Proc, ProcStore, Request,
    WaitOptions, Waiting, Who, end, fork, laws, ready, reap, reaper, reparent, send, wait_poll,
};
pub use slot_store::SlotStore;
pub use uses::Uses;
