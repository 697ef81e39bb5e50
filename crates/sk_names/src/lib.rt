//! Calls by number and by name. The architectures by which a program can call Linux, as seccomp filters see them, and the
//! names and numbers of their calls, as the headers of Linux have them. And a call as its process makes it, with the calls of the
//! process machine, which are few of those of x86-64: their numbers and their names.
#![tactic(auto)]

mod architecture;
mod call;
mod elsewhere;
pub mod laws;
mod lists;
mod names;
mod runs;
mod syscall;
mod tables;
pub mod x86_64;

pub use architecture::Architecture;
pub use call::Call;
pub use elsewhere::is_elsewhere;
pub use names::{name, number, numbers};
pub use syscall::Syscall;
