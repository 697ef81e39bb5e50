//! Instructions of classic BPF, the table of their operations, their images as bytes, and call records.
#![tactic(auto)]

mod action;
mod image;
mod insn;
mod names;
mod operation;
mod record;

pub use action::{ALLOW, Action};
pub use image::{ImageFault, MOST_INSNS, NoImage, read_image, read_insns, write_insns};
pub use insn::Insn;
pub use operation::{Arithmetic, Comparison, Operand, Operation, Register, decode};
pub use record::{ARCHITECTURE, RECORD_LEN, Record};
