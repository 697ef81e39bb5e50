//! The assembler and the lister: texts with one instruction or label a line, as instructions, and instructions as a text that
//! assembles to them again.
#![tactic(auto)]

mod block;
mod distance;
mod examples;
mod fault;
mod found;
pub mod laws;
mod line;
mod listing;
mod parse;
mod passes;
mod shape;
mod statement;
mod value;

pub use block::is_end;
pub use examples::{example_faults, example_texts};
pub use fault::AsmFault;
pub use line::push_words;
pub use listing::list;
pub use passes::{assemble, assemble_block};
pub use shape::Shape;
