//! What the program answers, and what its words tell of filters.
ghost use Rattle.std.specs.Prelude.{ℕ};
ghost use Rattle.sk_ask.specs.Counts.{CountsReads};
ghost use Rattle.sk_ask.specs.Endings.{Ending, MayEnd, ending_of};
ghost use Rattle.sk_ask.specs.Reading.{Read, read_of};

use crate::{Filters, Trouble};
use std::alloc::Global;

/// The text of an answer, the lines of what is told beside it, and whether it says no.
#[derive(Drop)]
pub struct Answer {
    pub text: Vec<u8>,
    pub notes: Vec<u8>,
    pub denies: bool,
}

/// A word, with its options and what stands before its FILEs.
pub trait Tells: Drop {
    // How it ends over files as they were read.
    ghost tells: { Self → Read → Ending → Type 0 };

    /// What it tells of the filters in its FILEs.
    fn told(self, alloc: Global, filters: Filters) -> Result<Answer, Trouble>
        ensures told { MayEnd (tells self (read_of filters)) (ending_of result) }
        ensures unread { (reads : ℕ) → CountsReads result reads reads };
}
