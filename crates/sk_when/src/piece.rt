//! What was found of some numbers.
use sk_conditions::{Numbers, Verdicts};
use sk_insn::Record;
use sk_terms::Line;

/// Which calls a part speaks of.
#[derive(Drop)]
pub enum Calls {
    /// All with the numbers.
    Every,
    /// Those that meet a condition.
    Meeting(Line),
}

/// What is known of the verdicts on the calls of a part.
#[derive(Clone, Copy, Debug)]
pub enum Outcome {
    /// Nothing: the relation between them may fail, or hold.
    Undecided,
    /// They are these, for which the relation fails, and this is one of the calls.
    Apart(Verdicts, Record),
}

/// Calls on which the relation between the verdicts of two chains may fail.
#[derive(Drop)]
pub struct Part {
    pub calls: Calls,
    pub outcome: Outcome,
}

/// Neighbouring numbers, and their calls on which the relation may fail; on all others it holds.
#[derive(Drop)]
pub struct Piece {
    pub numbers: Numbers,
    pub parts: Vec<Part>,
}
