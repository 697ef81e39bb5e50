//! What was read so far.
use crate::Named;
use crate::scenario::Program;
use indexmap::IndexMap;

// The names that are given, with what they stand for.
pub(crate) type Names<'a> = IndexMap<&'a [u8], Named>;

// What the blocks that are closed gave, and the lines that stand alone.
#[derive(Drop)]
pub(crate) struct Done<'a> {
    pub(crate) turns: Option<u32>,
    pub(crate) subreapers: bool,
    pub(crate) names: Names<'a>,
    pub(crate) filters: Vec<Vec<u8>>,
    pub(crate) programs: Vec<Program>,
}

// The block that is open.
#[derive(Drop)]
pub(crate) enum Block {
    Nothing,
    // a filter's, whose lines said nothing so far
    Undecided,
    Bytes(Vec<u8>),
    // one that is assembled already
    Code(Vec<u8>),
    Calls(Program),
}
