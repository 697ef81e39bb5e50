//! The calls of scripts, and what the names in a scenario stand for.
use sk_names::Call;

/// A call, and the program that `fork NAME` gives to the child.
#[derive(Clone, Copy, Debug, PartialEq, Eq)]
pub struct ScriptCall {
    pub call: Call,
    pub script: Option<u32>,
}

/// What a name stands for: a filter or a program, by its number among those of its kind.
#[derive(Clone, Copy, Debug, PartialEq, Eq)]
pub enum Named {
    Filter(u32),
    Program(u32),
}
