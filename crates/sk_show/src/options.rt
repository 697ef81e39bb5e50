//! What is wanted of a survey.
use sk_names::Architecture;

/// What is wanted of a survey.
#[derive(Clone, Copy, Debug, PartialEq, Eq)]
pub struct Options {
    /// Numbers have the names that they have there.
    pub architecture: Architecture,
    /// Only this number is told.
    pub call: Option<u32>,
    /// Calls are looked for that show the verdicts.
    pub examples: bool,
}
