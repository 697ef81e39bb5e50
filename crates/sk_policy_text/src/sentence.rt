//! What one sentence of a policy's text says.
use crate::word::Word;
use sk_names::Architecture;
use std::alloc::AllocError;

/// The numbers of calls from one to another, both of them too.
#[derive(Clone, Copy, Debug, PartialEq, Eq)]
pub struct Range {
    pub first: u32,
    pub last: u32,
}

/// What one sentence says. A verdict is the value of a filter.
#[derive(Drop)]
pub enum Sentence<'a> {
    /// Of whose calls the policy tells.
    Arch(Architecture),
    /// The verdict of numbers that no row has.
    Default(u32),
    /// The verdict of calls of other architectures, and of numbers of x32 that no row has.
    Others(u32),
    /// A row: the calls with these numbers, and the verdict of all of them; where there is none, cases follow.
    Row(Vec<Range>, Option<u32>),
    /// The verdict of the calls of the row above that meet the condition of these words, and none of the cases before.
    Case(u32, &'a [Word<'a>]),
    /// The verdict of all other calls of the row above.
    Else(u32),
}

/// Why words are no sentence: the place among them of the word at which they fail, which is their number where more would have to
/// stand behind them, and what was expected there.
#[derive(Clone, Copy, Debug, PartialEq, Eq)]
pub struct SentenceFault {
    pub at: usize,
    pub expected: Expected,
}

/// What was expected in place of a word.
#[derive(Clone, Copy, Debug, PartialEq, Eq)]
pub enum Expected {
    /// The name of an architecture, but for x32, whose numbers are among those of x86-64.
    Architecture,
    /// An action by its name, with its data behind a slash, behind `errno` always.
    Verdict,
    /// The name of the error with the number before it.
    NameOfError,
    /// The name or the number of a call, or a range of numbers.
    Call,
    /// The name of the call with the number before it.
    NameOfCall,
    /// A comma, a verdict, or the end of the sentence.
    CommaOrVerdict,
    /// `where` and a condition, or `else`.
    WhereOrElse,
    /// A condition behind `where`.
    Condition,
    /// The end of the sentence.
    End,
}

/// Why a sentence is not read.
#[derive(Clone, Copy, Debug, PartialEq, Eq)]
pub enum ReadFault {
    /// The words are no sentence.
    Sentence(SentenceFault),
    /// Memory was refused.
    Memory,
}

impl From<AllocError> for ReadFault {
    ghost use Rattle.std.specs.Prelude.{◌≡◌};
    ghost use Rattle.sk_policy_text.specs.declared.sentence.ReadFault.TheVariants.{Memory};

    ghost from_gives = { λ _ fault. fault ≡ Memory };

    fn from(_refused: AllocError) -> ReadFault {
        ReadFault::Memory
    }
}
