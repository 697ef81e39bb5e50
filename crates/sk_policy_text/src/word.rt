//! Words of a policy's text.

/// A word, and where it stands.
#[derive(Clone, Copy, Debug, PartialEq, Eq)]
pub struct Word<'a> {
    pub text: &'a [u8],
    /// Its line, from 1.
    pub line: usize,
    pub place: Place,
}

/// What a word begins.
#[derive(Clone, Copy, Debug, PartialEq, Eq)]
pub enum Place {
    /// A sentence, in the first column of a line.
    Row,
    /// A sentence, behind blanks: a case of the row above.
    Case,
    /// Nothing: it belongs to the sentence of the word before it.
    Behind,
}
