//! A line of a survey, with the calls that show its verdicts.
use crate::example::Example;
use sk_survey::Row;

/// A verdict, and what was found that shows it.
#[derive(Clone, Copy, Debug)]
pub struct Shown {
    pub value: u32,
    pub found: Option<Example>,
}

/// A line, and below it the verdicts that were looked for.
#[derive(Drop)]
pub struct Line {
    pub row: Row,
    pub shown: Vec<Shown>,
}
