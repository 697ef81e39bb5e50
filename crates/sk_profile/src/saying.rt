//! What is said of the calls of one number, and of ranges of numbers.
use crate::condition::Condition;

/// What is answered where all conditions hold.
#[derive(Debug, Drop)]
pub struct Arm {
    pub conditions: Vec<Condition>,
    pub value: u32,
}

/// What is said of the calls of one number: the first arm whose conditions hold, and otherwise this.
#[derive(Debug, Drop)]
pub struct Saying {
    /// Whether an argument has 32 bits: the lower half of what a filter is shown.
    pub narrow: bool,
    pub arms: Vec<Arm>,
    pub otherwise: u32,
}

/// What is said of the numbers from one on, up to the next row's.
#[derive(Debug, Drop)]
pub struct Row {
    pub start: u32,
    pub saying: Saying,
}
