//! A profile, once its names are numbers.
use crate::condition::Condition;

/// The value for the calls with one number whose arguments meet all conditions.
#[derive(Debug, Drop)]
pub struct Rule {
    pub number: u32,
    pub conditions: Vec<Condition>,
    pub value: u32,
    /// The entry of the profile that it comes from, as its author numbers them, from 0 on.
    pub entry: usize,
}

/// The rules for the calls for which a filter is shown one number of linux/audit.h.
#[derive(Debug, Drop)]
pub struct Part {
    /// The number of linux/audit.h.
    pub audit: u32,
    /// Whether an argument has 32 bits. Those of x32, whose numbers have bit 30, have so many anyway.
    pub narrow: bool,
    /// Whether the numbers of x32 are none of its calls.
    pub without_x32: bool,
    /// The rules in their order.
    pub rules: Vec<Rule>,
    /// The greatest number that runc's own instructions know, where they stand before the filter, and else 0.
    pub top: u32,
    /// The greatest that they know of those with bit 30, and else 0.
    pub x32_top: u32,
}

/// A profile, once its names are numbers.
#[derive(Debug, Drop)]
pub struct Profile {
    /// A part for each architecture of the machine. Of two for one number of linux/audit.h the first counts.
    pub parts: Vec<Part>,
    /// The value of calls that no rule fits.
    pub default: u32,
    /// The value of what is no call of the parts.
    pub bad: u32,
}
