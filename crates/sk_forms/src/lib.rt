//! The forms in which filters are published, read as images.
#![tactic(auto)]

mod array;
mod byte_array;
mod comments;
mod cutting;
mod decimals;
mod dump;
mod first;
pub mod laws;
mod letters;
mod listing;
mod names;
mod rows;
mod strings;
mod table;
mod token;
mod values;
mod writing;

pub use decimals::is_nearly_decimals;
pub use listing::listed;
pub use names::{NAMES, NUMBERS, Name, Word};
pub use token::Token;
pub use writing::{array_text, base64_text, decimals_text};
