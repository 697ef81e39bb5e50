//! Texts as bytes. What is read and written: a `Source` and a `Sink` count the failures that they have answered,
//! `take_up_to` reads the first bytes of one, and `send` writes a text to the other. Each says why it stopped, and a count shows
//! that a fault is answered only where an end failed. What a text is made of: its lines and words, and the numbers, names and
//! hexadecimal digits that a word may be; and lines of output, made in place, with the digits that they show.
#![tactic(auto)]

mod counted;
mod examples;
mod hexadecimal;
mod in_place;
mod lines;
mod numbers;
mod sink;
mod source;
mod words;

pub use counted::Counted;
pub use examples::{example_cuts, example_digits, example_words};
pub use hexadecimal::{HexDigits, HexFault, bytes_of, bytes_of_text, hex_half, hex_word};
pub use in_place::{Line, push_digit, push_long, push_number, push_signed};
pub use lines::{Lines, Words, cut, is_passed_over, is_printable};
pub use numbers::{is_number, number_up_to};
pub use sink::{Sink, WriteFault, send};
pub use source::{ReadFault, Source, take_up_to};
pub use words::{four_words, is_name, is_same, no_word, one_word, three_words, two_words};

/// The most bytes that an input may have: a mebibyte.
pub const MOST_BYTES: usize = 1_048_576;
