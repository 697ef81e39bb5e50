//! The filter commands of `skern` as a function of their words, a reader and a writer.
#![tactic(auto)]

mod asm;
mod check;
mod cli;
mod engine;
mod eval;
mod eval_input;
mod fault;
mod filters;
mod list;
mod on_image;
mod program;
mod refusal;
mod reply;
mod word;

pub use cli::{command, filter_command};
pub use engine::{deliver, input};
pub use fault::CommandFault;
pub use filters::{MOST_FILTERS, Refusal, attach_images, bytes_in};
pub use program::{FAILED, failed, finish, tell_usage, words_of};
pub use refusal::refusal_reply;
pub use reply::Reply;
pub use word::{FilterWord, Word, word_in};
