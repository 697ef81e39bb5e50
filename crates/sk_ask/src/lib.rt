//! The program `ask` as a function of its words, over files that are known by their names, an analysis of filters, a writer for
//! answers and one for complaints. What is wrong comes to no answer: it is one line for the second writer, and status 2. The
//! filters in files: the bytes of the files, what the profiles among them stand for, and the chain of the filters. What form a file
//! has is decided by its bytes alone, and several files are one chain, the oldest filter first.
#![tactic(auto)]

mod allow;
mod analysis;
mod answer;
mod arches;
mod attaching;
mod calls;
mod calls_text;
mod check;
mod cli;
mod comparison;
mod complaint;
mod complete;
mod conclusion;
mod context;
mod deciding;
mod demands;
mod diff;
mod each;
mod expansion;
mod expect;
mod fault;
pub mod file_laws;
mod files;
mod files_of_filters;
mod filter;
mod form;
mod found;
mod help;
mod kind;
mod known;
pub mod laws;
mod lines;
mod lint;
mod manner;
mod meant;
mod narrowing;
mod nearest;
mod on;
mod only;
mod order;
mod other_names;
mod output;
mod page;
mod printing;
mod remark;
mod replay;
mod runtime;
mod shelf;
mod show;
mod since;
mod smaller;
mod table;
mod target;
mod text;
mod trouble;
mod when;
mod why;
mod word;
mod words;

pub use analysis::{Analysis, Trees};
pub use attaching::attach;
pub use cli::{command, misused};
pub use complaint::{about, of_word};
pub use fault::{FileFault, LineFault, Refused};
pub use files::find;
pub use files_of_filters::{Filters, Reader};
pub use form::{Form, form_of};
pub use found::{Found, Place};
pub use manner::Manner;
pub use shelf::{MOST_LOG_BYTES, Shelf, Unopened, Unread, content};
pub use text::fault_text;
pub use trouble::Trouble;
