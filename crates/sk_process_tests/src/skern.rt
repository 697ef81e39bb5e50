//! Worked examples that cross the crates: the commands, and the words of `skern`, over readers and writers in memory, which
//! give and take as few bytes as they like and fail where they are told to.
mod command_rows;
mod commands;
mod ends;
mod eval_rows;
mod failing_ends;
mod report_rows;
mod words;

use commands::Command;
use ends::{Reader, Trouble, Writer};
