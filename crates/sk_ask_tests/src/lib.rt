//! Worked examples of `ask`: its words and texts over files and writers in memory, which fail where they are told to, the
//! forms of files, what profiles and policies are made into or refused for, the text that `ask when` makes of small filters, how two of them
//! differ, what `ask lint` tells of them, what the replay of a log says of its calls, the least policies of logs, the texts of verdicts, names, arguments
//! and constants.
#![tactic(auto)]

#[cfg(test)]
mod allows;
#[cfg(test)]
mod answers;
#[cfg(test)]
mod arguments;
#[cfg(test)]
mod deciders;
#[cfg(test)]
mod differences;
#[cfg(test)]
mod document_paths;
#[cfg(test)]
mod document_values;
#[cfg(test)]
mod documents;
#[cfg(test)]
mod ends;
#[cfg(test)]
mod expectations;
#[cfg(test)]
mod files;
#[cfg(test)]
mod lints;
#[cfg(test)]
mod made;
#[cfg(test)]
mod names;
#[cfg(test)]
mod pages;
#[cfg(test)]
mod partings;
#[cfg(test)]
mod policies;
#[cfg(test)]
mod refusals;
#[cfg(test)]
mod replays;
#[cfg(test)]
mod troubles;
#[cfg(test)]
mod verdicts;
#[cfg(test)]
mod whens;
