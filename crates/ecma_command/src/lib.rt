//! The command line of `ecma`: `words.rt` has its words, by the kit's `clap`, and what they ask for, `file_names.rt` what a
//! file's ending means. Promised: `specs/FileNames.antt` says what that is, and which files of a directory are read.
#![tactic(auto)]

pub mod file_names;
pub mod words;
