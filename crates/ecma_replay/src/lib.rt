//! Lists of steps, played over a text.
//!
//! [`replay`] plays a list of steps and returns what each step does; [`gather`] plays it for what is left at its end.
//! Promised: both are the run over the steps that count.
//!
//! `trees.rt` has all that lexers found, tokens, errors and comments, in lists that share their beginnings; `branch.rt`
//! is a lexer that takes steps, with the numbers of what it found before it was saved last, and with what it found
//! since; `course.rt` takes the steps of a list, with the saves that it may go back to; `runner.rt` plays a list, with
//! what each step answers (`replay`, `replayed.rt`) or without (`gather`, `gathered.rt`): a read comes into a slot, of
//! which `replay` moves the token to the answers. `specs/Playing.antt` says how this is the run.
#![tactic(auto)]

pub mod answer;
mod branch;
mod course;
pub mod gathered;
pub mod replayed;
pub mod runner;
mod trees;

pub use answer::Answer;
pub use gathered::Gathered;
pub use replayed::Replay;
pub use runner::{gather, replay};
