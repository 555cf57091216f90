//! A lexer together with what decides its slashes, for users with no parser that look ahead.
//!
//! Begin with [`Tracked`] (`tracked.rt`): it reads each token of a text once, a slash as a regular expression where the
//! tokens before it expect an operand, says what is expected next, is copied, makes a checkpoint ([`TrackedCheckpoint`],
//! `checkpoint.rt`), goes back to it, and is an iterator over tokens.
//!
//! `specs/States.antt` says which sessions it shows: the track is that of the tokens that the session keeps. So each read
//! is a step of a run in which roles name the slashes; `specs/Runs.antt` says what such reads come to, and `laws.rt` has
//! these laws and those of going back (`specs/Marks.antt`).
#![tactic(auto)]

mod checkpoint;
pub mod laws;
mod tracked;

pub use checkpoint::TrackedCheckpoint;
pub use tracked::Tracked;
