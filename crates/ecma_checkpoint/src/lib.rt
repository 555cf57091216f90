//! Checkpoints: where a lexer is, as data.
//!
//! A lexer goes back to it between two reads. `checkpoint.rt` has the checkpoint, which names no text:
//! [`Checkpoint::fits`] says whether it may be one of a text, both ways. `specs/Checkpoints.antt` says where going back
//! leads, and what a lexer is that goes on from one.
#![tactic(auto)]

pub mod checkpoint;

pub use checkpoint::{Checkpoint, Counts};
