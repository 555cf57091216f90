//! Going on from a checkpoint: a lexer over the rest of a text.
//!
//! Call [`resume`] over the text from [`begin_of`] on. `going_on.rt` has the calls; `specs/Resuming.antt` says what the
//! rest of a text is, and `laws.rt` that reading it comes to what reading the whole text comes to.
#![tactic(auto)]

pub mod going_on;
pub mod laws;

pub use going_on::{begin_of, resume};
