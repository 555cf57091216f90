//! The slot that a token is read into.
//!
//! An arm of the lexer writes its token there at once, so that no token is moved. Only parts that may own memory are
//! dropped. A loop that reads to the end owns a [`Slot`].
#![tactic(auto)]

pub mod slot;

pub use slot::{Slot, put};
