//! The written lexical grammar: what each part of a text is, as definitions over texts, and the few types and calls
//! that all of its readers share.
//!
//! Each subject has a file of `specs/`, with its laws at its end (docs/GRAMMAR.md). The code is what all readers share:
//! `found.rt`, `line.rt`, `name_start.rt`, `gap_mode.rt`. The readers' crates have, in `specs/` of their own, what a
//! reader's records mean in the grammar's words. Every reader meets the whole of its definition.
#![tactic(auto)]

pub mod found;
pub mod gap_mode;
pub mod line;
pub mod name_start;

pub use found::{Blame, Found};
pub use gap_mode::GapMode;
