//! Laws of the grammar and of runs: each call does nothing, and its contract is the law.
//!
//! The laws are by subject (docs/GUARANTEES.md).
#![tactic(auto)]

pub mod laws;
