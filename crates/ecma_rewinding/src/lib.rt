//! Laws of going back to a checkpoint: each call does nothing, and its contract is the law.
#![tactic(auto)]

pub mod laws;
