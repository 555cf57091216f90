//! The parser's fixed errors: those that hold nothing.
#![tactic(auto)]

pub mod fixed;

pub use fixed::FixedError;
