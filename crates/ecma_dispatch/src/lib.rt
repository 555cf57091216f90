//! One read: the gap, and then the token at the place behind it, by the reader that its first characters call for.
//!
//! `token_at.rt` sends what the lookahead names to its reader; `read.rt` is one read.
#![tactic(auto)]

pub mod read;
mod token_at;
