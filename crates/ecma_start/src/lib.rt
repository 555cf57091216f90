//! Where the programs begin to read a text, and how they go on. Promised: `begin` is the lexer that begins the run, `pass_next` one
//! read.
#![tactic(auto)]

mod start;

pub use start::{begin, pass_next};
