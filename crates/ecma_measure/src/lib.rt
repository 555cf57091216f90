//! The work of `ecma_bench`.
//!
//! It counts the tokens of a text (`count`), or measures how fast they are read (`timing`, also with saves: `saving`;
//! `speed`). Promised: `run` with `count` writes the number of kept tokens and bytes, or a fault's line; with `time` it
//! is safe and returns. It has a program of its own, so that figures are of the lexer without lines. `bench/compare`
//! runs its program and the upstream lexer in turn; docs/PERF.md has the figures.
#![tactic(auto)]

mod command;
mod count;
pub mod program;
mod saving;
mod speed;
mod timing;

pub use program::run;
