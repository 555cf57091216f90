//! `replay` by copies alone, which tests compare it with.
//!
//! A player is a lexer with the tokens that it keeps (`player.rt`), and each save and each way back copies all of it
//! (`runner.rt`, `specs/Copies.antt`). It meets the same contract; no caller needs it, and `texts_tests` plays the
//! same lists by both.
#![tactic(auto)]

mod player;
mod runner;

pub use runner::replay_by_copies;
