//! Runs commands over a lexer and writes what they show, for rows of tests.
#![tactic(auto)]

pub mod calls;
pub mod command;
pub mod fixture;
pub mod run;
pub mod writing;
