//! What a lexer reads of a text, for rows of tests.
#![tactic(auto)]

pub mod listing;
pub mod shown;
pub mod store;
