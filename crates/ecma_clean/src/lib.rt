//! Laws of clean runs: they and the canonical text of what they keep; each run of a session is a walk of the lexer's
//! grammar.
#![tactic(auto)]

pub mod laws;
