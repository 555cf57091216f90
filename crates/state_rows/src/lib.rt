//! Worked rows of the state: where comments are attached, and how a token turns the contexts, proved by computing. They
//! are in a crate beside the lexer, so that it does not wait for them.
#![tactic(auto)]
