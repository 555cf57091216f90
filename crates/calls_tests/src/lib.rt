//! Tests of calls of the lexer: what each returns and leaves, how it goes back and on, and which comments and errors it keeps.
#![tactic(auto)]

#[cfg(test)]
mod tests;
