//! Tests of whole texts: what they are read to by a lexer, by lists of steps and by readers with no parser above, and
//! what is made of their tokens, as canonical texts, pieces and classes of words.
#![tactic(auto)]

#[cfg(test)]
mod tests;
