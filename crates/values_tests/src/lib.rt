//! Tests of the values that callers hold: places and texts, settings and words, tokens, errors and their messages.
#![tactic(auto)]

#[cfg(test)]
mod tests;
