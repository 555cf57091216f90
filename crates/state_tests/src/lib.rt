//! Tests of `ecma_state`: contexts, questions, lists of errors.
#![tactic(auto)]

#[cfg(test)]
mod tests;
