//! Tests of `ecma_scan`.
#![tactic(auto)]

#[cfg(test)]
mod tests;
