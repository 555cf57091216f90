//! Tests of `ecma`, HTML and imports.
#![tactic(auto)]

#[cfg(test)]
mod tests;
