//! Tests of what goes by tokens alone: `ecma_modules`, `ecma_roles`, `ecma_tracked`.
#![tactic(auto)]

#[cfg(test)]
mod tests;
