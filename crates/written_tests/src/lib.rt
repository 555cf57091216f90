//! Tests of what is written: of `ecma_print`, `ecma_show`, `ecma_faults`, `ecma_report` and `ecma_rows`, and of what `ecma_lex` and
//! `ecma_bench` write.
#![tactic(auto)]

#[cfg(test)]
mod tests;
