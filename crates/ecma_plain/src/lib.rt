//! Reads of plain tokens: most reads.
//!
//! Such a read finds a token and nothing else to report, or says that it found none such, and then has changed nothing.
#![tactic(auto)]

pub mod plain;
