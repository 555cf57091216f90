//! The reader of numbers.
//!
//! `number/runs.rt` and `number/parts.rt` read the parts of a number, which borrow (`specs/WrittenNumbers.antt`);
//! errors, refusal, digits and token are made from them, each in its file. `number/plain.rt` reads most numbers at
//! once.
//!
//! To change a number rule: `ecma_grammar/specs/Numbers.antt`; here `number/`, `specs/WrittenNumbers.antt`, and
//! `number/plain.rt`, which may find nothing that the full reader does not; `proofs/NumberRules.antt`,
//! `ecma_clean/specs/Rules.antt`. Prove `ecma_grammar`, `ecma_number`, `ecma_stream`, `ecma_joining`, `ecma_clean`.
#![tactic(auto)]

pub mod number;

pub use number::{eat_plain_number, scan_number};
