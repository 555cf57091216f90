//! Kinds of tokens as numbers.
//!
//! `number.rt` has the one table of numbers of kinds (`specs/KindNumbers.antt`), and the law that different kinds have
//! different numbers.
#![tactic(auto)]

pub mod laws;
mod number;

pub use number::kind_number;
