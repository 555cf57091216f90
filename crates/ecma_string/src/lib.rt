//! The reader of strings.
//!
//! `string.rt` makes an owned text only where an escape ends a plain run.
#![tactic(auto)]

pub mod string;

pub use string::{eat_plain_string, scan_string};
