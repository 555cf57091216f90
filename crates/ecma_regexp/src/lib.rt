//! The reader of regular expressions.
//!
//! `expression.rt` reads them, and their flags by `name.rt` of `ecma_name`. `specs/WrittenExpressions.antt` says which pieces
//! of a regular expression's body the reader's own records mean.
#![tactic(auto)]

pub mod expression;

pub use expression::scan_regexp;
