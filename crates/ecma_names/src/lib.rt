//! The words that programs write for the sides and kinds of comments, and for the pieces of a text.
//!
//! Begin with [`comment_name`]. `name.rt` has the tables, and `specs/Names.antt` says the same. The names of kinds of
//! tokens are in `ecma_token`, the words for where an error comes from in `ecma_faults`, those of a stylesheet's classes in
//! `ecma_styles`, the numbers of kinds in `ecma_kinds`.
#![tactic(auto)]

mod name;

pub use name::{comment_name, piece_name, side_name};
