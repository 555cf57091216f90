//! Kept tokens joined to one text: the characters of each, with as little between two as separates them. Our own.
//!
//! Call [`canonical_text`]. It is a function of what is kept alone; that the text is read to the same tokens is promised by
//! `ecma_canonical`.
#![tactic(auto)]

pub mod joined;

pub use joined::{between, canonical_text};
