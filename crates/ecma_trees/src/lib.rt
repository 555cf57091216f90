//! Lists that share their beginnings.
//!
//! Each value has the number of the one before it, and a list is the number of its last: so a list is kept, or gone
//! back to, in constant time.
#![tactic(auto)]

pub mod tree;

pub use tree::Tree;
