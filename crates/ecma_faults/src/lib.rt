//! The errors of a text in order.
//!
//! [`in_order`] moves errors that are tokens, those that were recorded, and those that wait until the code is known to
//! be a module into one list. Promised: it is sorted by the place where they begin; those of one place are in the order
//! above. `found.rt` has an error with where it comes from.
#![tactic(auto)]

mod found;

pub use found::{Found, Origin, in_order};
