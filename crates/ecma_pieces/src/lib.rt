//! Pieces of a run: [`classes_of_steps`] returns them.
//!
//! What a run keeps and collects meets what [`classes`](ecma_classes::classes) requires of its caller: the laws here,
//! each a call that does nothing and whose contract is the law, say so. Its proofs go up from single elements
//! (`ElementPlaces.antt`) to reads (`ReadLemmas.antt`) and runs (`CollectedLemmas.antt`): no comment ends behind where
//! the slash begins that was read last, so a token that is read again from that slash holds none.
#![tactic(auto)]

pub mod laws;
mod steps;

pub use steps::classes_of_steps;
