//! Worked rows of the grammar: what its definitions make of texts that were worked out by hand, proved by computing.
//! They are in a crate beside the readers, so that no reader waits for them.
#![tactic(auto)]
