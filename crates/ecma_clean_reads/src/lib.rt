//! Single reads of clean runs: what a canonical text is; what a read of a session finds, apart from places, is what the
//! grammar's parts find; and a run that went wrong stays so. What `ecma_clean` names of `ecma_parts` and `ecma_reads` is
//! passed on.
#![tactic(auto)]

pub use ecma_parts::found;
