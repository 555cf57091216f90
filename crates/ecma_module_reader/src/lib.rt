//! What a text imports and exports, gathered while it is read.
//!
//! [`gather_next`] reads the next token and has it taken by an `ecma_modules::Gathering`, with its region from what is expected
//! there. Promised: who calls it until the text ends has gathered what `specs/Readings.antt` says of all its tokens
//! (`proofs/TokenLemmas.antt` is the law of such a loop).
#![tactic(auto)]

mod reading;

pub use reading::gather_next;
