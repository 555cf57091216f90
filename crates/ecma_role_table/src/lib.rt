//! The table of tracks: what a token does in a state, by what is open around it.
//!
//! `part.rt` has what is seen of a token: its kind, the words that a row asks for, and the line break before it.
//! `state.rt` has the states, which say what is expected next, `frame.rt` what may be open around a place, and
//! `moves.rt` what a row says to do. The rows are in `statements.rt`, `modules.rt`, `members.rt`, `operands.rt`,
//! `complete.rt` (where an operand is complete) and `types.rt`, and `table.rt` finds that of a state. Each file has its
//! definitions in `specs/`, one row a clause, with the sections of ECMA-262.
#![tactic(auto)]

mod complete;
pub mod frame;
mod members;
mod modules;
pub mod moves;
mod operands;
pub mod part;
pub mod state;
mod statements;
pub mod table;
mod types;
