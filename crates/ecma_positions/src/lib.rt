//! Lines and columns of the places of a text.
//!
//! Begin with `LineStarts::of`; `LineStarts::position` finds the line and column of a place by halving, or at once
//! where its line is the one that is named (`position.rt`, `specs/Positions.antt`). Lines and columns count from 1,
//! columns in bytes, or in units of UTF-16 (`columns.rt`); only line feeds end lines.
#![tactic(auto)]

mod columns;
mod position;

pub use columns::{Columns, units_are_of_utf16, utf16_length};
pub use position::{LineStarts, Position};
