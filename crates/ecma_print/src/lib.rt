//! Rows as lines or JSON, with lines and columns that are counted as rows go on.
//!
//! `row.rt` has what is written of a row, `written.rt` writes it as a line or as the JSON of the kit's `serde_json`
//! (`specs/Rows.antt`; of the values of tokens `values.rt` and `specs/Values.antt`), member by member (`members.rt`), and
//! `lines.rt` counts lines from the last place that was asked for. Promised: `Lines::position`
//! is the position that `LineStarts` finds, or, in units of UTF-16 (`utf16_length`, by the law `units_are_of_utf16` as
//! std counts them), its column in these.
#![tactic(auto)]

pub mod lines;
mod members;
pub mod row;
mod units;
mod values;
pub mod written;
