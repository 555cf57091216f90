//! A report of a text, as `ecma` writes it: its rows and its errors.
//!
//! `report.rt` has the rows of a report and the block that they leave in, `slashes.rt` opens the reader, `unmet.rt` tells of
//! places that are no slash's, `faults.rt` of errors. What is asked for is in `ecma_command`, what is written of a text by
//! each face in `ecma_faces`.
#![tactic(auto)]

pub mod faults;
pub mod report;
pub mod slashes;
pub mod unmet;
