//! Reads to refuse memory in: the ways in which a token is asked for, played over texts of which something allocates, a
//! line for each answer.
//!
//! `reading` reads texts to their end (`asked` has the ways to ask for a token, `going_back` that by checkpoints), `many` reads
//! texts of many comments, `rows` has the texts, and `told` what is written.
pub mod asked;
pub mod going_back;
pub mod many;
pub mod reading;
pub mod rows;
pub mod told;
