//! What is expected next in a text, by its tokens alone: where a slash begins a regular expression.
//!
//! Begin with [`Track`]: `track.rt` takes in one token after another, which is read again as long as a row of the table
//! says so. Promised: a step is the table's. `fast.rt`, and of words `fast_word.rt`, take in at once what most of real
//! code consists of, without the table; `slash.rt` says where a slash begins a regular expression.
//!
//! `ecma_role_tracks` says what one token more leads to, and what is expected there; `specs/Fast.antt` what is taken in at
//! once, and `proofs/FastLemmas.antt` and `FastWordLemmas.antt` have the rows of the table for it.
#![tactic(auto)]

mod fast;
mod fast_word;
mod slash;
pub mod track;

pub use ecma_role_table::part::{Part, PartKind};
pub use ecma_role_tracks::laws;
pub use track::Track;
