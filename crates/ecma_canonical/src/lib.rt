//! Canonical texts: the characters of the tokens that steps keep, with as little between them as separates them.
//!
//! Call [`canonical`]. Promised: where the run is clean, the text is read by the same steps to the same tokens, and is
//! its own canonical text; texts with the same tokens have the same one. `ecma_joined` joins kept tokens, `clean_text.rt`
//! replays, judges and joins, `clean_gathered.rt` judges and joins what was gathered of steps that are plain,
//! `watch.rt` goes by steps and says whether they are plain.
#![tactic(auto)]

mod clean_gathered;
pub mod clean_text;
mod watch;

pub use clean_gathered::canonical_of_gathered;
pub use clean_text::{Canon, canonical, has_no_error};
pub use ecma_joined::{between, canonical_text, joined};
