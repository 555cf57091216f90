//! Readers of names and words.
//!
//! `name.rt` reads the text of a name, whose escapes `ecma_escape` reads; `word.rt` looks it up.
//!
//! `specs/NameParts.antt` says what the pieces of a name from a cursor on mean, what is reported of them, where reading
//! goes on, and the word of a name (`word_at`).
#![tactic(auto)]

pub mod name;
pub mod word;

pub use word::{eat_plain_kind, eat_plain_word, scan_word};
