//! Texts, places and characters: what every layer of the lexer is built on.
//!
//! Begin with [`StringInput::new`], a cursor in a text whose places fit 32 bits ([`StringInput::fits`]); [`CharExt`] has the
//! character sets of ECMA-262. Nothing here allocates. `ecma_span` is passed on, with places, [`Atom`] and [`Comments`].
//!
//! Promised: each call of a cursor is a function of its text and place, proved to equal its definition in
//! `specs/Cursor.antt`; no place wraps and no offset leaves a character's boundary.
//!
//! Contracts see a text with a start, its characters, and how many of them are before the cursor, never an offset or
//! UTF-8. The rules of `proofs/RunLemmas.antt` prove a scanner loop. `run_bytes` and the lanes of `chunk` look at 32
//! and 16 bytes at a time, under contracts that count one byte at a time.
#![tactic(auto)]

pub mod character;
pub mod input;
pub mod run;

pub use character::CharExt;
pub use ecma_span::{
    Atom, BytePos, Comment, CommentKind, Comments, Span, Spanned, atom, comment, place,
};
pub use input::StringInput;
pub use run::{ByteClass, Quote, part_lanes, plain_lanes, template_lanes, white_lanes};
