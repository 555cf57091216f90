//! Places, spans, texts of tokens, and comments: what is shown of a text, without the text.
//!
//! A [`BytePos`] is the place where a text starts plus a byte offset. [`Atom`] is a text that is a slice of the source or
//! owned, and [`Comments`] is the store that comments are handed to. Only a copy of an owned text allocates. `ecma_place`
//! passes all on.
#![tactic(auto)]

pub mod atom;
pub mod comment;
pub mod place;

pub use atom::Atom;
pub use comment::{Comment, CommentKind, Comments};
pub use place::{BytePos, Span, Spanned};
