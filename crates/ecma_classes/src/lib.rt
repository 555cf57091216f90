//! Pieces that cover a text: each token, each comment that lies in none, and what is left between them.
//!
//! [`classes`] gives the pieces in a list, [`Cover`] one at a time. Both need of the lexer only what it keeps of tokens
//! and comments. Promised: the pieces are in order, none is empty, and joined they are the text.
//!
//! `marks.rt` sorts the comments by place (a stable sort) and merges the tokens, which come in order, with them, one mark
//! at a time: a token first where both begin at one place. Marks without a byte are left out. `cover.rt` goes through the
//! marks once, passes those inside a token and fills what is left with trivia; `piece.rt` says what a piece is.
//! `specs/Classes.antt` says which pieces these are, with no loop.
#![tactic(auto)]

mod cover;
mod marks;
pub mod piece;

pub use cover::{Cover, classes};
pub use piece::{Class, Piece};
