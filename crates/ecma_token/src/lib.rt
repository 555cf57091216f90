//! Tokens, their kinds, and errors.
//!
//! The lexer returns [`Token`], [`TokenAndSpan`] and [`Error`]. Match on a token, or ask its [`TokenKind`], which is that of
//! `ecma_token_kind`; `Error::kind` and `SyntaxError::msg` are what is wrong, in words. Promised: messages and debug texts are
//! the tables of `specs/`; a copy looks like its source, and allocates only for what is owned.
//!
//! The parser's errors with fixed messages are in `ecma_fixed`; `names.rt` has a constant of `SyntaxError` for each.
//! Tokens and errors hold each other through boxes, so their copies and texts are proved together; contracts see them
//! through a view without boxes and spare capacity.
//!
//! To change a message: `message.rt`, `specs/Messages.antt`, or `ecma_fixed`: `fixed.rt`, `specs/Fixed.antt`; rows that
//! quote it: `ecma_refusals/stdout` and tests (`written_tests` counts its bytes). Prove `ecma_token`.
#![tactic(auto)]

pub mod error;
mod message;
mod names;
mod quoted;
pub mod token;

pub use ecma_fixed::FixedError;
pub use ecma_token_kind::{TokenKind, kind};
pub use error::{Error, SyntaxError};
pub use token::{Radix, Token, TokenAndSpan};
