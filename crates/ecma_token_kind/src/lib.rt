//! Kinds of tokens: what a token is, without its text.
//!
//! A [`TokenKind`] is asked what may come beside its token, and its `Display` is its name ([`TokenKind::name`]). Nothing here
//! allocates. Promised: each question is its table in `specs/Questions.antt`, each name that in `specs/KindNames.antt`.
//! `ecma_token` passes all on. The words and operators in kinds are those of `ecma_word`.
#![tactic(auto)]

pub mod kind;
mod kind_name;

pub use ecma_word::{AssignOp, BinOpToken, Word, WordKind};
pub use kind::TokenKind;
