//! Tests of the state of a lexer and its parts.
mod comment_lists;
mod contexts;
mod deep_contexts;
mod error_lists;
