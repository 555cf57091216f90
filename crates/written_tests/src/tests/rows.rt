//! Rows of tokens, comments and errors, and what calls answer.

mod canon;
mod comments;
mod errors;
mod imports;
mod requests;
mod tokens;
