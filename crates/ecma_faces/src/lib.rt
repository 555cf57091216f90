//! What `ecma` writes of a text, while the text is read.
//!
//! `telling.rt` has the call, `tell`, whose contract says for each face what is written. `tokens.rt` (with `values.rt`),
//! `comments.rt`, `imports.rt` and `canonical.rt` have a loop over a `Reader` each, and `errors.rt` what these tell of
//! errors. `whole.rt` has the faces that need all tokens first, and `html.rt` writes one of these, HTML, a piece at a time.
//! The rows of a report and the face of errors are in `ecma_report`, the words of the command in `ecma_command`.
#![tactic(auto)]

mod canonical;
mod comments;
mod errors;
mod html;
mod imports;
pub mod telling;
mod tokens;
mod values;
mod whole;
