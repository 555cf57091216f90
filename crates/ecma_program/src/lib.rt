//! The work of `ecma_lex`: its words, and what it writes of a text.
//!
//! `command` has the words, `particulars` those behind the command: options, and numbers of tokens. `rereads` has the
//! lexer behind the last token that is read again, and the tokens up to there; `lines` has the lines of tokens, `errors`
//! and `comments` those of theirs. `kept_tokens` has what is kept of the tokens, `canon` whether all is clean, and the
//! canonical text of what is kept, `classes` what is written of the pieces of what is kept and handed over; `program` is
//! the whole, and `standard_error` the explanation of a status.
//!
//! To add a command: `command.rt`, a module and a file of `specs/`, `specs/Command.antt`, `specs/Reply.antt`.
#![tactic(auto)]

mod canon;
mod classes;
pub mod command;
pub mod comments;
mod errors;
mod kept_tokens;
mod lines;
mod particulars;
pub mod program;
mod rereads;
mod standard_error;

pub use program::run;
pub use standard_error::explanation;
