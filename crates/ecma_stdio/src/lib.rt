//! Standard input and output of programs.
//!
//! `command_line` has the words, their numbers, and the exit code; `input` reads all, within a number of turns, and
//! judges whether it is a text; `output` writes, counts what went out, and writes what was made or the line of a fault;
//! `escaped` writes bytes so that they are in one line; `decimal` writes numbers straight into what is written; `fault`
//! has the statuses and their lines; `watched` remembers why a read or a write failed.
//!
//! Promised: `words` are the arguments but the first, `number` reads a number, `exit_code` is the status
//! (`exit_without_words` 5, without memory for the words); `read_all` returns all that the reader had, `text_of` the
//! text or its fault, `send` and `answer` how much went out; `push_escaped` adds the bytes of its definition; a
//! `Watched` reads and writes what that in it does.
//!
//! `proofs/Runs.antt` has the lemmas of a loop that adds bytes in runs, between those that something else is written
//! for; `ecma_html` and `ecma_report` cite them where they escape.
#![tactic(auto)]

pub mod command_line;
pub mod decimal;
pub mod escaped;
pub mod fault;
pub mod input;
pub mod output;
pub mod watched;

pub use command_line::{arguments, exit_code, exit_without_words, number, words};
pub use decimal::{push_number, push_pair};
pub use escaped::push_escaped;
pub use fault::{Fault, Halt};
pub use input::{MOST_TURNS, read_all, text_of};
pub use output::{FAILED, answer, send, send_fault};
pub use watched::Watched;
