//! The lexer: a stream of tokens, and what a parser asks of it.
//!
//! Begin with [`Lexer::new`]; [`Lexer::read`] returns a token, [`Tokens`] is what upstream's parser asks for. Promised:
//! each call is a step of the run that `specs/` of `ecma_state` defines. From the first refused allocation on, reads
//! return `AllocError`, until the lexer goes back to a checkpoint of before.
//!
//! `lexer.rt` puts the layers together: the fork of a read (`lexer/fork.rt`), its arms (`lexer/arms.rt`,
//! `lexer/template.rt`), going back and going on (`lexer/checkpoint.rt`, over the `Checkpoint` of `ecma_checkpoint`),
//! the handing over of comments (`hand_over.rt`), and what a parser asks of it (`tokens.rt`). A lexer is never before
//! the back quote of its last template, which `scan_template` requires.
#![tactic(auto)]

mod hand_over;
pub mod lexer;
pub mod tokens;

pub use ecma_checkpoint::{Checkpoint, Counts};
pub use ecma_comments::{CommentList, comment_list};
pub use ecma_slot::Slot;
pub use hand_over::hand_comments;
pub use lexer::Lexer;
pub use tokens::Tokens;
