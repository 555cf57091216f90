//! Collected comments, their tokens, and handing over.
//!
//! `comments_buffer.rt` has the comments that a lexer collects, `attachment.rt` the token that each belongs to,
//! `shared_comments.rt` what copies of a lexer share of them, and `hand_over.rt` hands them to a store.
//!
//! To change whose a comment is: `ecma_grammar/specs/Comments.antt`, `ecma_gap`: `for_next.rt`; side and place:
//! `attachment.rt`, `specs/Attachment.antt`; `state_rows/proofs/AttachmentRows.antt`,
//! `grammar_rows/proofs/CommentRows.antt`. Prove `ecma_grammar`, `ecma_gap`, `ecma_comments`, `ecma_state`,
//! `ecma_laws`, `ecma_pieces`.
#![tactic(auto)]

pub mod attachment;
pub mod comment_list;
pub mod comments_buffer;
mod hand_over;
mod shared_comments;

pub use attachment::Around;
pub use comment_list::CommentList;
pub use comments_buffer::{BufferedComment, BufferedCommentKind, CommentsBuffer};
