//! Facade of the lexer layer: the lexer, lists of steps, and the laws of both.
//!
//! Begin with [`tokenize`] for all tokens of a text, [`Reader`] for a loop over them, [`Tracked`] to look ahead without a
//! parser, [`Lexer`] under one, [`replay`] for a list of steps, [`canonical`] for canonical texts, [`classes_of_steps`]
//! for pieces that cover a text. docs/GUIDE.md has examples, docs/GUARANTEES.md what is promised of each call. The calls
//! in `laws` do nothing: their contracts are what holds of every run.
#![tactic(auto)]

pub mod laws;

pub use ecma_canonical::{Canon, canonical, canonical_text, clean_text, joined};
pub use ecma_classes::{Class, Piece, classes, piece};
pub use ecma_names::{comment_name, piece_name, side_name};
pub use ecma_pieces::classes_of_steps;
pub use ecma_place as place;
pub use ecma_positions::{LineStarts, Position};
pub use ecma_reader::{LexOutput, Outcome, ReadOut, Reader, read_out, tokenize};
pub use ecma_replay::{
    Answer, Gathered, Replay, answer, gather, gathered, replay, replayed, runner,
};
pub use ecma_resuming::{begin_of, resume};
pub use ecma_scan as scan;
pub use ecma_slashes::{
    Decider, Slashes, add_steps_by, add_steps_to_end, ascend, count_rereads, read_by, read_by_flag,
    read_deciding, read_telling, steps_by, steps_by_flag,
};
pub use ecma_state::{
    BufferedComment, BufferedCommentKind, CommentsBuffer, ErrorList, Kept, Settings, State, Step,
    TokenContext, TokenContexts, comments_buffer, error_list, kept, mode, settings, state, step,
    token_context, token_contexts,
};
pub use ecma_stored as stored;
pub use ecma_stream::{
    Checkpoint, CommentList, Counts, Lexer, Slot, Tokens, comment_list, hand_comments, lexer,
    tokens,
};
pub use ecma_syntax as syntax;
pub use ecma_token as token;
pub use ecma_tracked::{Tracked, TrackedCheckpoint};
