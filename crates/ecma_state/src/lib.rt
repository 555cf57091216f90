//! A lexer's state between two reads: errors, answers, contexts; and the definition of a run.
//!
//! `mode.rt` has what a read goes by, `lookahead.rt` what the first characters say, `errors.rt` errors, `kept.rt` what
//! is kept of answers, and `state.rt`, with the contexts, what is kept between two reads; `settings.rt` and `step.rt`
//! have what a run is given. It passes on the public names of `ecma_comments` and `ecma_contexts`. `specs/` defines
//! sessions, steps and runs, and over them where a text is read to its end (`Ending.antt`), what an iterator gives
//! (`Items.antt`), where slashes stand (`Slashes.antt`), and which runs are clean (`Clean.antt`).
//!
//! To add a step: `step.rt`, `specs/Run.antt`, `specs/Counting.antt`; `ecma_replay`: `branch.rt`, `course.rt`,
//! `answer.rt`, a case in `ReplayLemmas.antt` and in the proof of `respond`; `replay_model`; `ecma_laws/specs`:
//! `Collecting.antt`, `Tiling.antt`, `ToldComments.antt`; `ecma_parts/specs/Instance.antt`; plain or not:
//! `specs/Clean.antt`, `ecma_canonical`: `watch.rt`, `specs/Watching.antt`;
//! `ecma_slashes/specs/Rereads.antt`; a case in nine `proofs/` of `ecma_laws`, five of `ecma_clean`, one of
//! `ecma_pieces`, `ecma_clean_reads`, `ecma_canonical`; `texts_tests`: `commands.rt`. Prove `ecma_state`, `ecma_laws`
//! to `ecma_canonical`, `ecma_slashes`, `replay_model`.
#![tactic(auto)]

pub mod error_list;
pub mod errors;
pub mod kept;
pub mod lookahead;
pub mod mode;
pub mod settings;
pub mod state;
pub mod step;

pub use ecma_comments::{
    BufferedComment, BufferedCommentKind, CommentsBuffer, attachment, comments_buffer,
};
pub use ecma_contexts::{TokenContext, TokenContexts, token_context, token_contexts};
pub use error_list::ErrorList;
pub use kept::Kept;
pub use settings::Settings;
pub use state::State;
pub use step::Step;
