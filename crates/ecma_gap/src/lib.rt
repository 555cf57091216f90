//! Readers of white space, comments and markers: of all that comes between tokens.
//!
//! `blank_gap.rt` passes most gaps: white space, and where comments are not collected, closed comments
//! (`plain_comments.rt`). `gap.rt` passes white space and reads an element (`element.rt`) by turns; `so_far.rt` has
//! what was read so far, with the `<!--` whose error is still to come; `for_next.rt` says for which token a comment is,
//! and looks for a `;` last, as that scans ahead; `bars.rt` reads a marker of bars by the same parts.
//!
//! `specs/BlankGaps.antt` says which gap between two cursors is white space alone (`IsBlankGap`) and with which
//! characters another element may begin (`may_begin`); `specs/GapRecords.antt` what was read of a gap so far
//! (`GapSoFarView`), what an element adds to it (`with_element`), and what callers see of a gap and of bars
//! (`gap_view`, `bars_view`).
//!
//! To change which comments there are: `ecma_grammar`: `specs/Gaps.antt`, `specs/Comments.antt`, `specs/Telling.antt`,
//! cases in `proofs/GapForms.antt`, `proofs/GapLaws.antt`, `proofs/SignLemmas.antt`, `proofs/TellingLaws.antt`; here
//! `element.rt`, `marker.rt`, `gap.rt`, `specs/BlankGaps.antt` and six proofs; `ecma_grammar_laws/proofs/CommentLaws.antt`,
//! `ecma_pieces/proofs/ElementPlaces.antt`. Prove `ecma_grammar`, `ecma_gap`, `ecma_grammar_laws`, `ecma_laws`,
//! `ecma_pieces`.
#![tactic(auto)]

pub mod bars;
pub mod blank_gap;
mod comment;
mod element;
mod for_next;
pub mod gap;
mod marker;
mod plain_comments;
pub mod skip_whitespace;
mod so_far;
pub mod white_space;

pub use bars::{Bars, scan_bars};
pub use blank_gap::{BlankGap, scan_blank_gap};
pub use gap::{Gap, scan_gap};
pub use skip_whitespace::SkipWhitespace;
pub use white_space::skip_white_space;
