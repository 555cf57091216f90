//! A run as rows of numbers, for callers that know no enums and own all memory.
//!
//! All of the static library's work is here, over ordinary types: `bits.rt` has the options of a sum of numbers,
//! `request.rt` judges options, places and bytes, and opens the reader of the text, `room.rt` writes rows, `tokens.rt`,
//! `comments.rt` and `errors.rt` have the rows and the calls, which write while they read, with no list of steps or
//! tokens, `module_rows.rt` the rows of imports and exports, `imports.rt` their call, `canon.rt` the canonical text,
//! `outcome.rt` the statuses.
//!
//! `specs/Told.antt` says what is reported, `written` what is in the room then; `proofs/RowLemmas.antt` that the row of
//! one token more is written, `proofs/ErrorLemmas.antt` that each message is behind the one before it.
#![tactic(auto)]

mod bits;
mod canon;
mod comments;
mod errors;
mod imports;
mod module_rows;
mod outcome;
mod request;
mod room;
mod tokens;

pub use bits::options_of_bits;
pub use canon::write_canonical;
pub use comments::{CommentRow, write_comments};
pub use errors::{ErrorRow, write_errors};
pub use imports::{ModuleAnswer, write_imports};
pub use module_rows::{ExportRow, ImportRow};
pub use outcome::{Answer, Status};
pub use tokens::{TokenRow, count_tokens, write_tokens};
