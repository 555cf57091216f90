//! Whole texts, token by token: a reader over which each caller has a short loop.
//!
//! Begin with [`tokenize`], or with [`Reader`] for a loop of one's own over `read_into`. Promised: the tokens are those
//! that `gather` keeps of the steps of `ecma_slashes`; each loop ends.
//!
//! `reader.rt` reads a text to its end by a rule of slashes, token by token and with no list of steps, and leaves
//! errors, comments, whether the end was reached, and how many slashes were read again. `tokens.rt` keeps the tokens;
//! `error_tokens.rt` also returns the errors of the tokens that are one. What a caller names of `ecma_slashes` and
//! `ecma_replay` is passed on.
//!
//! `specs/Readers.antt` says which session a reader shows: that behind the first tokens (`Shows`), and at the end that
//! behind all (`HasRead`). `proofs/FoldLemmas.antt` is the law of loops: a loop that adds what each token yields has at
//! the end what all tokens yield, for a list by `map` or `flat_map`, or whatever else holds of the tokens so far
//! (`Tells`).
#![tactic(auto)]

mod error_tokens;
mod reader;
mod tokens;

pub use ecma_replay::{Gathered, gather};
pub use ecma_slashes::{Expected, Slashes, ascend};
pub use error_tokens::{ReadOut, read_out, take_error};
pub use reader::{Outcome, Reader};
pub use tokens::{LexOutput, tokenize};
