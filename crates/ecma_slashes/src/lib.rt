//! Reading with no parser above: which slashes begin regular expressions.
//!
//! [`Slashes`] has the rules: the lexer's own flag, named places, or what the tokens before expect. Call [`steps_by`]
//! for the steps that read a text, [`read_by`] or [`read_deciding`] for one token. Promised: a read is the steps Read,
//! or Reread, Read, Withdraw, of the run; every text is read to its end.
//!
//! `reads.rt` reads a token, and where it is a slash that begins a regular expression, reads it again and withdraws
//! that step. `by_flag.rt` has the calls for the flag alone, `slashes.rt` finds places and numbers by std's binary
//! search, and `decider.rt` has a track of the tokens so far. `specs/Rereads.antt` says which steps of the run these
//! are, and those of a whole text.
//!
//! Its proofs: a slash that is read again leaves less than was there before it (`FewerLemmas.antt`), the three steps
//! that read it again (`RereadLemmas.antt`), what one token takes (`TokenLemmas.antt`), that whole runs end and are
//! lists of steps in which each counts (`RunLemmas.antt`), of plain steps (`PlainRuns.antt`), that places are found
//! (`SlashLemmas.antt`), that a track goes on with the session (`RoleLemmas.antt`, `DecidingLemmas.antt`), and that as
//! many rereads as places are one at each place (`MetLemmas.antt`).
#![tactic(auto)]

mod alone;
mod by_flag;
mod decider;
mod entry;
pub mod laws;
mod reads;
mod slashes;

pub use alone::{add_steps_by, read_by, read_telling};
pub use by_flag::{add_steps_to_end, read_by_flag, steps_by_flag};
pub use decider::{Decider, Expected};
pub use ecma_stream::{Lexer, Tokens};
pub use entry::enter;
pub use reads::{count_rereads, read_deciding, steps_by};
pub use slashes::{Slashes, ascend};
