//! A grammar of ECMAScript, and laws of its slashes.
//!
//! `specs/Grammar.antt` has the grammar, with ECMA-262's sections, over the tokens of `specs/Tokens.antt`, in which a
//! regular expression and a division are two kinds; `specs/Laws.antt` says that a track gives each slash of what it
//! derives its one role, and `specs/Samples.antt` has programs that it derives, and some that it does not.
//!
//! Its proofs: where a track is while a production is read (`Places.antt`), runs of tokens (`Runs.antt`), the rows
//! where something begins, goes on and ends (`Starts.antt`, `Behind.antt`, `LineEnds.antt`), a lemma for each form of
//! production in files by their subjects, and all together by induction (`Whole.antt`).
#![tactic(auto)]

pub mod laws;
