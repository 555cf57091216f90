//! Definitions and laws of tracks: what is expected next in a text, by its tokens alone.
//!
//! `specs/Track.antt` says what one token more leads to, `specs/Slashes.antt` what is expected there. `specs/Rank.antt` has a
//! rank of states, which falls each time that a token is read again (`proofs/RowRanks.antt`, row by row, and
//! `RankLemmas.antt`), so that eight readings are enough. `ecma_roles` has the code.
#![tactic(auto)]

pub mod laws;
