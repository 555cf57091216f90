//! Laws of brackets: what is within them ends with them.
//!
//! `specs/Brackets.antt` says which tokens are balanced, and that behind them the frames outside are as they were. Its
//! proofs: what frames enclose (`Frames.antt`), what a row needs to be right (`Right.antt`), that each row is
//! (`RowsRight.antt`), that each move then opens and closes what its token does (`Changes.antt`, `MovesSound.antt`,
//! `MovesRight.antt`), so each token (`Taken.antt`, `Steps.antt`), and balanced ones (`Texts.antt`, `Balance.antt`).
#![tactic(auto)]

pub mod laws;
