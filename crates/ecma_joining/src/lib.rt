//! How joined tokens read again: tokens of code are read again in front of a space, a line feed or the end, one such
//! character is the whole gap before them, and a run whose contexts are its own keeps them plain.
#![tactic(auto)]

pub mod laws;
