//! Laws of the written grammar: where comments lie, and that what begins a token begins no gap.
//!
//! White space continues no word (`CharacterLaws.antt`), the comments of a gap lie in it, in order (`CommentLaws.antt`), and no
//! string, word, shebang or regular expression begins a gap (`SeparationLaws.antt`).
#![tactic(auto)]
