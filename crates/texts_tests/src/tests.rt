//! Rows of texts. Of a lexer and of replayed reads: listings, and the beginnings of their texts. Of other steps: what
//! they answer and come to. Of readers: slashes by each rule, comments. Of tokens: canonical texts, pieces, classes of
//! words.
mod agreement;
mod attached;
mod beginnings;
mod canonical;
mod code;
mod commands;
mod comments;
mod depths;
mod errors;
mod gaps;
mod listed;
mod numbered;
mod numbers;
mod pieces;
mod reader_texts;
mod replays;
mod roles;
mod slashes;
mod strings;
mod styles;
mod templates;
mod texts;
mod told;
mod words;
