//! Laws of canonical texts without a parser: of texts that are read to their end by the lexer's own flag, by roles, or
//! by numbers of tokens.
#![tactic(auto)]

pub mod laws;
