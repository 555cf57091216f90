//! The lexer's grammar in parts: what a read of code, of template text, of a shebang or from a slash finds, apart from
//! places, as clean runs over any grammar see it; and that these parts keep the laws which the theorem over grammars
//! asks for. What `ecma_clean_reads` names of `ecma_reads` is passed on.
#![tactic(auto)]

pub use ecma_reads::found;
