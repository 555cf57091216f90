//! The reader of escapes.
//!
//! `escape.rt` reads an escape into a `Copy` meaning that owns nothing; strings, names and template texts read theirs
//! by it.
//!
//! `specs/EscapeMeanings.antt` and `EscapeParts.antt` say which escape has a meaning of this reader (`answered`), and
//! the text and the errors of a meaning; `PieceParts.antt` what the pieces of a string or a name from a cursor on mean, what
//! is reported of them, and where reading goes on. `proofs/` has the lemmas of strings, some of which names share.
//!
//! To change an escape rule: a character: `single_value` in `ecma_grammar/specs/Escapes.antt` and `escape.rt`; a form
//! also `specs/EscapeMeanings.antt`, `specs/EscapeParts.antt`. Prove `ecma_grammar`, `ecma_escape`, `ecma_name`,
//! `ecma_string`, `ecma_template`, `ecma_joining`.
#![tactic(auto)]

pub mod escape;

pub use escape::scan_escape;
