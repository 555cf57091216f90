//! Facade of the readers: each reads one kind of text from a cursor on.
//!
//! It passes on the readers of gaps, numbers, escapes, words, strings, templates, regular expressions, punctuators and
//! shebangs. A reader takes a cursor and the mode of the read, and returns what it found, with each error in order; the
//! cursor is then behind it. Promised: value, extent and errors are those of its definition (docs/GRAMMAR.md); after
//! `AllocError` the cursor is where it was. `ecma_punctuator/specs/PunctuatorKinds.antt` says which token a kind of punctuator is
//! (`kind_token`). The laws of several parts are in `ecma_grammar_laws`.
#![tactic(auto)]

pub use ecma_escape::scan_escape;
pub use ecma_gap::{
    Bars, BlankGap, Gap, SkipWhitespace, bars, blank_gap, gap, scan_bars, scan_blank_gap, scan_gap,
    skip_white_space, skip_whitespace, white_space,
};
pub use ecma_grammar::{Blame, Found, GapMode, found, gap_mode};
pub use ecma_name::{eat_plain_kind, eat_plain_word, scan_word, word};
pub use ecma_number::{eat_plain_number, number, scan_number};
pub use ecma_punctuator::{
    PunctuatorKind, alone, alone_kind, eat_punctuator, punctuator, punctuator_kind, scan_punct,
    scan_shebang, shebang, stands_alone,
};
pub use ecma_regexp::{expression, scan_regexp};
pub use ecma_string::{eat_plain_string, scan_string, string};
pub use ecma_template::{PlainTemplate, eat_plain_template, scan_template, template};
