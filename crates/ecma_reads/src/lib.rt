//! Lemmas of one read: what it finds, how far it comes, that reads come to the end of a text, and where slashes stand.
//!
//! A token's spelling is the front of the text (`FrontLemmas.antt`); what a read finds that does not allocate
//! (`TokenLemmas.antt`, `ReadingLemmas.antt`); the kinds of tokens at a place (`PlacedKinds.antt`); how far a read comes
//! (`EndLemmas.antt`, `ProgressLemmas.antt`); reads come to the end of a text (`EndingLemmas.antt`, `ItemLemmas.antt`); a
//! slash stands where one was answered (`SlashLemmas.antt`).
//!
//! What those above name of `ecma_scan` is passed on.
#![tactic(auto)]

pub use ecma_scan::{
    Bars, Blame, BlankGap, Found, GapMode, PlainTemplate, PunctuatorKind, alone_kind, blank_gap,
    eat_plain_kind, eat_plain_number, eat_plain_string, eat_plain_template, eat_punctuator, found,
    gap_mode, punctuator_kind, scan_bars, scan_blank_gap, scan_gap, scan_number, scan_punct,
    scan_regexp, scan_shebang, scan_string, scan_template, scan_word, skip_white_space,
    stands_alone,
};
