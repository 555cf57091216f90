//! Gaps of which nothing is told but the flag, and words without escapes.
use ecma_place::{BytePos, StringInput};
use ecma_scan::{BlankGap, eat_plain_word, scan_blank_gap};

/// A text, whether no token came before, and what is told of the gap with which it begins.
type Row = (&'static str, bool, Option<(bool, u8)>);

const BLANK_GAPS: &[Row] = &[
    ("x", false, Some((false, b'x'))),
    ("x", true, Some((true, b'x'))),
    ("  \tx", false, Some((false, b'x'))),
    (" \n (", false, Some((true, b'('))),
    ("\u{a0}\u{2028};", false, Some((true, b';'))),
    ("-x", false, Some((false, b'-'))),
    ("\n-x", false, None),
    ("=x", true, None),
    (" >", false, Some((false, b'>'))),
    ("\r>", false, None),
    (" /", false, Some((false, b'/'))),
    ("\n/=", false, Some((true, b'/'))),
    (" //x\ny", false, None),
    (" /* */x", false, None),
    ("<", false, Some((false, b'<'))),
    ("<!--", false, None),
    ("é", false, None),
    ("", false, None),
    (" ", true, None),
];

/// The same where comments are not collected.
const UNCOLLECTED_GAPS: &[Row] = &[
    ("  \tx", false, Some((false, b'x'))),
    (" /=", false, Some((false, b'/'))),
    (" //x\ny", false, Some((true, b'y'))),
    (" /* */x", false, Some((false, b'x'))),
    ("/*\u{2028}*//**/ ;", false, Some((true, b';'))),
    ("/**/ //", true, None),
    ("/*a", false, None),
    ("/**/<!--", false, None),
    ("/*\r*/-->", false, None),
    ("/**/é", false, None),
];

/// Whether this is told of the gap with which a text begins.
fn is_told(text: &str, first: bool, collect: bool, told: Option<(bool, u8)>) -> bool {
    if !StringInput::fits(text, BytePos(0)) {
        return false;
    }
    let gap = scan_blank_gap(&mut StringInput::new(text, BytePos(0)), first, collect);
    gap == told.map(|(line_break, next)| BlankGap { line_break, next })
}

#[test]
fn reads_gaps_of_white_space(rt: HostRuntime) {
    for (text, first, told) in BLANK_GAPS {
        assert!(rt; is_told(*text, *first, true, *told), "{text}");
    }
}

#[test]
fn reads_gaps_with_comments_that_are_not_collected(rt: HostRuntime) {
    for (text, first, told) in UNCOLLECTED_GAPS {
        assert!(rt; is_told(*text, *first, false, *told), "{text}");
    }
}

/// A text, the word without escape with which it begins, if there is one, and where its part characters end.
const PLAIN_WORDS: &[(&str, Option<&str>, u32)] = &[
    ("let x", Some("let"), 3),
    ("été.", Some("été"), 5),
    ("of", Some("of"), 2),
    ("a$_1\u{200d}b-", Some("a$_1\u{200d}b"), 8),
    ("a\\u{62}", None, 1),
    ("\\u{62}", None, 0),
];

/// Whether a text begins with this word without escape, or with none, and its part characters end there.
fn is_read(text: &str, word: Option<&str>, end: u32) -> bool {
    if !StringInput::fits(text, BytePos(0)) {
        return false;
    }
    let mut input = StringInput::new(text, BytePos(0));
    let read = eat_plain_word(&mut input);
    input.cur_pos() == BytePos(end) && read.as_ref().map(|word| word.as_str()) == word
}

#[test]
fn reads_words_without_escapes(rt: HostRuntime) {
    for (text, word, end) in PLAIN_WORDS {
        assert!(rt; is_read(*text, *word, *end), "{text}");
    }
}
