//! Gaps and markers of bars: what stands behind a token, from its place on.
use super::written::{check, write_bars, write_gap};
use ecma_place::{BytePos, Span, StringInput};
use ecma_scan::{GapMode, scan_bars, scan_gap};
use ecma_syntax::BinOpToken;
use ecma_token::TokenKind;
use std::alloc::{AllocError, Global};
use std::test::Fail;

/// Behind a token of no known kind, no comments collected.
const QUIET: GapMode = GapMode {
    first: false,
    type_mode: false,
    keeps_space: false,
    template: false,
    prev: None,
    collect: false,
};

/// Before the first token.
const FIRST: GapMode = GapMode {
    first: true,
    ..QUIET
};

const QUIET_TEMPLATE: GapMode = GapMode {
    template: true,
    ..QUIET
};

/// Behind a token of no known kind, comments collected.
const BEHIND: GapMode = GapMode {
    collect: true,
    ..QUIET
};

const OPERATOR: GapMode = GapMode {
    prev: Some(TokenKind::BinOp(BinOpToken::Add)),
    ..BEHIND
};

const TYPES: GapMode = GapMode {
    type_mode: true,
    ..BEHIND
};

const KEPT: GapMode = GapMode {
    keeps_space: true,
    ..BEHIND
};

const TEMPLATE: GapMode = GapMode {
    template: true,
    ..BEHIND
};

/// What stands in the gap at the cursor, written.
fn gap_at(alloc: Global, input: &mut StringInput, mode: &GapMode) -> Result<String, AllocError> {
    let mut line = String::new(alloc);
    let lo = input.cur_pos();
    let gap = scan_gap(alloc, input, mode)?;
    let hi = input.cur_pos();
    write_gap(&mut line, &gap, Span { lo, hi })?;
    Ok(line)
}

/// What stands in the gap with which a text at a place begins, written.
fn gap_of(alloc: Global, text: &str, start: u32, mode: &GapMode) -> Result<String, AllocError> {
    let start = BytePos(start);
    if StringInput::fits(text, start) {
        gap_at(alloc, &mut StringInput::new(text, start), mode)
    } else {
        Ok(String::new(alloc))
    }
}

#[test]
fn reads_white_space_once(rt: HostRuntime) -> Result<(), Fail> {
    let text = " \u{a0}\n\u{2029}x";
    let mut input = StringInput::new(text, BytePos(0));
    let written = gap_at(rt.alloc(), &mut input, &QUIET);
    check(&rt, text, written, "0..7, line break")?;
    let written = gap_at(rt.alloc(), &mut input, &QUIET);
    check(&rt, text, written, "7..7")?;
    let written = gap_at(rt.alloc(), &mut input, &FIRST);
    check(&rt, text, written, "7..7, line break")
}

/// Each with the place where the text starts.
const HTML_LIKE: &[(&str, u32, &str)] = &[
    (
        "\n-->x\nb",
        1,
        "1..7, line break, next Line 5..6 borrowed \"x\", Module LegacyCommentInModule 2..5",
    ),
    (
        "<!--y\nz",
        1,
        "1..7, line break, Line 2..6 borrowed \"y\", Module LegacyCommentInModule 1..7",
    ),
    (
        "<!--y\n/*z",
        1,
        "1..10, line break, Line 2..6 borrowed \"y\", Always UnterminatedBlockComment 7..10, Module LegacyCommentInModule 1..10",
    ),
    // no line terminator stands before
    ("-->b", 1, "1..1"),
];

#[test]
fn reads_html_like_comments(rt: HostRuntime) -> Result<(), Fail> {
    for (text, start, line) in HTML_LIKE {
        check(&rt, text, gap_of(rt.alloc(), text, *start, &BEHIND), line)?;
    }
    Ok(())
}

const COMMENTS: &[(&str, u32, GapMode, &str)] = &[
    (
        "/*/",
        0,
        BEHIND,
        "0..3, Always UnterminatedBlockComment 0..3",
    ),
    (
        "/*\n*/b",
        1,
        BEHIND,
        "1..6, line break, next Block 1..6 borrowed \"\\n\"",
    ),
    // a block comment before a semicolon is never for the next token
    ("/*x*/ ;", 1, BEHIND, "1..7, Block 1..6 borrowed \"x\""),
    // a line comment behind a binary operator is for the next token
    ("//x", 1, OPERATOR, "1..4, next Line 1..4 borrowed \"x\""),
    ("//x\n/*y*/", 0, QUIET, "0..9, line break"),
];

#[test]
fn reads_comments(rt: HostRuntime) -> Result<(), Fail> {
    for (text, start, mode, line) in COMMENTS {
        check(&rt, text, gap_of(rt.alloc(), text, *start, mode), line)?;
    }
    Ok(())
}

/// A comment's end stands as the last of 32 bytes behind its opening, and as the first of the next.
const LONG_COMMENTS: &[(&str, &str)] = &[
    (
        "//abcdefghijklmnopqrstuvwxyzabcde\u{2028}x",
        "0..36, line break, Line 0..33 borrowed \"abcdefghijklmnopqrstuvwxyzabcde\"",
    ),
    (
        "//abcdefghijklmnopqrstuvwxyzabcdef\u{2028}x",
        "0..37, line break, Line 0..34 borrowed \"abcdefghijklmnopqrstuvwxyzabcdef\"",
    ),
    (
        "/*abcdefghijklmnopqrstuvwxyzabcde*/x",
        "0..35, next Block 0..35 borrowed \"abcdefghijklmnopqrstuvwxyzabcde\"",
    ),
    (
        "/*abcdefghijklmnopqrstuvwxyzabcdef*/x",
        "0..36, next Block 0..36 borrowed \"abcdefghijklmnopqrstuvwxyzabcdef\"",
    ),
];

#[test]
fn ends_comments_at_every_byte(rt: HostRuntime) -> Result<(), Fail> {
    for (text, line) in LONG_COMMENTS {
        check(&rt, text, gap_of(rt.alloc(), text, 0, &BEHIND), line)?;
    }
    Ok(())
}

const MARKERS: &[(&str, u32, GapMode, &str)] = &[
    (
        "\n=======\nb",
        1,
        BEHIND,
        "1..10, line break, next Line 5..9 borrowed \"\", Always TS1185 2..9",
    ),
    (
        "\n>>>>>>> x",
        0,
        BEHIND,
        "0..10, line break, next Line 4..10 borrowed \"x\", Always TS1185 1..8",
    ),
    (
        "\n<<<<<<< x",
        0,
        BEHIND,
        "0..10, line break, next Line 3..10 borrowed \" x\", Always TS1185 1..8",
    ),
    // under types `<` makes no marker
    ("\n<<<<<<< x\ny", 0, TYPES, "0..1, line break"),
    (" =======", 1, BEHIND, "1..2"),
];

#[test]
fn reads_conflict_markers(rt: HostRuntime) -> Result<(), Fail> {
    for (text, start, mode, line) in MARKERS {
        check(&rt, text, gap_of(rt.alloc(), text, *start, mode), line)?;
    }
    Ok(())
}

const KEPT_TEXTS: &[(&str, GapMode, &str)] = &[
    (" //x", KEPT, "0..0"),
    (
        "<!--x\n",
        KEPT,
        "0..6, line break, Line 1..5 borrowed \"x\", Module LegacyCommentInModule 0..6",
    ),
    ("<!--x\n", TEMPLATE, "0..0"),
    ("\n", QUIET_TEMPLATE, "0..0"),
];

#[test]
fn keeps_space(rt: HostRuntime) -> Result<(), Fail> {
    for (text, mode, line) in KEPT_TEXTS {
        check(&rt, text, gap_of(rt.alloc(), text, 0, mode), line)?;
    }
    Ok(())
}

/// Writes the marker of bars at the cursor and what stands behind it, if there is one.
fn write_bars_at(
    alloc: Global,
    line: &mut String,
    input: &mut StringInput,
) -> Result<(), AllocError> {
    let lo = input.cur_pos();
    let bars = scan_bars(alloc, input, &BEHIND)?;
    let hi = input.cur_pos();
    match &bars {
        Some(bars) => write_bars(line, bars, Span { lo, hi }),
        None => write!(line, "{}..{}, no bars", lo.0, hi.0),
    }
}

/// What stands in the marker of bars with which a text at the place 1 begins, written.
fn bars_of(alloc: Global, text: &str) -> Result<String, AllocError> {
    let mut line = String::new(alloc);
    if StringInput::fits(text, BytePos(1)) {
        let mut input = StringInput::new(text, BytePos(1));
        write_bars_at(alloc, &mut line, &mut input)?;
    }
    Ok(line)
}

const BARS: &[(&str, &str)] = &[
    (
        "||||||| base\ny",
        "1..14, line break, next Line 3..13 borrowed \" base\", Always TS1185 1..8, bars TS1185 1..8",
    ),
    (
        "||||||| \n/*x*/;",
        "1..15, line break, next Line 3..9 borrowed \" \", Block 10..15 borrowed \"x\", Always TS1185 1..8, bars TS1185 1..8",
    ),
    // an HTML-like comment stands behind them
    (
        "||||||| \n-->x",
        "1..10, line break, next Line 3..9 borrowed \" \", Always TS1185 1..8, bars TS1185 1..8",
    ),
    ("|||||||", "1..1, no bars"),
    ("|||||| x", "1..1, no bars"),
];

#[test]
fn reads_bars(rt: HostRuntime) -> Result<(), Fail> {
    for (text, line) in BARS {
        check(&rt, text, bars_of(rt.alloc(), text), line)?;
    }
    Ok(())
}
