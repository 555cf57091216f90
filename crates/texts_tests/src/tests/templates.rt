//! Rows over templates, and over contexts that a text begins in.
use super::listed::assert_listings;
use ecma_state::TokenContext;
use listing::listing::{PLAIN, Row, Settings};
use std::test::Fail;

pub(super) const ROWS: &[Row] = &[
    (
        PLAIN,
        "`a${b}c`",
        "0..1 lf BackQuote; 1..2 - Template [a] [a]; 2..4 - DollarLBrace; 4..5 - name [b]; 5..6 - RBrace; \
         6..7 - Template [c] [c]; 7..8 - BackQuote",
    ),
    (
        PLAIN,
        "``",
        "0..1 lf BackQuote; 1..1 - Template [] []; 1..2 - BackQuote",
    ),
    (
        PLAIN,
        "`${`x`}`",
        "0..1 lf BackQuote; 1..1 - Template [] []; 1..3 - DollarLBrace; \
         3..4 - BackQuote; 4..5 - Template [x] [x]; 5..6 - BackQuote; \
         6..7 - RBrace; 7..7 - Template [] []; 7..8 - BackQuote",
    ),
    (PLAIN, "`", "0..1 lf BackQuote; inside Tpl BraceStmt"),
    (
        PLAIN,
        "` ",
        "0..1 lf BackQuote; 1..2 - Error 0..2 Unterminated template; inside Tpl BraceStmt",
    ),
];

/// What template texts mean, or why they mean nothing.
pub(super) const COOKED_ROWS: &[Row] = &[
    (
        PLAIN,
        "`a\nb`",
        "0..1 lf BackQuote; 1..4 lf Template [a\nb] [a\nb]; 4..5 - BackQuote",
    ),
    (
        PLAIN,
        "`a\r\nb`",
        "0..1 lf BackQuote; 1..5 lf Template [a\r\nb] owned [a\nb]; 5..6 - BackQuote",
    ),
    (
        PLAIN,
        "`\\u{110000}`",
        "0..1 lf BackQuote; 1..11 - Template [\\u{110000}] refused 1..10 \
         Bad character escape sequence, expected 1-6 hex characters in the range 0 to 10FFFF.; \
         11..12 - BackQuote",
    ),
];

const BETWEEN_TAGS: Settings = Settings {
    contexts: Some(&[TokenContext::JSXExpr]),
    ..PLAIN
};

const IN_TEMPLATE: Settings = Settings {
    contexts: Some(&[TokenContext::Tpl]),
    ..PLAIN
};

pub(super) const INSIDE_ROWS: &[Row] = &[
    // Space is kept between tags.
    (
        BETWEEN_TAGS,
        " a",
        "0..1 lf Error 0..0 Unexpected character ' '; 1..2 - name [a]; inside JSXExpr",
    ),
    // The text of a template may stand first.
    (
        IN_TEMPLATE,
        "x`",
        "0..1 lf Template [x] [x]; 1..2 - BackQuote; inside",
    ),
    // Text that no back quote opened may meet the end.
    (
        IN_TEMPLATE,
        "x",
        "0..1 lf Error 0..1 Unterminated template; inside Tpl",
    ),
];

#[test]
fn reads_templates(rt: HostRuntime) -> Result<(), Fail> {
    assert_listings(&rt, rt.alloc(), ROWS)
}

#[test]
fn cooks_template_texts(rt: HostRuntime) -> Result<(), Fail> {
    assert_listings(&rt, rt.alloc(), COOKED_ROWS)
}

#[test]
fn begins_inside_of_contexts(rt: HostRuntime) -> Result<(), Fail> {
    assert_listings(&rt, rt.alloc(), INSIDE_ROWS)
}
