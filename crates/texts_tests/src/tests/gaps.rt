//! Rows over gaps: white space, comments, conflict markers.
use super::listed::assert_listings;
use listing::listing::{IGNORING, MODULE, PLAIN, Row, TYPES};
use std::test::Fail;

pub(super) const ROWS: &[Row] = &[
    (PLAIN, "", ""),
    (PLAIN, " \t\n", ""),
    (PLAIN, "a\nb", "0..1 lf name [a]; 2..3 lf name [b]"),
    (
        PLAIN,
        "a\u{e9} b",
        "0..3 lf name [a\u{e9}]; 4..5 - name [b]",
    ),
    (PLAIN, "a\u{2028}b", "0..1 lf name [a]; 4..5 lf name [b]"),
    (PLAIN, "a\u{85}b", "0..1 lf name [a]; 3..4 - name [b]"),
    (PLAIN, "\u{feff}a", "3..4 lf name [a]"),
    (PLAIN, "a/*\n*/b", "0..1 lf name [a]; 6..7 lf name [b]"),
    (PLAIN, "/*/", "recorded 0..3 Unterminated block comment"),
];

/// Comments as in HTML count against module code.
pub(super) const HTML_LIKE_ROWS: &[Row] = &[
    (
        PLAIN,
        "a\n-->x\nb",
        "0..1 lf name [a]; 7..8 lf name [b]; waiting 2..5 Legacy comments cannot be used in module code",
    ),
    (
        PLAIN,
        "x<!--y\nz",
        "0..1 lf name [x]; 7..8 lf name [z]; waiting 1..7 Legacy comments cannot be used in module code",
    ),
    (
        PLAIN,
        "x<!--y\n/*z",
        "0..1 lf name [x]; recorded 7..10 Unterminated block comment; \
         waiting 1..10 Legacy comments cannot be used in module code",
    ),
    (
        MODULE,
        "a\n-->x\nb",
        "0..1 lf name [a]; 7..8 lf name [b]; recorded 2..5 Legacy comments cannot be used in module code",
    ),
    (IGNORING, "a /*x", "0..1 lf name [a]"),
];

pub(super) const MARKER_ROWS: &[Row] = &[
    (
        PLAIN,
        "\n||||||| base\ny",
        "1..14 lf Error 1..8 Merge conflict marker encountered.; 14..15 - name [y]; \
         recorded 1..8 Merge conflict marker encountered.",
    ),
    (
        PLAIN,
        "a\n=======\nb",
        "0..1 lf name [a]; 10..11 lf name [b]; recorded 2..9 Merge conflict marker encountered.",
    ),
    (
        PLAIN,
        "a =======",
        "0..1 lf name [a]; 2..5 - BinOp(EqEqEq); 5..8 - BinOp(EqEqEq); 8..9 - AssignOp(Assign)",
    ),
    (
        PLAIN,
        "\n|||||||",
        "1..3 lf BinOp(LogicalOr); 3..5 - BinOp(LogicalOr); 5..7 - BinOp(LogicalOr); 7..8 - BinOp(BitOr)",
    ),
    // Among types there is no marker, and `<` stands alone.
    (
        TYPES,
        "\n<<<<<<< x\ny",
        "1..2 lf BinOp(Lt); 2..3 - BinOp(Lt); 3..4 - BinOp(Lt); 4..5 - BinOp(Lt); 5..6 - BinOp(Lt); \
         6..7 - BinOp(Lt); 7..8 - BinOp(Lt); 9..10 - name [x]; 11..12 lf name [y]",
    ),
];

#[test]
fn reads_gaps(rt: HostRuntime) -> Result<(), Fail> {
    assert_listings(&rt, rt.alloc(), ROWS)
}

#[test]
fn reads_html_like_comments(rt: HostRuntime) -> Result<(), Fail> {
    assert_listings(&rt, rt.alloc(), HTML_LIKE_ROWS)
}

#[test]
fn reads_conflict_markers(rt: HostRuntime) -> Result<(), Fail> {
    assert_listings(&rt, rt.alloc(), MARKER_ROWS)
}
