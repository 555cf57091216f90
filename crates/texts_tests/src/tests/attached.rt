//! Rows of the lexer that collects comments: what each comment of a text belongs to.
use super::listed::assert_listings;
use listing::listing::{COLLECTING, Row};
use std::test::Fail;

pub(super) const ROWS: &[Row] = &[
    (
        COLLECTING,
        "/**/a",
        "4..5 lf name [a]; leading 4 0..4 Block []",
    ),
    (
        COLLECTING,
        "f() /*a*/ //b",
        "0..1 lf name [f]; 1..2 - LParen; 2..3 - RParen; trailing 3 10..13 Line [b]; trailing 3 4..9 Block [a]",
    ),
    (
        COLLECTING,
        "a; /*b*/ c",
        "0..1 lf name [a]; 1..2 - Semi; 9..10 - name [c]; trailing 2 3..8 Block [b]",
    ),
    (
        COLLECTING,
        "a + /*b*/;",
        "0..1 lf name [a]; 2..3 - BinOp(Add); 9..10 - Semi; trailing 3 4..9 Block [b]",
    ),
    (COLLECTING, "/*a*/", "leading 0 0..5 Block [a]"),
    (
        COLLECTING,
        "#!x\n//c",
        "0..3 - Shebang [x]; trailing 3 4..7 Line [c]",
    ),
];

/// Comments as in HTML, and conflict markers.
pub(super) const ODD_ROWS: &[Row] = &[
    (
        COLLECTING,
        "a\n-->x\nb",
        "0..1 lf name [a]; 7..8 lf name [b]; waiting 2..5 Legacy comments cannot be used in module code; \
         leading 7 5..6 Line [x]",
    ),
    (
        COLLECTING,
        "x<!--y\nz",
        "0..1 lf name [x]; 7..8 lf name [z]; waiting 1..7 Legacy comments cannot be used in module code; \
         trailing 1 2..6 Line [y]",
    ),
    (
        COLLECTING,
        "a\n=======\nb",
        "0..1 lf name [a]; 10..11 lf name [b]; recorded 2..9 Merge conflict marker encountered.; \
         leading 10 5..9 Line []",
    ),
    (
        COLLECTING,
        "\n<<<<<<< x\ny",
        "11..12 lf name [y]; recorded 1..8 Merge conflict marker encountered.; leading 11 3..10 Line [ x]",
    ),
    (
        COLLECTING,
        "\n>>>>>>> x\ny",
        "11..12 lf name [y]; recorded 1..8 Merge conflict marker encountered.; leading 11 4..10 Line [x]",
    ),
];

#[test]
fn comments_belong_to_tokens(rt: HostRuntime) -> Result<(), Fail> {
    assert_listings(&rt, rt.alloc(), ROWS)
}

#[test]
fn html_like_comments_and_markers_belong_to_tokens(rt: HostRuntime) -> Result<(), Fail> {
    assert_listings(&rt, rt.alloc(), ODD_ROWS)
}
