//! Rows over words.
use super::listed::assert_listings;
use listing::listing::{PLAIN, Row};
use std::test::Fail;

pub(super) const ROWS: &[Row] = &[
    (
        PLAIN,
        "null type true types",
        "0..4 lf null; 5..9 - known type; 10..14 - true; 15..20 - name [types]",
    ),
    (PLAIN, "a\\u{62}c", "0..8 lf name owned [abc]"),
    (
        PLAIN,
        "\\u0062reak",
        "0..10 lf Error 0..10 Unexpected escape sequence in reserved word: break",
    ),
    (PLAIN, "l\\u0065t", "0..8 lf keyword let"),
    (
        PLAIN,
        "\\u0031a",
        "0..7 lf name owned [1a]; recorded 0..6 Invalid character in identifier",
    ),
    (
        PLAIN,
        "a\\x",
        "0..2 lf Error 1..1 Expected unicode escape; 2..3 - name [x]",
    ),
];

#[test]
fn reads_words(rt: HostRuntime) -> Result<(), Fail> {
    assert_listings(&rt, rt.alloc(), ROWS)
}
