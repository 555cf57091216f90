//! Rows over characters that begin no token.
use super::listed::assert_listings;
use listing::listing::{PLAIN, Row};
use std::test::Fail;

pub(super) const ROWS: &[Row] = &[
    (PLAIN, "\\", "0..1 lf Error 0..0 Expected unicode escape"),
    (
        PLAIN,
        "\0a",
        "0..1 lf Error 0..0 Unexpected character '\\0'; 1..2 - name [a]",
    ),
    (
        PLAIN,
        "\u{20ac}",
        "0..3 lf Error 0..0 Unexpected character '\u{20ac}'",
    ),
];

#[test]
fn refuses_a_stray_character(rt: HostRuntime) -> Result<(), Fail> {
    assert_listings(&rt, rt.alloc(), ROWS)
}
