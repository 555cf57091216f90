//! Rows over strings.
use super::listed::assert_listings;
use listing::listing::{PLAIN, Row};
use std::test::Fail;

pub(super) const ROWS: &[Row] = &[
    (
        PLAIN,
        "'\\400'",
        "0..6 lf Str owned [ 0] ['\\400']; waiting 1..3 Legacy octal escape is not permitted in strict mode",
    ),
    (
        PLAIN,
        "'\\ud800'",
        "0..8 lf Str owned [\\ud800] ['\\ud800']",
    ),
    (
        PLAIN,
        "'\\u{41'",
        "0..6 lf Error 1..6 Invalid unicode escape; 6..7 - Str [] [']; recorded 6..7 Unterminated string constant",
    ),
    (
        PLAIN,
        "'\\x4'",
        "0..4 lf Error 1..4 Bad character escape sequence, expected 2 hex characters; 4..5 - Str [] [']; \
         recorded 4..5 Unterminated string constant",
    ),
    (PLAIN, "'a\\\r\nb'", "0..7 lf Str owned [ab] ['a\\\r\nb']"),
    (PLAIN, "'\\", "0..2 lf Error 1..1 Invalid string escape"),
];

#[test]
fn reads_strings(rt: HostRuntime) -> Result<(), Fail> {
    assert_listings(&rt, rt.alloc(), ROWS)
}
