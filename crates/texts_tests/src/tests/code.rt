//! Rows over statements, operators and shebangs.
use super::listed::assert_listings;
use listing::listing::{FROM_SEVEN, PLAIN, Row, Settings};
use std::test::Fail;

const JSX: Settings = Settings { jsx: true, ..PLAIN };

pub(super) const ROWS: &[Row] = &[
    (
        PLAIN,
        "let x = 1;",
        "0..3 lf keyword let; 4..5 - name [x]; 6..7 - AssignOp(Assign); \
         8..9 - Num [1] Decimal [1] Some(1); 9..10 - Semi",
    ),
    // Operators are read by their longest spelling.
    (
        PLAIN,
        ">>>=>>> ?.",
        "0..4 lf AssignOp(ZeroFillRShiftAssign); 4..7 - BinOp(ZeroFillRShift); 8..9 - QuestionMark; 9..10 - Dot",
    ),
    // A shebang stands at the very start alone.
    (PLAIN, "#!x\na", "0..3 - Shebang [x]; 4..5 lf name [a]"),
    (PLAIN, " #!x", "1..2 lf Hash; 2..3 - Bang; 3..4 - name [x]"),
    (FROM_SEVEN, "a b", "7..8 lf name [a]; 9..10 - name [b]"),
    // No tag is read.
    (
        JSX,
        "<a>",
        "0..1 lf BinOp(Lt); 1..2 - name [a]; 2..3 - BinOp(Gt)",
    ),
];

#[test]
fn reads_code(rt: HostRuntime) -> Result<(), Fail> {
    assert_listings(&rt, rt.alloc(), ROWS)
}
