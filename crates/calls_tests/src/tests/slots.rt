//! Tokens that are read into a slot.
use super::rows::{Row, assert_rows};
use driver::command::Command::WriteSlots;
use listing::listing::PLAIN;
use std::test::Fail;

/// Words and punctuators, an owned text in whose place others come, what is read the whole way, and the end, twice.
const SLOTS: &[Row] = &[
    (
        PLAIN,
        "`a${b}c`",
        &[WriteSlots(9)],
        "0..1 lf BackQuote; 1..2 - Template [a] [a]; 2..4 - DollarLBrace; 4..5 - name [b]; \
         5..6 - RBrace; 6..7 - Template [c] [c]; 7..8 - BackQuote; none; none",
    ),
    (
        PLAIN,
        "1__2",
        &[WriteSlots(2)],
        "0..4 lf Num [1__2] Decimal owned [12] Some(12); none",
    ),
    (
        PLAIN,
        "a / b\n;",
        &[WriteSlots(5)],
        "0..1 lf name [a]; 2..3 - BinOp(Div); 4..5 - name [b]; 6..7 lf Semi; none",
    ),
    (
        PLAIN,
        "\\u0061.b=(",
        &[WriteSlots(6)],
        "0..6 lf name owned [a]; 6..7 - Dot; 7..8 - name [b]; 8..9 - AssignOp(Assign); \
         9..10 - LParen; none",
    ),
];

#[test]
fn a_slot_holds_what_is_read(rt: HostRuntime) -> Result<(), Fail> {
    assert_rows(&rt, rt.alloc(), SLOTS)
}
