//! The lexer as an iterator.
use super::rows::{Row, assert_rows};
use driver::command::Command::{Write, WriteItems};
use listing::listing::PLAIN;
use std::test::Fail;

const ITEMS: &[Row] = &[
    (
        PLAIN,
        "let x = 1;",
        &[WriteItems(7)],
        "0..3 lf keyword let; 4..5 - name [x]; 6..7 - AssignOp(Assign); \
         8..9 - Num [1] Decimal [1] Some(1); 9..10 - Semi; none; none",
    ),
    (
        PLAIN,
        "a\nb/c",
        &[WriteItems(6)],
        "0..1 lf name [a]; 2..3 lf name [b]; 3..4 - BinOp(Div); 4..5 - name [c]; none; none",
    ),
    (PLAIN, "", &[WriteItems(2)], "none; none"),
    // Items and reads in turn.
    (
        PLAIN,
        "a b c",
        &[Write(1), WriteItems(1), Write(1), WriteItems(1), Write(1)],
        "0..1 lf name [a]; 2..3 - name [b]; 4..5 - name [c]; none; end",
    ),
];

#[test]
fn gives_tokens_and_then_none(rt: HostRuntime) -> Result<(), Fail> {
    assert_rows(&rt, rt.alloc(), ITEMS)
}

/// What reads answer where items do the above.
const READS: &[Row] = &[
    (
        PLAIN,
        "let x = 1;",
        &[Write(7)],
        "0..3 lf keyword let; 4..5 - name [x]; 6..7 - AssignOp(Assign); \
         8..9 - Num [1] Decimal [1] Some(1); 9..10 - Semi; end; end",
    ),
    (
        PLAIN,
        "a\nb/c",
        &[Write(6)],
        "0..1 lf name [a]; 2..3 lf name [b]; 3..4 - BinOp(Div); 4..5 - name [c]; end; end",
    ),
    (PLAIN, "", &[Write(2)], "end; end"),
];

#[test]
fn items_are_what_reads_answer(rt: HostRuntime) -> Result<(), Fail> {
    assert_rows(&rt, rt.alloc(), READS)
}
