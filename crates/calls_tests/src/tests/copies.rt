//! Copies of a lexer, and going back to one.
use super::rows::{Row, assert_rows};
use driver::command::Command::{self, Copy, Note, Swap, Write, WriteAll, WriteRecorded, WriteRest};
use listing::listing::{COLLECTING, PLAIN};
use std::test::Fail;

const READS: &[Row] = &[(
    PLAIN,
    "`a${b}c`",
    &[
        Write(3),
        Copy,
        Swap,
        Note("copy"),
        WriteAll,
        Swap,
        Note("original"),
        WriteAll,
        WriteRest,
    ],
    "0..1 lf BackQuote; 1..2 - Template [a] [a]; 2..4 - DollarLBrace; \
     copy; 4..5 - name [b]; 5..6 - RBrace; 6..7 - Template [c] [c]; 7..8 - BackQuote; \
     original; 4..5 - name [b]; 5..6 - RBrace; 6..7 - Template [c] [c]; 7..8 - BackQuote",
)];

#[test]
fn a_copy_reads_what_the_original_does(rt: HostRuntime) -> Result<(), Fail> {
    assert_rows(&rt, rt.alloc(), READS)
}

/// What a copy has behind the tokens is written, and taken, and then what the original has.
const RESTS: &[Command] = &[
    WriteAll,
    Copy,
    Swap,
    Note("copy"),
    WriteRest,
    Swap,
    Note("original"),
    WriteRest,
];

/// Each text leaves something behind its tokens: a copy has it too, and taking it from there leaves the original's.
const LEFT: &[Row] = &[
    (
        PLAIN,
        "1__2",
        RESTS,
        "0..4 lf Num [1__2] Decimal owned [12] Some(12); \
         copy; recorded 0..1 A numeric separator is only allowed between two digits; \
         original; recorded 0..1 A numeric separator is only allowed between two digits",
    ),
    (
        PLAIN,
        "000",
        RESTS,
        "0..3 lf Num [000] Octal [000] Some(0); \
         copy; waiting 0..3 Legacy octal escape is not permitted in strict mode; \
         original; waiting 0..3 Legacy octal escape is not permitted in strict mode",
    ),
    (
        COLLECTING,
        "/**/a",
        RESTS,
        "4..5 lf name [a]; copy; leading 4 0..4 Block []; original; leading 4 0..4 Block []",
    ),
    (
        PLAIN,
        "`",
        RESTS,
        "0..1 lf BackQuote; copy; inside Tpl BraceStmt; original; inside Tpl BraceStmt",
    ),
];

#[test]
fn what_a_copy_has_is_its_own(rt: HostRuntime) -> Result<(), Fail> {
    assert_rows(&rt, rt.alloc(), LEFT)
}

/// Goes to a copy of before a read, twice.
const BACK: &[Row] = &[(
    PLAIN,
    "1__2",
    &[
        Copy,
        Write(1),
        WriteRecorded,
        Swap,
        Note("back"),
        Copy,
        WriteRecorded,
        Swap,
        Note("again"),
        Write(1),
        WriteRecorded,
    ],
    "0..4 lf Num [1__2] Decimal owned [12] Some(12); \
     recorded 0..1 A numeric separator is only allowed between two digits; \
     back; again; 0..4 lf Num [1__2] Decimal owned [12] Some(12); \
     recorded 0..1 A numeric separator is only allowed between two digits",
)];

#[test]
fn going_back_takes_errors_back(rt: HostRuntime) -> Result<(), Fail> {
    assert_rows(&rt, rt.alloc(), BACK)
}
