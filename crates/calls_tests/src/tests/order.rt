//! Several checkpoints of one lexer, in any order.
use super::rows::{Row, assert_rows};
use driver::command::Command::{self, Go, Hand, Save, Store, Write, WriteRest};
use listing::listing::{COLLECTING, PLAIN};
use std::test::Fail;

/// Goes back to an older and to a newer checkpoint, in turn: also where one token was read behind the older one, and where
/// none was.
const TURNS: &[Command] = &[
    Write(1),
    Save,
    Write(1),
    Save,
    Go(1),
    Write(1),
    Go(0),
    Write(1),
    Go(1),
    Write(1),
    Go(0),
    Go(1),
    Write(1),
    Go(1),
    Write(1),
    WriteRest,
];

const IN_TURN: &[Row] = &[
    // The newer has one error more than there is behind the older.
    (
        PLAIN,
        "a 1__2 b",
        TURNS,
        "0..1 lf name [a]; 2..6 - Num [1__2] Decimal owned [12] Some(12); \
         back; 7..8 - name [b]; \
         back; 2..6 - Num [1__2] Decimal owned [12] Some(12); \
         back; 7..8 - name [b]; \
         back; \
         stayed; 2..6 - Num [1__2] Decimal owned [12] Some(12); \
         back; 7..8 - name [b]; \
         recorded 2..3 A numeric separator is only allowed between two digits; not at the end",
    ),
    // Where neither lists grow between the two, a newer one fits behind an older one.
    (
        PLAIN,
        "a b c",
        TURNS,
        "0..1 lf name [a]; 2..3 - name [b]; back; 4..5 - name [c]; back; 2..3 - name [b]; \
         back; 4..5 - name [c]; back; back; 4..5 - name [c]; back; 4..5 - name [c]; not at the end",
    ),
];

#[test]
fn a_newer_checkpoint_is_gone_to_where_as_much_was_read(rt: HostRuntime) -> Result<(), Fail> {
    assert_rows(&rt, rt.alloc(), IN_TURN)
}

/// Hands comments over at the end, and goes back to before and behind the first of them.
const OVER: &[Row] = &[(
    COLLECTING,
    "/*a*/ b /*c*/",
    &[
        Save,
        Write(1),
        Save,
        Write(1),
        Save,
        Store(9),
        Hand,
        Go(1),
        Go(2),
        Go(0),
        Write(1),
        Go(1),
        Write(1),
        Go(2),
        Write(1),
        Store(9),
        Hand,
    ],
    "6..7 lf name [b]; end; handed 2; stayed; stayed; back; 6..7 lf name [b]; back; end; back; end; handed 2",
)];

#[test]
fn comments_are_handed_over_again_behind_a_checkpoint_of_before(
    rt: HostRuntime,
) -> Result<(), Fail> {
    assert_rows(&rt, rt.alloc(), OVER)
}
