//! Comments that a lexer hands over to a store.
use super::rows::{Row, assert_rows};
use driver::command::Command::{Hand, Room, Store, Write, WriteAll, WriteStore};
use listing::listing::COLLECTING;
use std::test::Fail;

/// A store that refuses its second comment has the first, and the other store the rest, once.
const TWO_STORES: &[Row] = &[(
    COLLECTING,
    "f() /*a*/ //b",
    &[
        WriteAll,
        Store(1),
        Hand,
        WriteStore,
        Store(9),
        Hand,
        WriteStore,
        Hand,
        WriteStore,
    ],
    "0..1 lf name [f]; 1..2 - LParen; 2..3 - RParen; \
     refused 1; trailing 3 10..13 Line [b]; \
     handed 1; trailing 3 4..9 Block [a]; handed 1; trailing 3 4..9 Block [a]",
)];

#[test]
fn comments_behind_a_refused_one_go_to_the_next_store(rt: HostRuntime) -> Result<(), Fail> {
    assert_rows(&rt, rt.alloc(), TWO_STORES)
}

/// Before the end none is handed over.
const AT_END: &[Row] = &[(
    COLLECTING,
    "/*a*/ b",
    &[
        Store(9),
        Hand,
        Write(1),
        Hand,
        Write(1),
        Room(0),
        Hand,
        Room(1),
        Hand,
    ],
    "not yet 0; 6..7 lf name [b]; not yet 0; end; refused 0; handed 1",
)];

#[test]
fn comments_are_handed_over_behind_the_end_alone(rt: HostRuntime) -> Result<(), Fail> {
    assert_rows(&rt, rt.alloc(), AT_END)
}
