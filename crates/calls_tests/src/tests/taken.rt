//! Errors and comments that are taken between a checkpoint and going back to it.
use super::rows::{Row, assert_rows};
use driver::command::Command::{Flags, Go, Hand, Read, Save, Store, TakeErrors, WriteRest};
use listing::listing::{COLLECTING, MODULE, PLAIN};
use std::test::Fail;

const TAKEN: &[Row] = &[
    // Those that are taken are not given back.
    (
        PLAIN,
        "1__2 3__4",
        &[Read(1), Save, TakeErrors, Go(0), WriteRest],
        "stayed; not at the end",
    ),
    (
        PLAIN,
        "08 1__2",
        &[Read(2), Save, TakeErrors, Go(0), WriteRest],
        "stayed; waiting 0..2 Legacy decimal escape is not permitted in strict mode; not at the end",
    ),
    (
        PLAIN,
        "1__2 3__4 5__6",
        &[Read(2), Save, TakeErrors, Read(1), Go(0), WriteRest],
        "stayed; recorded 10..11 A numeric separator is only allowed between two digits; not at the end",
    ),
    // As many came behind them, and are left in their places.
    (
        PLAIN,
        "1__2 3__4",
        &[Read(1), Save, TakeErrors, Read(1), Go(0), WriteRest],
        "went; recorded 5..6 A numeric separator is only allowed between two digits; not at the end",
    ),
    // None of them was there before.
    (
        PLAIN,
        "1__2 3__4",
        &[Save, Read(1), TakeErrors, Read(1), Go(0), WriteRest],
        "back; not at the end",
    ),
];

#[test]
fn errors_that_were_taken_are_not_given_back(rt: HostRuntime) -> Result<(), Fail> {
    assert_rows(&rt, rt.alloc(), TAKEN)
}

const HANDED: &[Row] = &[
    (
        COLLECTING,
        "/*a*/ b /*c*/",
        &[Read(1), Save, Read(1), Store(9), Hand, Go(0), WriteRest],
        "handed 2; stayed",
    ),
    (
        COLLECTING,
        "/*a*/ b /*c*/",
        &[Save, Read(2), Store(9), Hand, Go(0), WriteRest],
        "handed 2; back; not at the end",
    ),
    // Before the end none is handed over.
    (
        COLLECTING,
        "/*a*/ b /*c*/",
        &[Read(1), Save, Store(9), Hand, Go(0), WriteRest],
        "not yet 0; back; not at the end",
    ),
];

#[test]
fn comments_that_were_handed_over_are_not_given_back(rt: HostRuntime) -> Result<(), Fail> {
    assert_rows(&rt, rt.alloc(), HANDED)
}

/// In module code the errors that waited are recorded.
const MODULES: &[Row] = &[
    (
        PLAIN,
        "000 00",
        &[Read(1), Save, Flags(MODULE), Go(0), WriteRest],
        "stayed; recorded 0..3 Legacy octal escape is not permitted in strict mode; not at the end",
    ),
    // As many wait again, and are left in their places.
    (
        PLAIN,
        "000 00",
        &[
            Read(1),
            Save,
            Flags(MODULE),
            Flags(PLAIN),
            Read(1),
            Go(0),
            WriteRest,
        ],
        "went; waiting 4..6 Legacy octal escape is not permitted in strict mode; not at the end",
    ),
    (
        PLAIN,
        "000 00",
        &[Save, Read(1), Flags(MODULE), Read(1), Go(0), WriteRest],
        "back; not at the end",
    ),
];

#[test]
fn errors_that_were_recorded_do_not_wait_again(rt: HostRuntime) -> Result<(), Fail> {
    assert_rows(&rt, rt.alloc(), MODULES)
}
