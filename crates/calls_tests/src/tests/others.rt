//! Checkpoints of other lexers.
use super::rows::{Row, assert_rows};
use driver::command::Command::{Go, Open, Read, Reread, Save, WriteAll};
use ecma_place::{BytePos, StringInput};
use ecma_stream::{Checkpoint, Lexer};
use listing::listing::{FROM_SEVEN, PLAIN, opened};
use std::alloc::{AllocError, Global};
use std::process::Abort;
use std::test::Fail;

const STARTS: &[Row] = &[
    (
        FROM_SEVEN,
        "a b",
        &[Read(1), Save, Open(PLAIN, "1123456789"), Go(0), WriteAll],
        "stayed; 0..10 lf Num [1123456789] Decimal [1123456789] Some(1123456789)",
    ),
    (
        PLAIN,
        "a bcdefghi",
        &[
            Read(2),
            Save,
            Open(FROM_SEVEN, "a b"),
            Read(1),
            Go(0),
            WriteAll,
        ],
        "stayed; 9..10 - name [b]",
    ),
    (
        FROM_SEVEN,
        "a b",
        &[Read(1), Save, Open(FROM_SEVEN, "c d"), Go(0), WriteAll],
        "went; 9..10 - name [d]",
    ),
];

const PLACES: &[Row] = &[
    // Inside a character of two bytes, and behind one.
    (
        PLAIN,
        "a b",
        &[Read(1), Save, Open(PLAIN, "é b"), Go(0), WriteAll],
        "stayed; 0..2 lf name [é]; 3..4 - name [b]",
    ),
    (
        PLAIN,
        "ab c",
        &[Read(1), Save, Open(PLAIN, "é d"), Go(0), WriteAll],
        "went; 3..4 - name [d]",
    ),
    // Behind the end, and at the end.
    (
        PLAIN,
        "abc d",
        &[Read(1), Save, Open(PLAIN, "ef"), Go(0), WriteAll],
        "stayed; 0..2 lf name [ef]",
    ),
    (
        PLAIN,
        "abc d",
        &[Read(1), Save, Open(PLAIN, "efg"), Go(0), WriteAll],
        "went",
    ),
    // A template that was opened goes on.
    (
        PLAIN,
        "a`b${",
        &[Read(4), Save, Open(PLAIN, "cdefg}h`"), Go(0), WriteAll],
        "went; 5..6 - RBrace; 6..7 - Template [h] [h]; 7..8 - BackQuote",
    ),
];

const SLASHES: &[Row] = &[
    (
        PLAIN,
        "a/b",
        &[Read(2), Save, Open(PLAIN, "c/d/"), Go(0), WriteAll],
        "went; 2..3 - name [d]; 3..4 - BinOp(Div)",
    ),
    // No slash is there.
    (
        PLAIN,
        "a/b",
        &[Read(2), Save, Open(PLAIN, "cde"), Go(0), WriteAll],
        "stayed; 0..3 lf name [cde]",
    ),
    (
        PLAIN,
        "a/b",
        &[Read(2), Reread, Save, Open(PLAIN, "c/d/g"), Go(0), WriteAll],
        "went; 1..5 - Regex [d] [g]",
    ),
    (
        PLAIN,
        "a/b",
        &[Read(2), Reread, Save, Open(PLAIN, "cde"), Go(0), WriteAll],
        "stayed; 0..3 lf name [cde]",
    ),
    // The slash was answered before the last token.
    (
        PLAIN,
        "a/b",
        &[Read(3), Save, Open(PLAIN, "cdef"), Go(0), WriteAll],
        "went; 3..4 - name [f]",
    ),
];

const COUNTS: &[Row] = &[
    (
        PLAIN,
        "1__2 a",
        &[
            Read(1),
            Save,
            Open(PLAIN, "bcde f"),
            Read(1),
            Go(0),
            WriteAll,
        ],
        "stayed; 5..6 - name [f]",
    ),
    (
        PLAIN,
        "1__2 a",
        &[
            Read(1),
            Save,
            Open(PLAIN, "3__4 b"),
            Read(2),
            Go(0),
            WriteAll,
        ],
        "went; 5..6 - name [b]",
    ),
];

#[test]
fn a_text_starts_where_the_other_does(rt: HostRuntime) -> Result<(), Fail> {
    assert_rows(&rt, rt.alloc(), STARTS)
}

#[test]
fn a_place_is_one_of_the_text(rt: HostRuntime) -> Result<(), Fail> {
    assert_rows(&rt, rt.alloc(), PLACES)
}

#[test]
fn slashes_stand_in_the_text(rt: HostRuntime) -> Result<(), Fail> {
    assert_rows(&rt, rt.alloc(), SLASHES)
}

#[test]
fn errors_are_as_many(rt: HostRuntime) -> Result<(), Fail> {
    assert_rows(&rt, rt.alloc(), COUNTS)
}

/// Texts, and whether a checkpoint behind the slash of `a/b` is one of theirs.
const FITS: &[(&str, bool)] = &[("c/d", true), ("c", false), ("cde", false), ("/cd", false)];

fn behind_slash(lexer: &mut Lexer) -> Result<Checkpoint, AllocError> {
    drop(lexer.read()?);
    drop(lexer.read()?);
    lexer.checkpoint()
}

fn slashed(alloc: Global) -> Result<Checkpoint, AllocError> {
    behind_slash(&mut opened(alloc, PLAIN, "a/b")?)
}

fn fits(to: &Checkpoint, text: &str) -> bool {
    let start = BytePos(0);
    StringInput::fits(text, start) && to.fits(&StringInput::new(text, start))
}

fn assert_fits(rt: &impl Abort, to: &Checkpoint) {
    for (text, expected) in FITS {
        assert!(rt; fits(to, text) == *expected);
    }
}

#[test]
fn says_whether_it_fits(rt: HostRuntime) -> Result<(), Fail> {
    assert_fits(&rt, &slashed(rt.alloc())?);
    Ok(())
}
