//! Rows of slashes that are named by the numbers of their tokens.
use super::slashes::{DIVISION, ERROR, REGEX, Row, assert_rows, case_of, holds, one_by_one};
use ecma_slashes::Slashes::Numbered;
use std::test::Fail;

const ROWS: &[Row] = &[
    ("a / /b/g", Numbered(&[]), 0, 4, 5, DIVISION),
    ("a / /b/g", Numbered(&[3]), 1, 4, 8, REGEX),
    // A token that was read again counts once.
    ("/a/, /b/", Numbered(&[1, 3]), 2, 5, 8, REGEX),
    // What is read again in the place of a slash may be an error.
    ("a / b", Numbered(&[2]), 1, 2, 5, ERROR),
    // Behind a number that is not that of a slash none is met.
    ("a / /b/g", Numbered(&[1, 3]), 0, 4, 5, DIVISION),
    ("a / /b/g", Numbered(&[4]), 0, 4, 5, DIVISION),
    ("a / /b/g", Numbered(&[4000]), 0, 4, 5, DIVISION),
    (
        "a / /b/g",
        Numbered(&[18_446_744_073_709_551_615]),
        0,
        4,
        5,
        DIVISION,
    ),
    // Nor is one that is not greater than that before it, and none is the token 0.
    ("/a/, /b/", Numbered(&[1, 1]), 1, 5, 6, DIVISION),
    ("a, /b/, /c/", Numbered(&[3, 5]), 2, 8, 11, REGEX),
    ("a, /b/, /c/", Numbered(&[3, 1]), 1, 8, 9, DIVISION),
    ("/a/, /b/", Numbered(&[0, 1]), 0, 0, 1, DIVISION),
];

#[test]
fn slashes_are_told_by_the_numbers_of_their_tokens(rt: HostRuntime) -> Result<(), Fail> {
    assert_rows(&rt, rt.alloc(), ROWS)
}

/// Where the tokens before are not at hand, no number names a slash.
#[test]
fn numbers_name_no_slash_alone(rt: HostRuntime) -> Result<(), Fail> {
    let tokens = one_by_one(rt.alloc(), case_of("/a/", Numbered(&[1])))?;
    assert!(rt; holds(&tokens, 0, 1, DIVISION));
    Ok(())
}
