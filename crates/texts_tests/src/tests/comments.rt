//! The comments so far.
use ecma_place::{BytePos, StringInput};
use ecma_reader::Reader;
use ecma_slashes::Slashes;
use ecma_syntax::Context;
use listing::listing::{COLLECTING, lexer_settings};
use std::alloc::{AllocError, Global};
use std::test::Fail;

/// A comment before each name, which it leads, and one at the end.
const TEXT: &str = "/*a*/x\n/*b*/y\n/*c*/z\n/*d*/";

const START: BytePos = BytePos(0);

/// How many comments a reader has but the first ones, as many as said: before the first read, or at the end.
fn count(alloc: Global, first: usize, at_end: bool) -> Result<usize, AllocError> {
    if !StringInput::fits(TEXT, START) {
        return Err(AllocError);
    }
    let settings = lexer_settings(COLLECTING);
    let context = Context::default();
    let mut reader = Reader::new(alloc, &settings, context, TEXT, START, Slashes::ByFlag)?;
    if at_end {
        reader.count_rest()?;
    }
    let comments = reader.comments_from(first)?;
    let count = comments.len();
    drop(comments);
    Ok(count)
}

/// How many are passed, and how many others there are before the first read, and at the end.
const ROWS: &[(usize, usize, usize)] = &[(0, 0, 4), (1, 0, 3), (3, 0, 1), (4, 0, 0), (9, 0, 0)];

#[test]
fn comments_before_the_first_read(rt: HostRuntime) -> Result<(), Fail> {
    for (first, before, _) in ROWS {
        assert!(rt; count(rt.alloc(), *first, false)? == *before);
    }
    Ok(())
}

#[test]
fn comments_at_the_end(rt: HostRuntime) -> Result<(), Fail> {
    for (first, _, behind) in ROWS {
        assert!(rt; count(rt.alloc(), *first, true)? == *behind);
    }
    Ok(())
}
