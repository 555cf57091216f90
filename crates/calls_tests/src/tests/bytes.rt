//! Checkpoints as bytes.
use driver::calls::read_times;
use ecma_stored::{decode, encode};
use ecma_stream::{Checkpoint, Lexer};
use listing::listing::{FROM_SEVEN, PLAIN, Settings, opened};
use std::alloc::{AllocError, Global};
use std::process::Abort;
use std::test::Fail;

/// What a text is read by, the text, how many tokens are read, a byte of the checkpoint, and what it is.
type Row = (Settings, &'static str, usize, usize, u8);

/// A checkpoint has the form 1; seven numbers of four bytes, the lowest first: the place, the start place, where a template was
/// opened, the slash that is read again, and the kind and the places of the last token; three counts of eight; 37 flags; and a byte
/// for each context.
const ROWS: &[Row] = &[
    (PLAIN, "ab c", 0, 0, 1),
    (PLAIN, "ab c", 1, 1, 2),
    (FROM_SEVEN, "ab c", 1, 1, 9),
    (FROM_SEVEN, "ab c", 1, 5, 7),
    (FROM_SEVEN, "ab`", 2, 9, 9),
    (PLAIN, "ab c", 2, 21, 3),
    (PLAIN, "ab c", 2, 25, 4),
    // A token was given last.
    (PLAIN, "ab c", 0, 55, 0),
    (PLAIN, "ab c", 1, 55, 1),
    // Behind the end.
    (PLAIN, "ab c", 3, 58, 1),
    // A statement's brace is the first context.
    (PLAIN, "ab c", 0, 90, 0),
    // A parenthesis of an expression is in it.
    (PLAIN, "(a", 1, 90, 5),
    (PLAIN, "(a", 1, 91, 0),
];

fn behind(lexer: &mut Lexer, reads: usize) -> Result<Checkpoint, AllocError> {
    read_times(lexer, reads)?;
    lexer.checkpoint()
}

/// The checkpoint behind so many tokens of a text.
pub fn checkpoint_behind(
    alloc: Global,
    settings: Settings,
    text: &str,
    reads: usize,
) -> Result<Checkpoint, AllocError> {
    behind(&mut opened(alloc, settings, text)?, reads)
}

fn stored(
    alloc: Global,
    settings: Settings,
    text: &str,
    reads: usize,
) -> Result<Vec<u8>, AllocError> {
    let from = checkpoint_behind(alloc, settings, text, reads)?;
    encode(alloc, &from)
}

/// The byte of a row, where there is one.
fn byte_of(alloc: Global, row: &Row) -> Result<Option<u8>, AllocError> {
    let (settings, text, reads, index, _) = *row;
    let bytes = stored(alloc, settings, text, reads)?;
    Ok(bytes.get(index).copied())
}

fn assert_byte(rt: &impl Abort, alloc: Global, row: &Row) -> Result<(), AllocError> {
    let found = byte_of(alloc, row)?;
    assert!(rt; found == Some(row.4));
    Ok(())
}

#[test]
fn bytes_are_of_this_form(rt: HostRuntime) -> Result<(), Fail> {
    for row in ROWS {
        assert_byte(&rt, rt.alloc(), row)?;
    }
    Ok(())
}

/// Texts, and how many bytes a checkpoint has behind so many tokens.
const LENGTHS: &[(&str, usize, usize)] = &[
    ("a", 0, 91),
    ("a", 2, 91),
    ("((((a", 4, 95),
    ("`${`${", 4, 94),
    ("/re", 1, 91),
];

/// Whether a checkpoint has these bytes.
fn has_bytes(alloc: Global, from: &Checkpoint, bytes: &[u8]) -> Result<bool, AllocError> {
    let again = encode(alloc, from)?;
    Ok(again.as_slice() == bytes)
}

/// Whether bytes are read back to a checkpoint that has the same.
fn are_read_back(alloc: Global, bytes: &[u8]) -> Result<bool, AllocError> {
    match decode(alloc, bytes)? {
        Some(from) => has_bytes(alloc, &from, bytes),
        None => Ok(false),
    }
}

fn assert_length(rt: &impl Abort, bytes: &[u8], length: usize) {
    assert!(rt; bytes.len() == length);
}

fn assert_same(rt: &impl Abort, alloc: Global, bytes: &[u8]) -> Result<(), AllocError> {
    let are = are_read_back(alloc, bytes)?;
    assert!(rt; are);
    Ok(())
}

/// The checkpoint behind so many tokens has so many bytes, which are read back to one that has the same.
fn assert_back(
    rt: &impl Abort,
    alloc: Global,
    text: &str,
    reads: usize,
    length: usize,
) -> Result<(), AllocError> {
    let bytes = stored(alloc, PLAIN, text, reads)?;
    assert_length(rt, bytes.as_slice(), length);
    assert_same(rt, alloc, bytes.as_slice())
}

#[test]
fn bytes_are_read_back(rt: HostRuntime) -> Result<(), Fail> {
    for (text, reads, length) in LENGTHS {
        assert_back(&rt, rt.alloc(), text, *reads, *length)?;
    }
    Ok(())
}

/// A byte of the checkpoint behind `a` that is another: whether it is a checkpoint still.
const CHANGED: &[(usize, u8, bool)] = &[
    // Another form.
    (0, 0, false),
    (0, 2, false),
    // Any place may be that of some text.
    (1, 200, true),
    (4, 255, true),
    // A flag is 0 or 1.
    (53, 2, false),
    (60, 1, true),
    (61, 1, true),
    (89, 2, false),
    // There are twelve contexts.
    (90, 11, true),
    (90, 12, false),
    // No slash is read again, so it has no place.
    (13, 1, false),
    // No kind has this number.
    (20, 255, false),
];

fn change(bytes: &mut [u8], index: usize, byte: u8) {
    if let Some(place) = bytes.get_mut(index) {
        *place = byte;
    }
}

/// Whether bytes are those of a checkpoint.
fn is_checkpoint(alloc: Global, bytes: &[u8]) -> Result<bool, AllocError> {
    Ok(decode(alloc, bytes)?.is_some())
}

fn is_changed_checkpoint(alloc: Global, index: usize, byte: u8) -> Result<bool, AllocError> {
    let mut bytes = stored(alloc, PLAIN, "a", 1)?;
    change(&mut bytes, index, byte);
    is_checkpoint(alloc, bytes.as_slice())
}

fn assert_changed(
    rt: &impl Abort,
    alloc: Global,
    index: usize,
    byte: u8,
    expected: bool,
) -> Result<(), AllocError> {
    let found = is_changed_checkpoint(alloc, index, byte)?;
    assert!(rt; found == expected);
    Ok(())
}

#[test]
fn other_bytes_are_no_checkpoint(rt: HostRuntime) -> Result<(), Fail> {
    for (index, byte, expected) in CHANGED {
        assert_changed(&rt, rt.alloc(), *index, *byte, *expected)?;
    }
    Ok(())
}

fn is_first_checkpoint(alloc: Global, count: usize) -> Result<bool, AllocError> {
    let bytes = stored(alloc, PLAIN, "a", 1)?;
    is_checkpoint(alloc, bytes.get(..count).unwrap_or(&[]))
}

/// The first bytes, as many as this, are those of a checkpoint or not.
fn assert_first(
    rt: &impl Abort,
    alloc: Global,
    count: usize,
    expected: bool,
) -> Result<(), AllocError> {
    let found = is_first_checkpoint(alloc, count)?;
    assert!(rt; found == expected);
    Ok(())
}

#[test]
fn too_few_bytes_are_no_checkpoint(rt: HostRuntime) -> Result<(), Fail> {
    assert_first(&rt, rt.alloc(), 0, false)?;
    assert_first(&rt, rt.alloc(), 89, false)?;
    assert_first(&rt, rt.alloc(), 90, true)?;
    assert_first(&rt, rt.alloc(), 91, true)?;
    Ok(())
}
