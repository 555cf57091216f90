//! More contexts, comments and errors than stand in one place.
use super::rows::{assert_text, assert_written};
use driver::command::Command::{self, Go, Read, Save};
use driver::run::run;
use listing::listing::{COLLECTING, PLAIN, STRICT, Settings};
use std::alloc::{AllocError, Global};
use std::process::Abort;
use std::test::Fail;

/// A text of pieces: each so many times.
type Pieces = &'static [(&'static str, usize)];

/// What a text is read by, the text, and how many tokens are read before the checkpoint, and then before going back to it.
type Row = (Settings, Pieces, usize, usize);

/// Up to 128 contexts stand in place.
const NESTED: Pieces = &[("(", 200), (")", 200)];

const CONTEXTS: &[Row] = &[
    (PLAIN, NESTED, 0, 400),
    (PLAIN, NESTED, 100, 100),
    (PLAIN, NESTED, 126, 10),
    (PLAIN, NESTED, 127, 1),
    (PLAIN, NESTED, 128, 10),
    (PLAIN, NESTED, 150, 30),
    (PLAIN, NESTED, 200, 200),
    (PLAIN, NESTED, 210, 100),
    (PLAIN, NESTED, 300, 100),
    (PLAIN, &[("`${", 150), ("}`", 150)], 399, 300),
];

/// 64 comments make a block.
const COMMENTS: &[Row] = &[
    (COLLECTING, &[("/*c*/a ", 65)], 10, 55),
    (COLLECTING, &[("/*c*/a ", 65)], 64, 1),
    (COLLECTING, &[("a//c\n", 200)], 0, 200),
    (COLLECTING, &[("a//c\n", 200)], 63, 100),
    (COLLECTING, &[("a//c\n", 200)], 64, 100),
    (COLLECTING, &[("a//c\n", 200)], 65, 100),
    (COLLECTING, &[("a//c\n", 200)], 130, 71),
    (COLLECTING, &[("/*c*/", 200), ("a", 1)], 0, 2),
    (COLLECTING, &[("a", 1), ("/*c*/", 200)], 1, 1),
];

const ERRORS: &[Row] = &[
    (PLAIN, &[("1__2 ", 100)], 50, 50),
    (PLAIN, &[("08 ", 100)], 50, 50),
    (STRICT, &[("010/*c*/ ", 100)], 50, 50),
];

fn push_times(all: &mut String, text: &str, times: usize) -> Result<(), AllocError> {
    for _ in 0..times {
        all.push_str(text)?;
    }
    Ok(())
}

fn text_of(alloc: Global, pieces: Pieces) -> Result<String, AllocError> {
    let mut text = String::new(alloc);
    for (piece, times) in pieces {
        push_times(&mut text, piece, *times)?;
    }
    Ok(text)
}

/// Goes back twice.
fn assert_back(
    rt: &impl Abort,
    alloc: Global,
    (settings, text): (Settings, &str),
    before: usize,
    between: usize,
) -> Result<(), AllocError> {
    let commands = [
        Read(before),
        Save,
        Read(between),
        Go(0),
        Read(between),
        Go(0),
    ];
    assert_written(rt, alloc, (settings, text), &commands, "back; back")
}

fn assert_rows(rt: &impl Abort, alloc: Global, rows: &[Row]) -> Result<(), Fail> {
    for (settings, pieces, before, between) in rows {
        let text = text_of(alloc, pieces)?;
        assert_back(rt, alloc, (*settings, text.as_str()), *before, *between)?;
    }
    Ok(())
}

#[test]
fn contexts_may_be_many(rt: HostRuntime) -> Result<(), Fail> {
    assert_rows(&rt, rt.alloc(), CONTEXTS)
}

#[test]
fn comments_may_be_many(rt: HostRuntime) -> Result<(), Fail> {
    assert_rows(&rt, rt.alloc(), COMMENTS)
}

#[test]
fn errors_may_be_many(rt: HostRuntime) -> Result<(), Fail> {
    assert_rows(&rt, rt.alloc(), ERRORS)
}

/// Checkpoints seven tokens apart, and then back to each, the newest first.
fn stack(alloc: Global, count: usize) -> Result<Vec<Command>, AllocError> {
    let mut commands = Vec::new(alloc);
    for _ in 0..count {
        commands.push(Save)?;
        commands.push(Read(7))?;
    }
    for number in (0..count).rev() {
        commands.push(Go(number))?;
    }
    Ok(commands)
}

/// A word for each of them.
fn words(alloc: Global, count: usize) -> Result<String, AllocError> {
    let mut all = String::new(alloc);
    push_times(&mut all, "; back", count)?;
    Ok(all)
}

/// What is written where a lexer goes to so many checkpoints.
fn stacked(alloc: Global, text: &str, count: usize) -> Result<String, AllocError> {
    let commands = stack(alloc, count)?;
    run(alloc, COLLECTING, text, &commands)
}

#[test]
fn checkpoints_are_a_stack(rt: HostRuntime) -> Result<(), Fail> {
    let text = text_of(rt.alloc(), &[("(/*c*/1__2 08 ", 70), (")", 200)])?;
    let found = stacked(rt.alloc(), text.as_str(), 60)?;
    let expected = words(rt.alloc(), 60)?;
    assert_text(&rt, found.as_str(), expected.get(2..).unwrap_or(""));
    Ok(())
}
