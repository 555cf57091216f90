//! Going back to a checkpoint leaves a lexer as it was there, and all ahead of it too.
use super::rows::assert_written;
use driver::command::Command::{self, Allow, Flags, Go, PopContext, Read, Reread, Save, Withdraw};
use listing::listing::{COLLECTING, IGNORING, MODULE, PLAIN, STRICT, Settings, TYPES};
use std::alloc::{AllocError, Global};
use std::process::Abort;
use std::test::Fail;

/// What a text is read by, the text, what is done before the checkpoint, and what between it and going back to it.
type Row = (
    Settings,
    &'static str,
    &'static [Command],
    &'static [Command],
);

/// Tokens of every kind that changes more than the place.
const TOKENS: &[Row] = &[
    (PLAIN, "a b c", &[], &[Read(2)]),
    (PLAIN, "a b c", &[Read(1)], &[Read(9)]),
    (PLAIN, "a b c", &[Read(9)], &[Read(1)]),
    (PLAIN, "", &[], &[Read(2)]),
    (PLAIN, "a`b${c+`d${e}f`}g`h", &[Read(2)], &[Read(3)]),
    (PLAIN, "a`b${c+`d${e}f`}g`h", &[Read(7)], &[Read(9)]),
    (PLAIN, "a`b${c+`d${e}f`}g`h", &[Read(11)], &[Read(99)]),
    (PLAIN, "`\r\n${a}\r\n`", &[Read(1)], &[Read(4)]),
    (PLAIN, "x=function(){}/1/y;(b)/c/d", &[Read(3)], &[Read(9)]),
    (PLAIN, "if(a)/b/;for(;;){}class{}", &[Read(2)], &[Read(12)]),
    (PLAIN, "\u{feff}a\r\nb\r\n\r\nc", &[Read(1)], &[Read(2)]),
    (PLAIN, "a\r\nb\u{2028}c", &[Read(2)], &[Read(9)]),
    (PLAIN, "#!x\na", &[], &[Read(1)]),
    (PLAIN, "#!x\na", &[Read(1)], &[Read(1)]),
    (PLAIN, "ä=\"é\\n\"+\\u0061", &[Read(1)], &[Read(9)]),
    (TYPES, "a<b<c>>=d", &[Read(3)], &[Read(4)]),
];

/// Slashes that are or may be read again.
const SLASHES: &[Row] = &[
    (PLAIN, "a/b/c", &[Read(2)], &[Read(2)]),
    (PLAIN, "a/b/c", &[Read(2)], &[Reread, Read(1)]),
    (PLAIN, "a/b/c", &[Read(2), Reread], &[Read(1)]),
    (PLAIN, "a/b/c", &[Read(2), Reread], &[Withdraw, Read(2)]),
    (PLAIN, "a/b/c", &[Read(2), Reread, Read(1)], &[Read(1)]),
    (
        PLAIN,
        "a/b/c",
        &[Read(2), Reread, Read(1)],
        &[Withdraw, Read(2)],
    ),
    (
        PLAIN,
        "`${/a/g}`",
        &[Read(4), Reread],
        &[Read(1), Withdraw, Read(4)],
    ),
    (PLAIN, "a/=/b", &[Read(2), Reread], &[Read(1)]),
    (PLAIN, "a /b", &[Read(2), Reread], &[Read(1), Withdraw]),
];

/// Comments, before and behind tokens, at the start and at the end.
const COMMENTS: &[Row] = &[
    (COLLECTING, "a//b\nc", &[], &[Read(1)]),
    (COLLECTING, "a//b\nc", &[Read(1)], &[Read(1)]),
    (COLLECTING, "a//b\nc", &[Read(2)], &[Read(1)]),
    (COLLECTING, "/*a*/b;/*c*/d//e", &[Read(1)], &[Read(9)]),
    (COLLECTING, "/*a*/b;/*c*/d//e", &[Read(3)], &[Read(1)]),
    (COLLECTING, "f() /*a*/ //b", &[Read(2)], &[Read(2)]),
    (COLLECTING, "f() /*a*/ //b", &[Read(4)], &[Read(1)]),
    (COLLECTING, "//a\r\n/*b\r\n*/c", &[], &[Read(2)]),
    (COLLECTING, "x<!--y\nz", &[Read(1)], &[Read(2)]),
    (COLLECTING, "/*a", &[], &[Read(2)]),
];

/// Errors that are recorded, wait or are dropped.
const ERRORS: &[Row] = &[
    (PLAIN, "0_1 1__2 3__4", &[Read(1)], &[Read(2)]),
    (PLAIN, "0_1 1__2 3__4", &[Read(2)], &[Read(2)]),
    (PLAIN, "08 09 010", &[], &[Read(3)]),
    (PLAIN, "08 09 010", &[Read(2)], &[Read(2)]),
    (STRICT, "08 09 010", &[Read(1)], &[Read(2)]),
    (MODULE, "08 09 010", &[Read(1)], &[Read(2)]),
    (MODULE, "a\n-->b\n'\\01' <!--c", &[Read(1)], &[Read(3)]),
    (PLAIN, "a\n-->b\n'\\01' <!--c", &[Read(1)], &[Read(3)]),
    (IGNORING, "1__2 08 3__4", &[Read(1)], &[Read(2)]),
    (PLAIN, "`\\u` '\\x4' \\u{} # @", &[Read(1)], &[Read(9)]),
    (PLAIN, "'a\n\\", &[], &[Read(3)]),
    (COLLECTING, "1__2/*a*/3__4//b", &[Read(1)], &[Read(9)]),
];

/// What the layer above sets.
const SET: &[Row] = &[
    (
        PLAIN,
        "1__2 3__4 5__6",
        &[Read(1)],
        &[Flags(IGNORING), Read(1)],
    ),
    (
        PLAIN,
        "1__2 3__4 5__6",
        &[Flags(IGNORING), Read(1)],
        &[Flags(PLAIN), Read(1)],
    ),
    (
        PLAIN,
        "await yield 010",
        &[Read(1)],
        &[Flags(STRICT), Read(2)],
    ),
    // Nothing waits at the checkpoint, so that none is missing behind it.
    (
        PLAIN,
        "a 010 08",
        &[Read(1)],
        &[Read(1), Flags(MODULE), Read(1)],
    ),
    (PLAIN, "a<b", &[Read(1), Allow(true)], &[Allow(false)]),
    (PLAIN, "a/b/c", &[Allow(false)], &[Allow(true), Read(3)]),
    (PLAIN, "({})", &[Read(2)], &[PopContext, PopContext]),
    (PLAIN, "({})", &[Read(2), PopContext], &[Read(2)]),
    (PLAIN, "{}", &[PopContext], &[Read(2)]),
];

/// Makes a checkpoint behind the first commands, and goes back there twice, from behind the others.
fn twice(
    alloc: Global,
    before: &[Command],
    between: &[Command],
) -> Result<Vec<Command>, AllocError> {
    let mut commands = Vec::new(alloc);
    commands.extend_from_slice(before)?;
    commands.push(Save)?;
    for _ in 0..2 {
        commands.extend_from_slice(between)?;
        commands.push(Go(0))?;
    }
    Ok(commands)
}

fn assert_rows(rt: &impl Abort, alloc: Global, rows: &[Row]) -> Result<(), Fail> {
    for (settings, text, before, between) in rows {
        let commands = twice(alloc, before, between)?;
        assert_written(rt, alloc, (*settings, text), &commands, "back; back")?;
    }
    Ok(())
}

#[test]
fn tokens_come_as_at_first(rt: HostRuntime) -> Result<(), Fail> {
    assert_rows(&rt, rt.alloc(), TOKENS)
}

#[test]
fn slashes_come_as_at_first(rt: HostRuntime) -> Result<(), Fail> {
    assert_rows(&rt, rt.alloc(), SLASHES)
}

#[test]
fn comments_come_as_at_first(rt: HostRuntime) -> Result<(), Fail> {
    assert_rows(&rt, rt.alloc(), COMMENTS)
}

#[test]
fn errors_come_as_at_first(rt: HostRuntime) -> Result<(), Fail> {
    assert_rows(&rt, rt.alloc(), ERRORS)
}

#[test]
fn what_is_set_comes_as_at_first(rt: HostRuntime) -> Result<(), Fail> {
    assert_rows(&rt, rt.alloc(), SET)
}
