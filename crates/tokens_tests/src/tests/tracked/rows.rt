//! What the tests share: rows of texts, and what commands write of them.
use super::driver::Command::{self, Write, WriteAll};
use super::driver::run;
use listing::listing::{COLLECTING, MODULE, PLAIN, Settings, TS};
use std::alloc::{AllocError, Global};
use std::process::Abort;
use std::test::Fail;

/// What a text is read by, the text, and what is written of it: mostly its tokens with a space between them.
pub type Row = (Settings, &'static str, &'static str);

/// What was found in a text is this. Here alone, as it brings printing into a proof.
pub fn assert_found(rt: &impl Abort, text: &str, found: &str, expected: &str) {
    assert_eq!(rt; found, expected, "in {text}");
}

/// The commands write this.
pub fn assert_written(
    rt: &impl Abort,
    alloc: Global,
    (settings, text): (Settings, &str),
    commands: &[Command],
    expected: &str,
) -> Result<(), AllocError> {
    let found = run(alloc, settings, text, commands)?;
    assert_found(rt, text, found.as_str(), expected);
    Ok(())
}

/// The commands write of each text what its row has.
pub fn assert_rows(
    rt: &impl Abort,
    alloc: Global,
    rows: &[Row],
    commands: &[Command],
) -> Result<(), Fail> {
    for (settings, text, expected) in rows {
        assert_written(rt, alloc, (*settings, text), commands, expected)?;
    }
    Ok(())
}

const TEXTS: &[Row] = &[
    (TS, "x! / y / z", "x ! / y / z"),
    (PLAIN, "a ? (b) : /re/g / c", "a ? ( b ) : /re/g / c"),
    (PLAIN, "`a${/b/}c` / d", "` a ${ /b/ } c ` / d"),
    (PLAIN, "x = {} / 2; {} /r/", "x = { } / 2 ; { } /r/"),
    (PLAIN, "if (a / b) /r/.x", "if ( a / b ) /r/ . x"),
    (COLLECTING, "/*a*/ b /*c*/ / /*d*/ e", "b / e"),
    (PLAIN, "a = 0_1 / /b", "a = 0_1 / /b"),
    (MODULE, "import \"a\"\n/r/", "import \"a\" /r/"),
];

/// More than the tokens of each of the texts.
pub const MOST: usize = 16;

/// The commands with so many tokens written before them, and the others behind them.
fn amid(alloc: Global, before: usize, commands: &[Command]) -> Result<Vec<Command>, AllocError> {
    let mut all = Vec::new(alloc);
    all.push(Write(before))?;
    all.extend_from_slice(commands)?;
    all.push(WriteAll)?;
    Ok(all)
}

/// The texts have their tokens, also where the commands are done in between, behind however many of them.
pub fn assert_unchanged(rt: &impl Abort, alloc: Global, commands: &[Command]) -> Result<(), Fail> {
    for before in 0..MOST {
        let all = amid(alloc, before, commands)?;
        assert_rows(rt, alloc, TEXTS, &all)?;
    }
    Ok(())
}
