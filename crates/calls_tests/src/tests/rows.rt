//! What the tests share: rows of commands.
use driver::command::Command;
use driver::run::run;
use listing::listing::Settings;
use std::alloc::{AllocError, Global};
use std::process::Abort;
use std::test::Fail;

/// What a text is read by, the text, what is done with its lexer, and what that writes.
pub type Row = (Settings, &'static str, &'static [Command], &'static str);

/// The texts are the same. Here alone, as it brings printing into a proof.
pub fn assert_text(rt: &impl Abort, found: &str, expected: &str) {
    assert_eq!(rt; found, expected);
}

/// The commands write this.
pub fn assert_written(
    rt: &impl Abort,
    alloc: Global,
    (settings, text): (Settings, &str),
    commands: &[Command],
    expected: &str,
) -> Result<(), AllocError> {
    let found = run(alloc, settings, text, commands)?;
    assert_text(rt, found.as_str(), expected);
    Ok(())
}

pub fn assert_rows(rt: &impl Abort, alloc: Global, rows: &[Row]) -> Result<(), Fail> {
    for (settings, text, commands, expected) in rows {
        assert_written(rt, alloc, (*settings, text), commands, expected)?;
    }
    Ok(())
}
