//! Canonical texts: those of a list of steps, and of the tokens that it keeps.
use super::commands::Command::{
    self, Allow, Back, Contexts, Flags, Pop, Read, ReadAll, Reread, Save, Take, Withdraw,
};
use super::commands::steps_of;
use super::told::assert_text;
use ecma_canonical::{Canon, canonical, canonical_text};
use ecma_place::{BytePos, StringInput};
use ecma_replay::replay;
use ecma_state::Step;
use listing::listing::{MODULE, PLAIN, STANDARD, Settings, lexer_settings};
use std::alloc::{AllocError, Global};
use std::process::Abort;
use std::test::Fail;

/// What stands for a canonical text where there is none: those that hold these characters have spaces between them.
pub(super) const NOT_CLEAN: &str = "(not clean)";

/// The same where the text would be too long.
const TOO_LONG: &str = "(too long)";

/// Where a text starts, the text, what is done with it, and its canonical text.
type Row = (u32, &'static str, &'static [Command], &'static str);

const ROWS: &[Row] = &[
    (0, "`a${b}c`", &[ReadAll], "`a${ b }c`"),
    (0, "", &[Read], ""),
    (0, "a\n-->x\nb", &[ReadAll], "a\nb"),
    (0, "0b12", &[ReadAll], "0b1 2"),
    (0, " #!x", &[ReadAll], "# ! x"),
    (0, "a/*x*/+b\nc", &[ReadAll], "a + b\nc"),
    (0, "a?.b", &[ReadAll], "a ? . b"),
    (0, "`${)x`", &[ReadAll], "`${ )x`"),
    (4_294_967_290, "a+b", &[Read, Read, Read, Read], "a + b"),
];

const ROWS_OF_STEPS: &[Row] = &[
    (
        0,
        "a / /b/g",
        &[Read, Read, Read, Reread, Read, Withdraw, Read],
        "a / /b/g",
    ),
    // The unterminated string is gone back on.
    (
        0,
        "/'/ a",
        &[
            Read,
            Save,
            Read,
            Back(0),
            Reread,
            Read,
            Withdraw,
            Read,
            Read,
        ],
        "/'/ a",
    ),
    // No error is there to be taken.
    (0, "a ;", &[Read, Take, Read, Read], "a ;"),
    // An error and that it was taken are gone back on.
    (
        0,
        "/'/",
        &[
            Read,
            Save,
            Read,
            Take,
            Back(0),
            Reread,
            Read,
            Withdraw,
            Read,
        ],
        "/'/",
    ),
    (
        0,
        ";/a/",
        &[Read, Allow(false), Read, Reread, Read, Withdraw, Read],
        "; /a/",
    ),
    (0, "<!--x", &[Read], ""),
];

/// Others have none.
const ROWS_OF_NONE: &[Row] = &[
    (4_294_967_291, "a+b", &[Read, Read, Read, Read], TOO_LONG),
    (
        0,
        "/a/",
        &[Read, Reread, Read, Read, Withdraw, Read],
        NOT_CLEAN,
    ),
    (0, "3in", &[ReadAll], NOT_CLEAN),
    (0, " ", &[], NOT_CLEAN),
    (0, "a b", &[Read, Read], NOT_CLEAN),
    (0, "€", &[ReadAll], NOT_CLEAN),
    (0, "1__2", &[Read, Take, Read], NOT_CLEAN),
    (0, "<!--x", &[Read, Flags(MODULE)], NOT_CLEAN),
    (0, "a", &[Pop, Read, Read], NOT_CLEAN),
    (0, "a", &[Contexts(&[]), Read, Read], NOT_CLEAN),
];

/// A text by the crate's rule or the standard's, and its canonical text.
const ROWS_BY_RULE: &[(Settings, &str, &str)] = &[
    (PLAIN, "0b12", "0b1 2"),
    (STANDARD, "0b12", NOT_CLEAN),
    (PLAIN, "0b1 2", "0b1 2"),
    (STANDARD, "0b1 2", "0b1 2"),
];

/// What `canonical` answers.
pub(super) fn canon_told(
    alloc: Global,
    settings: Settings,
    text: &str,
    steps: &[Step],
) -> Result<String, AllocError> {
    let start = BytePos(settings.start);
    if !StringInput::fits(text, start) {
        return Err(AllocError);
    }
    let mut told = String::new(alloc);
    match canonical(alloc, &lexer_settings(settings), text, start, steps)? {
        Canon::Text(own) => return Ok(own),
        Canon::NotClean => told.push_str(NOT_CLEAN)?,
        Canon::TooLong => told.push_str(TOO_LONG)?,
    }
    Ok(told)
}

/// What `canonical_text` makes of the tokens that a replay keeps.
fn joined(alloc: Global, text: &str, start: BytePos, steps: &[Step]) -> Result<String, AllocError> {
    if !StringInput::fits(text, start) {
        return Err(AllocError);
    }
    let found = replay(alloc, &lexer_settings(PLAIN), text, start, steps)?;
    canonical_text(alloc, text, start, &found.kept)
}

/// `canonical` answers this.
fn assert_canon(
    rt: &impl Abort,
    alloc: Global,
    (settings, text): (Settings, &str),
    commands: &[Command],
    expected: &str,
) -> Result<(), AllocError> {
    let steps = steps_of(alloc, commands, text.len())?;
    let canon = canon_told(alloc, settings, text, &steps)?;
    assert_text(rt, text, canon.as_str(), expected);
    Ok(())
}

fn assert_rows(rt: &impl Abort, alloc: Global, rows: &[Row]) -> Result<(), Fail> {
    for (start, text, commands, expected) in rows {
        let settings = Settings {
            start: *start,
            ..PLAIN
        };
        assert_canon(rt, alloc, (settings, text), commands, expected)?;
    }
    Ok(())
}

/// The tokens that are kept have this canonical text.
fn assert_joined(rt: &impl Abort, alloc: Global, row: &Row) -> Result<(), AllocError> {
    let (start, text, commands, expected) = row;
    let steps = steps_of(alloc, commands, text.len())?;
    let joined = joined(alloc, text, BytePos(*start), &steps)?;
    assert_text(rt, text, joined.as_str(), expected);
    Ok(())
}

/// Steps, and the tokens that they keep, have the same canonical text.
fn assert_same(rt: &impl Abort, alloc: Global, rows: &[Row]) -> Result<(), Fail> {
    assert_rows(rt, alloc, rows)?;
    for row in rows {
        assert_joined(rt, alloc, row)?;
    }
    Ok(())
}

#[test]
fn canonical_texts_are_told(rt: HostRuntime) -> Result<(), Fail> {
    assert_same(&rt, rt.alloc(), ROWS)
}

#[test]
fn plain_steps_have_canonical_texts(rt: HostRuntime) -> Result<(), Fail> {
    assert_same(&rt, rt.alloc(), ROWS_OF_STEPS)
}

#[test]
fn others_have_none(rt: HostRuntime) -> Result<(), Fail> {
    assert_rows(&rt, rt.alloc(), ROWS_OF_NONE)
}

#[test]
fn numbers_are_read_by_the_rule(rt: HostRuntime) -> Result<(), Fail> {
    for (settings, text, expected) in ROWS_BY_RULE {
        assert_canon(&rt, rt.alloc(), (*settings, text), &[ReadAll], expected)?;
    }
    Ok(())
}
