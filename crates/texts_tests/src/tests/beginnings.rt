//! Beginnings of texts: the text of each row, cut between any two characters, is read to its end.
use super::listed::{keeps_answers, play};
use super::{attached, code, errors, gaps, numbers, reader_texts, strings, templates, words};
use ecma_state::Kept;
use listing::listing::{COLLECTING, Row, Settings};
use std::alloc::{AllocError, Global};
use std::process::Abort;
use std::test::Fail;

/// Texts of other tables.
const MORE_TEXTS: &[&str] = &[
    "a / /b/g",
    "a/ //x",
    "/x/g\\u0069",
    "a /b\n",
    "/a/b/",
    "/=/",
    "a/*b*/",
    "<!--x",
    "}",
    "a\nb/c",
    "1__2",
    "000",
    "/**/a",
    "`",
    "x=function(){}",
    "} function",
    "a/*x*/+b\nc",
    "/'/ a",
    "a 1__2",
    "a+b",
    "a?.b",
    "`${)x`",
    "0b1 2",
    "1n2",
    "3\\u0061",
    "0_1",
    "08_1",
    "1_0",
    "0_",
    "a\n--> \nb",
    "'",
    "\"",
];

/// Where each text starts.
const START: u32 = 7;

const SLOPPY: Settings = Settings {
    start: START,
    ..COLLECTING
};

const STRICT: Settings = Settings {
    strict: true,
    ..SLOPPY
};

/// Both languages, strict and not.
const WAYS: &[Settings] = &[
    SLOPPY,
    STRICT,
    Settings { ts: true, ..SLOPPY },
    Settings { ts: true, ..STRICT },
];

/// The tokens of a text, if it is read to its end and those that are answered are kept.
fn kept(alloc: Global, settings: Settings, text: &str) -> Result<Option<Vec<Kept>>, AllocError> {
    let found = play(alloc, settings, text)?;
    if found.ended && keeps_answers(&found) {
        Ok(Some(found.kept))
    } else {
        Ok(None)
    }
}

/// What stands from one place up to another, or to the end, unless these are not in order, or not in the text.
fn part(text: &str, from: u32, to: Option<u32>) -> Option<&str> {
    let from = from.checked_sub(START)? as usize;
    match to {
        Some(to) => text.get(from..to.checked_sub(START)? as usize),
        None => text.get(from..),
    }
}

/// Whether this is a part of a text, in which no token is read by itself.
fn is_gap(alloc: Global, settings: Settings, part: Option<&str>) -> Result<bool, AllocError> {
    let Some(part) = part else {
        return Ok(false);
    };
    match kept(alloc, settings, part)? {
        Some(tokens) => Ok(tokens.is_empty()),
        None => Ok(false),
    }
}

/// Whether a text is these tokens, each a part of it behind the one before, and but gaps around them.
fn is_tiled(
    alloc: Global,
    settings: Settings,
    text: &str,
    tokens: &[Kept],
) -> Result<bool, AllocError> {
    let mut end = START;
    for token in tokens {
        let (low, high) = (token.span.lo.0, token.span.hi.0);
        let gap = part(text, end, Some(low));
        if part(text, low, Some(high)).is_none() || !is_gap(alloc, settings, gap)? {
            return Ok(false);
        }
        end = high;
    }
    is_gap(alloc, settings, part(text, end, None))
}

/// Whether a text is read whole.
fn is_whole(alloc: Global, settings: Settings, text: &str) -> Result<bool, AllocError> {
    match kept(alloc, settings, text)? {
        Some(tokens) => is_tiled(alloc, settings, text, &tokens),
        None => Ok(false),
    }
}

/// The beginning of a text up to there, where a character begins, is read whole.
fn assert_beginning(
    rt: &impl Abort,
    alloc: Global,
    settings: Settings,
    text: &str,
    end: usize,
) -> Result<(), AllocError> {
    if let Some(beginning) = text.get(..end) {
        assert!(rt; is_whole(alloc, settings, beginning)?, "{beginning:?}");
    }
    Ok(())
}

/// Each beginning of a text is read whole, in both languages, strict and not.
fn assert_beginnings(rt: &impl Abort, alloc: Global, text: &str) -> Result<(), AllocError> {
    for settings in WAYS {
        for end in 0..=text.len() {
            assert_beginning(rt, alloc, *settings, text, end)?;
        }
    }
    Ok(())
}

fn assert_texts(rt: &impl Abort, alloc: Global, texts: &[&str]) -> Result<(), Fail> {
    for text in texts {
        assert_beginnings(rt, alloc, text)?;
    }
    Ok(())
}

/// The same of the texts of a table.
fn assert_rows(rt: &impl Abort, alloc: Global, rows: &[Row]) -> Result<(), Fail> {
    for (_, text, _) in rows {
        assert_beginnings(rt, alloc, text)?;
    }
    Ok(())
}

#[test]
fn beginnings_with_comments_are_read_whole(rt: HostRuntime) -> Result<(), Fail> {
    assert_rows(&rt, rt.alloc(), attached::ROWS)?;
    assert_rows(&rt, rt.alloc(), attached::ODD_ROWS)
}

#[test]
fn beginnings_with_gaps_are_read_whole(rt: HostRuntime) -> Result<(), Fail> {
    assert_rows(&rt, rt.alloc(), gaps::ROWS)?;
    assert_rows(&rt, rt.alloc(), gaps::HTML_LIKE_ROWS)?;
    assert_rows(&rt, rt.alloc(), gaps::MARKER_ROWS)
}

#[test]
fn beginnings_of_code_are_read_whole(rt: HostRuntime) -> Result<(), Fail> {
    assert_rows(&rt, rt.alloc(), code::ROWS)?;
    assert_rows(&rt, rt.alloc(), words::ROWS)?;
    assert_rows(&rt, rt.alloc(), errors::ROWS)
}

#[test]
fn beginnings_of_literals_are_read_whole(rt: HostRuntime) -> Result<(), Fail> {
    assert_rows(&rt, rt.alloc(), numbers::ROWS)?;
    assert_rows(&rt, rt.alloc(), strings::ROWS)
}

#[test]
fn beginnings_of_templates_are_read_whole(rt: HostRuntime) -> Result<(), Fail> {
    assert_rows(&rt, rt.alloc(), templates::ROWS)?;
    assert_rows(&rt, rt.alloc(), templates::COOKED_ROWS)?;
    assert_rows(&rt, rt.alloc(), templates::INSIDE_ROWS)
}

#[test]
fn beginnings_of_more_texts_are_read_whole(rt: HostRuntime) -> Result<(), Fail> {
    assert_texts(&rt, rt.alloc(), MORE_TEXTS)
}

#[test]
fn beginnings_of_literals_of_readers_are_read_whole(rt: HostRuntime) -> Result<(), Fail> {
    assert_texts(&rt, rt.alloc(), reader_texts::NUMBERS)?;
    assert_texts(&rt, rt.alloc(), reader_texts::STRINGS)?;
    assert_texts(&rt, rt.alloc(), reader_texts::TEMPLATES)?;
    assert_texts(&rt, rt.alloc(), reader_texts::EXPRESSIONS)
}

#[test]
fn beginnings_of_other_texts_of_readers_are_read_whole(rt: HostRuntime) -> Result<(), Fail> {
    assert_texts(&rt, rt.alloc(), reader_texts::WORDS)?;
    assert_texts(&rt, rt.alloc(), reader_texts::PUNCTUATORS)?;
    assert_texts(&rt, rt.alloc(), reader_texts::GAPS)?;
    assert_texts(&rt, rt.alloc(), reader_texts::BLANKS)
}
