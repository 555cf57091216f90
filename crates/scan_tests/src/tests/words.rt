//! Words, with escapes and without: where they end, which word they are, and what is said of them.
use super::written::{check, write_found_word};
use ecma_place::{BytePos, CharExt, StringInput};
use ecma_scan::scan_word;
use ecma_syntax::Context;
use std::alloc::{AllocError, Global};
use std::test::Fail;

/// Writes what is found of the word at the cursor, where one begins.
fn write_word(
    alloc: Global,
    line: &mut String,
    input: &mut StringInput,
    context: &Context,
) -> Result<(), AllocError> {
    match input.cur() {
        Some(c) if c.is_ident_start() || c == '\\' => {}
        _ => return Ok(()),
    }
    let found = scan_word(alloc, input, context)?;
    write_found_word(line, &found, input)
}

/// What is found of the word with which a text at a place begins, written.
fn word_of(
    alloc: Global,
    text: &str,
    start: BytePos,
    context: &Context,
) -> Result<String, AllocError> {
    let mut line = String::new(alloc);
    if StringInput::fits(text, start) {
        let mut input = StringInput::new(text, start);
        write_word(alloc, &mut line, &mut input, context)?;
    }
    Ok(line)
}

/// Each with the place where the text starts.
const WORDS: &[(&str, u32, &str)] = &[
    ("let1 let", 3, "3..7 borrowed \"let1\""),
    ("let", 0, "0..3 keyword let"),
    ("abc d", 0, "0..3 borrowed \"abc\""),
    ("été", 0, "0..5 borrowed \"été\""),
    ("a\\u{62}c", 0, "0..8 owned \"abc\""),
    ("\\u0061€", 0, "0..6 owned \"a\""),
    ("é\\u{e9}é1", 0, "0..11 owned \"ééé1\""),
    ("l\\u0065t", 0, "0..8 keyword let"),
    ("\\u0061\\u0073", 0, "0..12 known as"),
    (
        "\\u0031a",
        0,
        "0..7 owned \"1a\", Always InvalidIdentChar 0..6",
    ),
    ("a\\u0031", 0, "0..7 owned \"a1\""),
    (
        "a\\u0020b",
        0,
        "0..8 owned \"a b\", Always InvalidIdentChar 1..7",
    ),
    (
        "a\\ud800",
        0,
        "0..7 owned \"a\\\\ud800\", Always InvalidIdentChar 1..7",
    ),
];

#[test]
fn reads_words(rt: HostRuntime) -> Result<(), Fail> {
    let context = Context::default();
    for (text, start, line) in WORDS {
        let written = word_of(rt.alloc(), text, BytePos(*start), &context);
        check(&rt, text, written, line)?;
    }
    Ok(())
}

const REFUSED_WORDS: &[(&str, &str)] = &[
    (
        "\\u0062reak",
        "0..10 EscapeInReservedWord { word: \"break\" } 0..10",
    ),
    (
        "n\\u{75}ll",
        "0..9 EscapeInReservedWord { word: \"null\" } 0..9",
    ),
    ("a\\x", "0..2 ExpectedUnicodeEscape 1..1"),
    ("ab\\", "0..3 ExpectedUnicodeEscape 2..2"),
    ("\\u{61", "0..5 InvalidUnicodeEscape 3..5"),
    (
        "\\u0031\\u61",
        "0..10 BadCharacterEscapeSequence { expected: \"4 hex characters\" } 10..10, Always InvalidIdentChar 0..6",
    ),
];

#[test]
fn refuses_words(rt: HostRuntime) -> Result<(), Fail> {
    let context = Context::default();
    for (text, line) in REFUSED_WORDS {
        let written = word_of(rt.alloc(), text, BytePos(0), &context);
        check(&rt, text, written, line)?;
    }
    Ok(())
}

const STRICT_WORDS: &[(&str, &str)] = &[
    ("let", "0..3 keyword let"),
    (
        "l\\u0065t",
        "0..8 EscapeInReservedWord { word: \"let\" } 0..8",
    ),
];

#[test]
fn refuses_escapes_in_words_of_strict_code(rt: HostRuntime) -> Result<(), Fail> {
    let context = Context {
        strict: true,
        ..Context::default()
    };
    for (text, line) in STRICT_WORDS {
        let written = word_of(rt.alloc(), text, BytePos(0), &context);
        check(&rt, text, written, line)?;
    }
    Ok(())
}
