//! Strings and escapes: where they end, what they stand for, and what is said of them.
use super::written::{check, write_found_text, write_found_token};
use ecma_place::{BytePos, StringInput};
use ecma_scan::{scan_escape, scan_string};
use std::alloc::{AllocError, Global};
use std::test::Fail;

/// Writes what is found of the string at the cursor, where one begins.
fn write_string(
    alloc: Global,
    line: &mut String,
    input: &mut StringInput,
) -> Result<(), AllocError> {
    match input.cur() {
        Some(c) if c == '"' || c == '\'' => {}
        _ => return Ok(()),
    }
    let found = scan_string(alloc, input)?;
    write_found_token(line, found, input)
}

/// What is found of the string with which the text begins, written.
fn string_of(alloc: Global, text: &str) -> Result<String, AllocError> {
    let mut line = String::new(alloc);
    if StringInput::fits(text, BytePos(0)) {
        let mut input = StringInput::new(text, BytePos(0));
        write_string(alloc, &mut line, &mut input)?;
    }
    Ok(line)
}

const STRINGS: &[(&str, &str)] = &[
    ("''", "0..2 Str borrowed \"\""),
    ("'a\"b' c", "0..5 Str borrowed \"a\\\"b\""),
    ("\"a'b\"", "0..5 Str borrowed \"a'b\""),
    ("'é€😀'", "0..11 Str borrowed \"é€😀\""),
    (
        "'a\u{2028}b\u{2029}'",
        "0..10 Str borrowed \"a\\u{2028}b\\u{2029}\"",
    ),
    ("'\\ud800'", "0..8 Str owned \"\\\\ud800\""),
    ("'a\\\r\nb'", "0..7 Str owned \"ab\""),
    ("'\\8\\9\\0'", "0..8 Str owned \"89\\0\""),
    ("'\\u{000000000000000041}'", "0..24 Str owned \"A\""),
    ("'\\x41\\u0042c'", "0..13 Str owned \"ABc\""),
    (
        "'\\n\\r\\t\\b\\v\\f\\\\\\'\\\"'",
        "0..20 Str owned \"\\n\\r\\t\\u{8}\\u{b}\\u{c}\\\\'\\\"\"",
    ),
    ("'\\400'", "0..6 Str owned \" 0\", Strict LegacyOctal 1..3"),
    (
        "'\\0\\01\\377'",
        "0..11 Str owned \"\\0\\u{1}ÿ\", Strict LegacyOctal 3..5, Strict LegacyOctal 6..8",
    ),
];

#[test]
fn reads_strings(rt: HostRuntime) -> Result<(), Fail> {
    for (text, line) in STRINGS {
        check(&rt, text, string_of(rt.alloc(), text), line)?;
    }
    Ok(())
}

/// The letters beside a line separator fill a block of 32 bytes, or lack one of it.
const LINE_SEPARATORS: &[(&str, &str)] = &[
    ("'\u{2028}b'", "0..6 Str borrowed \"\\u{2028}b\""),
    (
        "'aaaaaaaaaaaaaaaaaaaaaaaaaaaaaaa\u{2028}b'",
        "0..37 Str borrowed \"aaaaaaaaaaaaaaaaaaaaaaaaaaaaaaa\\u{2028}b\"",
    ),
    (
        "'aaaaaaaaaaaaaaaaaaaaaaaaaaaaaaaa\u{2028}b'",
        "0..38 Str borrowed \"aaaaaaaaaaaaaaaaaaaaaaaaaaaaaaaa\\u{2028}b\"",
    ),
];

#[test]
fn no_line_separator_ends_a_string(rt: HostRuntime) -> Result<(), Fail> {
    for (text, line) in LINE_SEPARATORS {
        check(&rt, text, string_of(rt.alloc(), text), line)?;
    }
    Ok(())
}

const OPEN_STRINGS: &[(&str, &str)] = &[
    (
        "'",
        "0..1 Str borrowed \"\", Always UnterminatedStrLit 0..1",
    ),
    (
        "'ab\nc'",
        "0..3 Str borrowed \"ab\", Always UnterminatedStrLit 0..3",
    ),
    (
        "\"\\1\r",
        "0..3 Str owned \"\\u{1}\", Strict LegacyOctal 1..3, Always UnterminatedStrLit 0..3",
    ),
];

#[test]
fn reads_strings_that_are_not_closed(rt: HostRuntime) -> Result<(), Fail> {
    for (text, line) in OPEN_STRINGS {
        check(&rt, text, string_of(rt.alloc(), text), line)?;
    }
    Ok(())
}

const REFUSED_STRINGS: &[(&str, &str)] = &[
    ("'\\u{41'", "0..6 InvalidUnicodeEscape 1..6"),
    ("'\\", "0..2 InvalidStrEscape 1..1"),
    (
        "'\\x4'",
        "0..4 BadCharacterEscapeSequence { expected: \"2 hex characters\" } 1..4",
    ),
    (
        "'a\\u12g'",
        "0..6 BadCharacterEscapeSequence { expected: \"4 hex characters\" } 2..6",
    ),
    (
        "'\\u{}'",
        "0..4 BadCharacterEscapeSequence { expected: \"1-6 hex characters\" } 1..4",
    ),
    (
        "'\\1\\u{110000}'",
        "0..12 BadCharacterEscapeSequence { expected: \"1-6 hex characters in the range 0 to 10FFFF.\" } 3..12, Strict LegacyOctal 1..3",
    ),
];

#[test]
fn refuses_strings(rt: HostRuntime) -> Result<(), Fail> {
    for (text, line) in REFUSED_STRINGS {
        check(&rt, text, string_of(rt.alloc(), text), line)?;
    }
    Ok(())
}

/// What is found of the escape with which the text at the place 3 begins, written.
fn escape_of(alloc: Global, text: &str, in_template: bool) -> Result<String, AllocError> {
    let mut line = String::new(alloc);
    if StringInput::fits(text, BytePos(3)) {
        let mut input = StringInput::new(text, BytePos(3));
        if input.is_byte(b'\\') {
            let found = scan_escape(alloc, &mut input, in_template)?;
            write_found_text(&mut line, &found, &input)?;
        }
    }
    Ok(line)
}

/// Each with whether it stands in a template.
const ESCAPES: &[(&str, bool, &str)] = &[
    ("\\n", false, "3..5 owned \"\\n\""),
    ("\\`", true, "3..5 owned \"`\""),
    ("\\\u{2028}", true, "3..7 nothing"),
    ("\\\r\n", false, "3..6 nothing"),
    ("\\8", true, "3..5 owned \"8\""),
    ("\\udfff", true, "3..9 owned \"\\\\udfff\""),
    ("\\47", false, "3..6 owned \"'\", Strict LegacyOctal 3..5"),
    ("\\47", true, "3..5 LegacyOctal 3..5"),
    ("\\", true, "3..4 InvalidStrEscape 3..3"),
    (
        "\\u{110000}",
        true,
        "3..12 BadCharacterEscapeSequence { expected: \"1-6 hex characters in the range 0 to 10FFFF.\" } 3..12",
    ),
];

#[test]
fn reads_escapes(rt: HostRuntime) -> Result<(), Fail> {
    for (text, in_template, line) in ESCAPES {
        check(&rt, text, escape_of(rt.alloc(), text, *in_template), line)?;
    }
    Ok(())
}
