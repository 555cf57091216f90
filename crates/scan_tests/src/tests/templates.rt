//! Template text: what it means, why it has no meaning, and what meets the end.
use super::written::{check, write_found_token};
use ecma_place::{BytePos, StringInput};
use ecma_scan::scan_template;
use std::alloc::{AllocError, Global};
use std::test::Fail;

/// Writes what is found in a template at the cursor, where there is text. A back quote at the place 0 opened the
/// template.
fn write_template(
    alloc: Global,
    line: &mut String,
    input: &mut StringInput,
    after_template: bool,
) -> Result<(), AllocError> {
    if input.cur().is_none() {
        return Ok(());
    }
    let found = scan_template(alloc, input, BytePos(0), after_template)?;
    write_found_token(line, found, input)
}

/// What is found in a template at the start of the text, which a back quote stands before, written.
fn template_of(alloc: Global, text: &str, after_template: bool) -> Result<String, AllocError> {
    let mut line = String::new(alloc);
    if StringInput::fits(text, BytePos(1)) {
        let mut input = StringInput::new(text, BytePos(1));
        write_template(alloc, &mut line, &mut input, after_template)?;
    }
    Ok(line)
}

const TEXTS: &[(&str, &str)] = &[
    ("a`", "1..2 Template borrowed \"a\""),
    ("a$b${", "1..4 Template borrowed \"a$b\""),
    ("`", "1..1 Template borrowed \"\""),
    ("\r\n`", "1..3 Template owned \"\\n\", line break"),
    ("\r`", "1..2 Template owned \"\\n\", line break"),
    ("\n`", "1..2 Template borrowed \"\\n\", line break"),
    (
        "\u{2028}`",
        "1..4 Template borrowed \"\\u{2028}\", line break",
    ),
    ("a\\\nb`", "1..5 Template owned \"ab\""),
    ("\\r\\8\\ud800`", "1..11 Template owned \"\\r8\\\\ud800\""),
];

#[test]
fn reads_template_text(rt: HostRuntime) -> Result<(), Fail> {
    for (text, line) in TEXTS {
        check(&rt, text, template_of(rt.alloc(), text, false), line)?;
    }
    Ok(())
}

const BEHIND_TEXT: &[(&str, &str)] = &[
    ("`", "1..2 BackQuote"),
    ("${", "1..3 DollarLBrace"),
    ("a`", "1..2 Template borrowed \"a\""),
];

#[test]
fn reads_marks_behind_template_text(rt: HostRuntime) -> Result<(), Fail> {
    for (text, line) in BEHIND_TEXT {
        check(&rt, text, template_of(rt.alloc(), text, true), line)?;
    }
    Ok(())
}

const REFUSED_ESCAPES: &[(&str, &str)] = &[
    (
        "\\u{110000}`",
        "1..11 Template BadCharacterEscapeSequence { expected: \"1-6 hex characters in the range 0 to 10FFFF.\" } 1..10",
    ),
    (
        "\\u{110000}\\x4`",
        "1..14 Template BadCharacterEscapeSequence { expected: \"2 hex characters\" } 11..14",
    ),
    ("a\\u{41`", "1..7 Template InvalidUnicodeEscape 2..7"),
    ("\\01`", "1..4 Template LegacyOctal 1..3"),
];

#[test]
fn refuses_escapes_in_template_text(rt: HostRuntime) -> Result<(), Fail> {
    for (text, line) in REFUSED_ESCAPES {
        check(&rt, text, template_of(rt.alloc(), text, false), line)?;
    }
    Ok(())
}

const OPEN_TEXTS: &[(&str, &str)] = &[
    (" ", "1..2 UnterminatedTpl 0..2"),
    ("a\n", "1..3 UnterminatedTpl 0..3, line break"),
    ("a\\", "1..3 UnterminatedTpl 0..3"),
];

#[test]
fn refuses_text_that_meets_the_end(rt: HostRuntime) -> Result<(), Fail> {
    for (text, line) in OPEN_TEXTS {
        for after_template in [false, true] {
            check(
                &rt,
                text,
                template_of(rt.alloc(), text, after_template),
                line,
            )?;
        }
    }
    Ok(())
}
