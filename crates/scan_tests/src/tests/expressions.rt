//! Regular expressions: body and flags, and why one is refused.
ghost use Rattle.std.specs.Prelude.{◌≡◌, IsTrue, true};
ghost use Rattle.ecma_place.specs.Cursor.{rest};
ghost use Rattle.ecma_scan.specs.Expressions.{opens_expression};

use super::written::{check, write_found_token};
use ecma_place::{BytePos, StringInput};
use ecma_scan::scan_regexp;
use std::alloc::{AllocError, Global};
use std::test::Fail;

/// Whether a slash stands at the cursor.
fn is_at_slash(input: &StringInput) -> bool
    ensures { IsTrue result → opens_expression (rest input.now) ≡ true }
{
    input.cur() == Some('/')
}

/// Writes what is found of the expression at the cursor, where one begins.
fn write_expression(
    alloc: Global,
    line: &mut String,
    input: &mut StringInput,
) -> Result<(), AllocError> {
    if !is_at_slash(input) {
        return Ok(());
    }
    let found = scan_regexp(alloc, input)?;
    write_found_token(line, found, input)
}

/// What is found of the expression with which the text begins, written.
fn expression_of(alloc: Global, text: &str) -> Result<String, AllocError> {
    let mut line = String::new(alloc);
    if StringInput::fits(text, BytePos(0)) {
        let mut input = StringInput::new(text, BytePos(0));
        write_expression(alloc, &mut line, &mut input)?;
    }
    Ok(line)
}

const EXPRESSIONS: &[(&str, &str)] = &[
    ("/b/g", "0..4 Regex borrowed \"b\" borrowed \"g\""),
    ("/[/]/", "0..5 Regex borrowed \"[/]\" borrowed \"\""),
    ("/\\//", "0..4 Regex borrowed \"\\\\/\" borrowed \"\""),
    ("/x/g\\u0069", "0..10 Regex borrowed \"x\" owned \"gi\""),
    (
        "/x/g\\u002d",
        "0..10 Regex borrowed \"x\" owned \"g-\", Always InvalidIdentChar 4..10",
    ),
    (
        "/a[\\]/]b/ g",
        "0..9 Regex borrowed \"a[\\\\]/]b\" borrowed \"\"",
    ),
    ("/x/\\u0069", "0..3 Regex borrowed \"x\" borrowed \"\""),
];

#[test]
fn reads_expressions(rt: HostRuntime) -> Result<(), Fail> {
    for (text, line) in EXPRESSIONS {
        check(&rt, text, expression_of(rt.alloc(), text), line)?;
    }
    Ok(())
}

const REFUSED_EXPRESSIONS: &[(&str, &str)] = &[
    ("/a\n/", "0..2 UnterminatedRegExp 0..2"),
    ("/a", "0..2 UnterminatedRegExp 0..2"),
    ("/[/", "0..3 UnterminatedRegExp 0..3"),
    ("/\\\n/", "0..2 UnterminatedRegExp 0..2"),
    ("/x/g\\x", "0..5 ExpectedUnicodeEscape 4..4"),
];

#[test]
fn refuses_expressions(rt: HostRuntime) -> Result<(), Fail> {
    for (text, line) in REFUSED_EXPRESSIONS {
        check(&rt, text, expression_of(rt.alloc(), text), line)?;
    }
    Ok(())
}
