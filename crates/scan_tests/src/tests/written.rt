//! What a reader found, written as one line, so that a row of a table says it as a text.
//!
//! A line begins with where the text stands that was read. What goes without saying is not written: that the cursor
//! stands behind that text, that no line terminator is in it, and that a token's spelling borrows it.
use ecma_place::{Atom, BytePos, Comment, Span, Spanned, StringInput};
use ecma_scan::{Bars, Blame, Found, Gap};
use ecma_syntax::{IdentLike, Word};
use ecma_token::{Error, Radix, Token};
use std::alloc::AllocError;
use std::process::Abort;
use std::test::Fail;

/// What was written of a text is what its row says. Here alone, as it brings printing into a proof.
fn assert_line(rt: &impl Abort, text: &str, found: &str, expected: &str) {
    assert_eq!(rt; found, expected, "{text:?}");
}

/// Asserts that this is what was written of the text.
pub(super) fn check(
    rt: &impl Abort,
    text: &str,
    written: Result<String, AllocError>,
    expected: &str,
) -> Result<(), Fail> {
    assert_line(rt, text, written?.as_str(), expected);
    Ok(())
}

fn write_span(line: &mut String, span: Span) -> Result<(), AllocError> {
    write!(line, "{}..{}", span.lo.0, span.hi.0)
}

/// What is wrong, and where.
fn write_error(line: &mut String, error: &Error) -> Result<(), AllocError> {
    write!(line, " {:?} ", error.kind())?;
    write_span(line, error.span())
}

fn write_faults(line: &mut String, faults: &[(Blame, Error)]) -> Result<(), AllocError> {
    for (blame, error) in faults {
        write!(line, ", {blame:?}")?;
        write_error(line, error)?;
    }
    Ok(())
}

fn holding(text: &Atom) -> &'static str {
    if text.is_borrowed() {
        "borrowed"
    } else {
        "owned"
    }
}

/// How a text is held, and what it is.
fn write_text(line: &mut String, text: &Atom) -> Result<(), AllocError> {
    write!(line, " {} {:?}", holding(text), text.as_str())
}

fn write_line_break(line: &mut String, line_break: bool) -> Result<(), AllocError> {
    line.push_str(if line_break { ", line break" } else { "" })
}

/// Where the cursor stands, if not behind what was read.
fn write_cursor(line: &mut String, input: &StringInput, end: BytePos) -> Result<(), AllocError> {
    let cursor = input.cur_pos();
    if cursor == end {
        return Ok(());
    }
    write!(line, ", cursor at {}", cursor.0)
}

/// The text that stands there.
fn text_in<'a>(input: &StringInput<'a>, span: Span) -> &'a str {
    if span.lo <= span.hi && input.has_place(span.lo) && input.has_place(span.hi) {
        input.slice(span.lo, span.hi)
    } else {
        ""
    }
}

/// How a token is spelled, if that does not borrow the text that was read.
fn write_raw(line: &mut String, raw: &Atom, text: &str) -> Result<(), AllocError> {
    if raw.is_borrowed() && raw.as_str() == text {
        return Ok(());
    }
    line.push_str(", spelled")?;
    write_text(line, raw)
}

fn write_digits(line: &mut String, radix: Radix, digits: &Atom) -> Result<(), AllocError> {
    write!(line, " {radix:?} {} {}", holding(digits), digits.as_str())
}

fn write_whole(line: &mut String, whole: Option<u128>) -> Result<(), AllocError> {
    match whole {
        Some(number) => write!(line, " = {number}"),
        None => Ok(()),
    }
}

/// What template text means, or why it has no meaning.
fn write_cooked(line: &mut String, cooked: &Result<Atom, Error>) -> Result<(), AllocError> {
    match cooked {
        Ok(text) => write_text(line, text),
        Err(error) => write_error(line, error),
    }
}

/// What a token holds; `read` is the text that was read.
fn write_held(line: &mut String, token: &Token, read: &str) -> Result<(), AllocError> {
    match token {
        Token::Str { value, raw } => {
            write_text(line, value)?;
            write_raw(line, raw, read)
        }
        Token::Template { raw, cooked } => {
            write_cooked(line, cooked)?;
            write_raw(line, raw, read)
        }
        Token::Num {
            raw,
            radix,
            digits,
            whole,
        } => {
            write_digits(line, *radix, digits)?;
            write_whole(line, *whole)?;
            write_raw(line, raw, read)
        }
        Token::BigInt { raw, radix, digits } => {
            write_digits(line, *radix, digits)?;
            write_raw(line, raw, read)
        }
        Token::Regex(body, flags) => {
            write_text(line, body)?;
            write_text(line, flags)
        }
        Token::Shebang(text) => write_text(line, text),
        _ => Ok(()),
    }
}

/// The kind of a token, and what it holds; `read` is the text that was read.
fn write_token(line: &mut String, token: &Token, read: &str) -> Result<(), AllocError> {
    write!(line, " {:?}", token.kind())?;
    write_held(line, token, read)
}

/// What is written behind what was found: its faults, whether a line terminator is in it, and where the cursor stands.
fn write_rest(
    line: &mut String,
    faults: &[(Blame, Error)],
    line_break: bool,
    input: &StringInput,
    end: BytePos,
) -> Result<(), AllocError> {
    write_faults(line, faults)?;
    write_line_break(line, line_break)?;
    write_cursor(line, input, end)
}

/// A token that was found, or why the text is refused. The token is dropped here, once for all readers, as each function that
/// drops one proves how.
pub(super) fn write_found_token(
    line: &mut String,
    found: Found<Token>,
    input: &StringInput,
) -> Result<(), AllocError> {
    write_found(line, &found, input)
}

fn write_found(
    line: &mut String,
    found: &Found<Token>,
    input: &StringInput,
) -> Result<(), AllocError> {
    write_span(line, found.extent)?;
    match &found.value {
        Ok(token) => write_token(line, token, text_in(input, found.extent))?,
        Err(error) => write_error(line, error)?,
    }
    write_rest(
        line,
        &found.faults,
        found.line_break,
        input,
        found.extent.hi,
    )
}

/// A token that was found, or that none stands there. The token is dropped here.
pub(super) fn write_sought_token(
    line: &mut String,
    found: Found<Option<Token>>,
    input: &StringInput,
) -> Result<(), AllocError> {
    write_sought(line, &found, input)
}

fn write_sought(
    line: &mut String,
    found: &Found<Option<Token>>,
    input: &StringInput,
) -> Result<(), AllocError> {
    write_span(line, found.extent)?;
    match &found.value {
        Ok(Some(token)) => write_token(line, token, text_in(input, found.extent))?,
        Ok(None) => line.push_str(" nothing")?,
        Err(error) => write_error(line, error)?,
    }
    write_rest(
        line,
        &found.faults,
        found.line_break,
        input,
        found.extent.hi,
    )
}

fn write_word(line: &mut String, word: &Word) -> Result<(), AllocError> {
    match word {
        Word::Ident(IdentLike::Other(text)) => write_text(line, text),
        Word::Keyword(keyword) => write!(line, " keyword {}", keyword.as_str()),
        _ => write!(line, " known {}", word.as_str()),
    }
}

/// A word that was found, or why the text is refused.
pub(super) fn write_found_word(
    line: &mut String,
    found: &Found<Word>,
    input: &StringInput,
) -> Result<(), AllocError> {
    write_span(line, found.extent)?;
    match &found.value {
        Ok(word) => write_word(line, word)?,
        Err(error) => write_error(line, error)?,
    }
    write_rest(
        line,
        &found.faults,
        found.line_break,
        input,
        found.extent.hi,
    )
}

/// What an escape stands for, which may be nothing, or why it is refused.
pub(super) fn write_found_text(
    line: &mut String,
    found: &Found<Option<Atom>>,
    input: &StringInput,
) -> Result<(), AllocError> {
    write_span(line, found.extent)?;
    match &found.value {
        Ok(Some(text)) => write_text(line, text)?,
        Ok(None) => line.push_str(" nothing")?,
        Err(error) => write_error(line, error)?,
    }
    write_rest(
        line,
        &found.faults,
        found.line_break,
        input,
        found.extent.hi,
    )
}

/// The comments of a gap. `next` stands before one that is for the next token.
fn write_comments(line: &mut String, comments: &[(Comment, bool)]) -> Result<(), AllocError> {
    for (comment, is_next) in comments {
        line.push_str(if *is_next { ", next " } else { ", " })?;
        write!(line, "{:?} ", comment.kind)?;
        write_span(line, comment.span)?;
        write_text(line, &comment.text)?;
    }
    Ok(())
}

/// A gap that reaches over the span.
pub(super) fn write_gap(line: &mut String, gap: &Gap, span: Span) -> Result<(), AllocError> {
    write_span(line, span)?;
    write_line_break(line, gap.line_break)?;
    write_comments(line, &gap.comments)?;
    write_faults(line, &gap.faults)
}

/// A marker of bars that reaches over the span with what stands behind it: the gap, and the error of the bars.
pub(super) fn write_bars(line: &mut String, bars: &Bars, span: Span) -> Result<(), AllocError> {
    write_gap(line, &bars.gap, span)?;
    line.push_str(", bars")?;
    write_error(line, &bars.error)
}
