//! Tracked lexers over the texts of rows, and what is written of what they read and expect.
use ecma_place::{BytePos, Span, StringInput};
use ecma_stream::Tokens;
use ecma_syntax::Context;
use ecma_token::TokenAndSpan;
use ecma_tracked::Tracked;
use listing::listing::{Settings, flags, lexer_settings};
use std::alloc::{AllocError, Global};

/// More tokens than any row has.
pub const TOKENS: usize = 60;

/// Before the first token of a text.
pub fn opened<'a>(
    alloc: Global,
    settings: Settings,
    text: &'a str,
) -> Result<Tracked<'a>, AllocError> {
    let start = BytePos(0);
    if !StringInput::fits(text, start) {
        return Err(AllocError);
    }
    Tracked::new(
        alloc,
        &lexer_settings(settings),
        flags(settings),
        text,
        start,
    )
}

/// Has strict code begin behind the token that was read last.
pub fn begin_strict(tracked: &mut Tracked) -> Result<(), AllocError> {
    let context = Context {
        strict: true,
        ..tracked.lexer().ctx()
    };
    tracked.set_ctx(context)
}

/// Where a token stands, which is dropped here.
fn span_of(token: TokenAndSpan) -> Span {
    let span = token.span;
    drop(token);
    span
}

/// Reads a token, and says where it stands.
pub fn next_span(tracked: &mut Tracked) -> Result<Option<Span>, AllocError> {
    match tracked.read()? {
        Some(token) => Ok(Some(span_of(token))),
        None => Ok(None),
    }
}

/// Reads so many tokens.
pub fn read_some(tracked: &mut Tracked, times: usize) -> Result<(), AllocError> {
    for _ in 0..times {
        next_span(tracked)?;
    }
    Ok(())
}

/// Writes these words, behind a space where something was written.
pub fn write_part(out: &mut String, words: &str) -> Result<(), AllocError> {
    if !out.is_empty() {
        out.push(' ')?;
    }
    out.push_str(words)
}

/// Writes what stands there in the text.
fn write_span(out: &mut String, text: &str, span: Span) -> Result<(), AllocError> {
    let found = text.get(span.lo.0 as usize..span.hi.0 as usize);
    write_part(out, found.unwrap_or("outside"))
}

/// Writes so many of the next tokens, or all up to the end.
pub fn write_some(
    out: &mut String,
    text: &str,
    tracked: &mut Tracked,
    times: usize,
) -> Result<(), AllocError> {
    for _ in 0..times {
        match next_span(tracked)? {
            Some(span) => write_span(out, text, span)?,
            None => break,
        }
    }
    Ok(())
}

fn write_item(
    out: &mut String,
    text: &str,
    item: Result<TokenAndSpan, AllocError>,
) -> Result<(), AllocError> {
    write_span(out, text, span_of(item?))
}

/// Writes the tokens that a tracked lexer gives as an iterator.
pub fn write_items(out: &mut String, text: &str, tracked: &mut Tracked) -> Result<(), AllocError> {
    for item in tracked {
        write_item(out, text, item)?;
    }
    Ok(())
}

/// Writes what is expected: `+` an operand, `-` none; with `=` behind it, where that is another, behind that.
fn write_operand(out: &mut String, tracked: &mut Tracked) -> Result<(), AllocError> {
    let plain = tracked.expects_operand(false)?;
    let assign = tracked.expects_operand(true)?;
    out.push(if plain { '+' } else { '-' })?;
    if assign == plain {
        return Ok(());
    }
    out.push(if assign { '+' } else { '-' })
}

/// Writes what is expected before each token and at the end.
pub fn write_expected(out: &mut String, tracked: &mut Tracked) -> Result<(), AllocError> {
    for _ in 0..TOKENS {
        write_operand(out, tracked)?;
        if next_span(tracked)?.is_none() {
            break;
        }
    }
    Ok(())
}
