//! Errors: those that are tokens, and those that are recorded beside the tokens.
ghost use Rattle.std.specs.Prelude.{◌<◌, ◌^◌, length};

use crate::{START, settings};
use ecma_lexer::place::Spanned;
use ecma_lexer::syntax::Context;
use ecma_lexer::token::Error;
use ecma_lexer::{LineStarts, ReadOut, Slashes, read_out};
use std::io;

/// Writes an error with its line and column.
fn write_error(rt: &HostRuntime, lines: &LineStarts, error: &Error) -> io::Result<()> {
    let at = lines.position(error.span().lo);
    let message = error.kind().msg(rt.alloc())?;
    println!(rt; "{}:{} {}", at.line, at.column, message.as_str())
}

/// Writes errors in a row.
fn write_list(rt: &HostRuntime, lines: &LineStarts, errors: &[Error]) -> io::Result<()> {
    for error in errors {
        write_error(rt, lines, error)?;
    }
    Ok(())
}

/// Writes the errors of error tokens, and those that were recorded.
fn write_errors(rt: &HostRuntime, lines: &LineStarts, read: &ReadOut) -> io::Result<()> {
    write_list(rt, lines, &read.refusals)?;
    write_list(rt, lines, read.gathered.errors.as_slice())
}

/// Writes the errors of a text that is read as a module.
pub(crate) fn list_errors(rt: &HostRuntime, text: &str) -> io::Result<()>
    requires { length text.now < 2 ^ 32 }
{
    let context = Context {
        module: true,
        strict: true,
        ..Context::default()
    };
    let (alloc, settings) = (rt.alloc(), settings(false));
    let lines = LineStarts::of(alloc, text.as_bytes())?;
    let read = read_out(alloc, &settings, context, text, START, Slashes::ByRole)?;
    write_errors(rt, &lines, &read)
}
