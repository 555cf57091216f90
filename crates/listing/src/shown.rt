//! All that a lexer shows and has between two reads.
use crate::listing::{write_comments, write_note, write_rest};
use ecma_stream::{Lexer, Tokens};
use std::alloc::{AllocError, Global};

/// Writes what a lexer answers without a read.
fn write_flags(out: &mut String, lexer: &Lexer) -> Result<(), AllocError> {
    write_note(out, "allowed")?;
    write!(out, " {}", lexer.expr_allowed())?;
    write!(out, ", flag {}", lexer.had_line_break_before_last())?;
    write!(out, ", again {}", lexer.reads_again())?;
    write!(out, ", slash {:?}", lexer.last_slash())?;
    write!(out, ", depth {}", lexer.token_context().len())
}

/// Writes the flags of the code that is read.
pub fn write_code(out: &mut String, lexer: &Lexer) -> Result<(), AllocError> {
    let code = lexer.ctx();
    write_note(out, "module")?;
    write!(out, " {}, strict {}", code.module, code.strict)?;
    write!(
        out,
        ", types {}, ignores {}",
        code.in_type, code.ignore_error
    )
}

/// Writes the comments that a lexer has, at the end or not.
fn write_kept_comments(out: &mut String, lexer: Lexer) -> Result<(), AllocError> {
    let (_, comments, ended) = lexer.into_parts();
    write_note(out, if ended { "ended" } else { "going on" })?;
    write_comments(out, &comments)
}

/// Writes all that a lexer shows and has, which is as before then.
pub fn write_now(alloc: Global, out: &mut String, lexer: &Lexer) -> Result<(), AllocError> {
    write_flags(out, lexer)?;
    write_code(out, lexer)?;
    write_rest(alloc, out, &mut lexer.copy()?)?;
    write_kept_comments(out, lexer.copy()?)
}

/// All that a lexer shows and has.
pub fn now(alloc: Global, lexer: &Lexer) -> Result<String, AllocError> {
    let mut out = String::new(alloc);
    write_now(alloc, &mut out, lexer)?;
    Ok(out)
}
