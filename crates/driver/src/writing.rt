//! Writes what a lexer shows.
use ecma_slot::Slot;
use ecma_stream::{Lexer, Tokens};
use ecma_token::TokenAndSpan;
use listing::listing::{write_next, write_note, write_token, write_tokens};
use listing::shown::write_now;
use std::alloc::{AllocError, Global};

/// More reads than any row takes.
const READS: usize = 4000;

fn write_one(out: &mut String, lexer: &mut Lexer) -> Result<(), AllocError> {
    if write_next(out, lexer)? {
        return Ok(());
    }
    write_note(out, "end")
}

/// Writes so many of the next tokens, and `end` where there is none.
pub fn write_some(out: &mut String, lexer: &mut Lexer, times: usize) -> Result<(), AllocError> {
    for _ in 0..times {
        write_one(out, lexer)?;
    }
    Ok(())
}

/// Writes where the slash stands that was answered last.
fn write_slash(out: &mut String, lexer: &Lexer) -> Result<(), AllocError> {
    match lexer.last_slash() {
        Some(slash) => write!(out, "; slash {}", slash.0),
        None => Ok(()),
    }
}

pub fn write_slashes(out: &mut String, lexer: &mut Lexer, times: usize) -> Result<(), AllocError> {
    for _ in 0..times {
        write_one(out, lexer)?;
        write_slash(out, lexer)?;
    }
    Ok(())
}

fn write_held(out: &mut String, token: &Option<TokenAndSpan>) -> Result<(), AllocError> {
    match token {
        Some(token) => {
            write_token(out, token, token.had_line_break)?;
            Ok(())
        }
        None => write_note(out, "none"),
    }
}

/// The next token as the iterator has it.
fn next<'a>(lexer: &mut Lexer<'a>) -> Result<Option<TokenAndSpan<'a>>, AllocError> {
    match lexer.next() {
        Some(Ok(token)) => Ok(Some(token)),
        Some(Err(refused)) => Err(refused),
        None => Ok(None),
    }
}

pub fn write_items(out: &mut String, lexer: &mut Lexer, times: usize) -> Result<(), AllocError> {
    for _ in 0..times {
        let slot = Slot {
            token: next(lexer)?,
        };
        write_held(out, &slot.token)?;
    }
    Ok(())
}

pub fn write_slots(out: &mut String, lexer: &mut Lexer, times: usize) -> Result<(), AllocError> {
    let mut slot = Slot::new();
    for _ in 0..times {
        lexer.read_into(&mut slot.token)?;
        write_held(out, &slot.token)?;
    }
    Ok(())
}

/// Writes the tokens up to the end. A slash that is to be read again is read once.
pub fn write_all(out: &mut String, lexer: &mut Lexer) -> Result<(), AllocError> {
    write_next(out, lexer)?;
    lexer.set_next_regexp(None);
    write_tokens(out, lexer)
}

/// Writes the tokens up to the end, each with how many contexts there are behind it.
pub fn write_depths(out: &mut String, lexer: &mut Lexer) -> Result<(), AllocError> {
    for _ in 0..READS {
        if !write_next(out, lexer)? {
            break;
        }
        write!(out, " ({})", lexer.token_context().len())?;
    }
    Ok(())
}

/// Writes how many contexts there are, and the innermost.
pub fn write_context(out: &mut String, lexer: &Lexer) -> Result<(), AllocError> {
    let contexts = lexer.token_context();
    write_note(out, "contexts")?;
    write!(out, " {} {:?}", contexts.len(), contexts.current())
}

fn write_to_end(alloc: Global, out: &mut String, lexer: &mut Lexer) -> Result<(), AllocError> {
    write_all(out, lexer)?;
    write_now(alloc, out, lexer)
}

fn write_ahead(alloc: Global, out: &mut String, lexer: &Lexer) -> Result<(), AllocError> {
    write_now(alloc, out, lexer)?;
    write_to_end(alloc, out, &mut lexer.copy()?)
}

/// All that a lexer shows and has, what a copy of it reads up to the end, and what that has then. The lexer is as before.
pub fn ahead(alloc: Global, lexer: &Lexer) -> Result<String, AllocError> {
    let mut out = String::new(alloc);
    write_ahead(alloc, &mut out, lexer)?;
    Ok(out)
}
