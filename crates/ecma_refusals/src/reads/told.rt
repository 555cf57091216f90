//! What is written of errors and comments.
use crate::again;
use ecma_place::{Atom, Spanned};
use ecma_state::{BufferedComment, BufferedCommentKind};
use ecma_stream::{Lexer, Tokens};
use ecma_token::{Error, SyntaxError};
use std::alloc::{AllocError, Global};
use std::io;

/// Writes each error, behind what became of it.
pub fn tell_errors(rt: &impl Print, what: &str, errors: &[Error]) -> io::Result<()> {
    for error in errors {
        let span = error.span();
        println!(rt; "{what} {}..{} {}", span.lo.0, span.hi.0, error.kind())?;
    }
    Ok(())
}

/// Adds each error to a text, behind what became of it.
fn add_errors(out: &mut String, what: &str, errors: &[Error]) -> Result<(), AllocError> {
    for error in errors {
        let span = error.span();
        write!(
            out,
            "{what} {}..{} {}\n",
            span.lo.0,
            span.hi.0,
            error.kind()
        )?;
    }
    Ok(())
}

/// The errors that a lexer has recorded, and those that wait. The lexer keeps them.
pub(crate) fn told(alloc: Global, lexer: &Lexer) -> Result<String, AllocError> {
    let mut out = String::new(alloc);
    let mut copy = lexer.copy()?;
    add_errors(&mut out, "recorded", copy.take_errors().as_slice())?;
    add_errors(&mut out, "waiting", copy.module_errors())?;
    Ok(out)
}

/// Writes each comment, behind its side and the place of its token.
pub fn tell_comments(rt: &impl Print, comments: &[BufferedComment]) -> io::Result<()> {
    for buffered in comments {
        let side = match buffered.kind {
            BufferedCommentKind::Leading => "leading",
            BufferedCommentKind::Trailing => "trailing",
        };
        let text = &buffered.comment.text;
        println!(rt; "{side} {} {text:?}", buffered.pos.0)?;
    }
    Ok(())
}

fn tell_message(rt: &impl Print, alloc: Global, error: &SyntaxError) -> io::Result<()> {
    let message = again!(rt, "refused msg", error.msg(alloc));
    println!(rt; "message {message}")
}

/// Writes messages that quote something, which allocates.
pub fn play(rt: &impl Print, alloc: Global) -> io::Result<()> {
    tell_message(rt, alloc, &SyntaxError::UnexpectedChar { c: '\0' })?;
    let word = Atom::from("break");
    tell_message(rt, alloc, &SyntaxError::EscapeInReservedWord { word })?;
    let expected = "2 hex characters";
    tell_message(
        rt,
        alloc,
        &SyntaxError::BadCharacterEscapeSequence { expected },
    )
}
