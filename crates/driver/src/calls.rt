//! Calls of a lexer that commands stand for.
use ecma_place::{BytePos, Span};
use ecma_stream::{Lexer, Tokens};
use ecma_token::{Error, SyntaxError};
use std::alloc::{AllocError, Global};

pub fn read_times(lexer: &mut Lexer, times: usize) -> Result<(), AllocError> {
    for _ in 0..times {
        drop(lexer.read()?);
    }
    Ok(())
}

pub fn reread(lexer: &mut Lexer) {
    let slash = lexer.last_slash();
    lexer.set_next_regexp(slash);
}

/// An error that the layer above found.
fn made<'a>(alloc: Global, kind: SyntaxError<'a>) -> Result<Error<'a>, AllocError> {
    let span = Span::new(BytePos(1), BytePos(2));
    Error::new(alloc, span, kind)
}

pub fn add_error(alloc: Global, lexer: &mut Lexer) -> Result<(), AllocError> {
    let error = made(alloc, SyntaxError::LegacyOctal)?;
    match lexer.add_error(error) {
        Ok(()) => Ok(()),
        Err(_) => Err(AllocError),
    }
}

pub fn add_module_error(alloc: Global, lexer: &mut Lexer) -> Result<(), AllocError> {
    let error = made(alloc, SyntaxError::TS1185)?;
    match lexer.add_module_mode_error(error) {
        Ok(()) => Ok(()),
        Err(_) => Err(AllocError),
    }
}
