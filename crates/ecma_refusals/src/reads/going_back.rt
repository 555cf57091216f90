//! Tokens that are read, gone back from and read again, by checkpoints.
//!
//! A checkpoint of before goes back from a refused read too, so that reading goes on.
use crate::again;
use crate::reads::asked::{Way, asked};
use ecma_stream::{Checkpoint, Lexer, Tokens};
use std::io;

/// Reads the next token, and says whether there was one. Where that is refused, it is refused again, and the lexer goes back to
/// before, and reads it then.
fn read(rt: &impl Print, lexer: &mut Lexer, before: &Checkpoint, told: bool) -> io::Result<bool> {
    if let Ok(found) = asked(rt, Way::GoingBack, lexer, told)? {
        return Ok(found);
    }
    let again = asked(rt, Way::GoingBack, lexer, false)?.is_err();
    let went = lexer.rewind(before)?;
    println!(rt; "refused read to go back from: again refused {again}, went {went}")?;
    Ok(asked(rt, Way::GoingBack, lexer, told)??)
}

/// Goes back. Where that is refused, the contexts and the flag are those of before, and it is done again.
fn back(rt: &impl Print, lexer: &mut Lexer, to: &Checkpoint) -> io::Result<()> {
    let depth = lexer.token_context().len();
    let flag = lexer.had_line_break_before_last();
    let went = match lexer.rewind(to) {
        Ok(went) => went,
        Err(_) => {
            let same = lexer.token_context().len() == depth
                && lexer.had_line_break_before_last() == flag;
            println!(rt; "refused rewind: same contexts and flag {same}")?;
            lexer.rewind(to)?
        }
    };
    if went {
        Ok(())
    } else {
        println!(rt; "not gone back")
    }
}

/// Reads the next token, goes back, and reads it again; whether there was one.
pub(crate) fn step(rt: &impl Print, lexer: &mut Lexer) -> io::Result<bool> {
    let before = again!(rt, "refused checkpoint", lexer.checkpoint());
    read(rt, lexer, &before, false)?;
    back(rt, lexer, &before)?;
    read(rt, lexer, &before, true)
}
