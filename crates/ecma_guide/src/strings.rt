//! Values of tokens.
ghost use Rattle.std.specs.Prelude.{◌<◌, ◌^◌, length};
ghost use Rattle.ecma_reader.specs.Readers.{IsReady};

use crate::{START, settings};
use ecma_lexer::syntax::Context;
use ecma_lexer::token::{Token, TokenAndSpan};
use ecma_lexer::{Reader, Slashes, Slot};
use std::io;

/// Writes the value of a token that is a string.
fn write_string(rt: &HostRuntime, found: &TokenAndSpan) -> io::Result<()> {
    if let Token::Str { value, .. } = &found.token {
        println!(rt; "{}", value.as_str())?;
    }
    Ok(())
}

/// Writes the values of the strings that a reader has left.
fn write_strings(rt: &HostRuntime, reader: &mut Reader) -> io::Result<()>
    requires { IsReady reader.old }
{
    let mut slot = Slot::new();
    'tokens: while reader.read_into(&mut slot.token)? {
        if let Some(found) = &slot.token {
            write_string(rt, found)?;
        }
    }
    Ok(())
}

/// Writes the values of the strings of a text.
pub(crate) fn list_strings(rt: &HostRuntime, text: &str) -> io::Result<()>
    requires { length text.now < 2 ^ 32 }
{
    let (alloc, context) = (rt.alloc(), Context::default());
    let settings = settings(false);
    let mut reader = Reader::new(alloc, &settings, context, text, START, Slashes::ByRole)?;
    write_strings(rt, &mut reader)
}
