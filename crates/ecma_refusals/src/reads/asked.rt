//! The ways in which the next token is asked for.
use ecma_slashes::read_by_flag;
use ecma_stream::{Lexer, Slot};
use ecma_token::TokenAndSpan;
use std::alloc::AllocError;
use std::io;

/// How the next token is asked for.
#[derive(Clone, Copy)]
pub enum Way {
    Read,
    Next,
    ReadInto,
    ReadByFlag,
    /// It is read, gone back from by a checkpoint, and read again.
    GoingBack,
}

fn read_by_slot<'a>(lexer: &mut Lexer<'a>) -> Result<Option<TokenAndSpan<'a>>, AllocError> {
    let mut slot = Slot::new();
    lexer.read_into(&mut slot.token)?;
    Ok(slot.token.take())
}

impl Way {
    /// The name of the call.
    pub fn name(self) -> &'static str {
        match self {
            Way::Read => "read",
            Way::Next => "next",
            Way::ReadInto => "read_into",
            Way::ReadByFlag => "read_by_flag",
            Way::GoingBack => "going back",
        }
    }

    /// Whether a slash that was answered is read again for itself.
    pub fn reads_slashes_again(self) -> bool {
        matches!(self, Way::Read | Way::Next | Way::ReadInto)
    }

    fn ask<'a>(self, lexer: &mut Lexer<'a>) -> Result<Option<TokenAndSpan<'a>>, AllocError> {
        match self {
            Way::Read | Way::GoingBack => lexer.read(),
            Way::Next => lexer.next().transpose(),
            Way::ReadInto => read_by_slot(lexer),
            // By the flag no slash is left to be read again.
            Way::ReadByFlag if lexer.reads_again() => Ok(None),
            Way::ReadByFlag => read_by_flag(lexer),
        }
    }
}

/// Asks for the next token, and says whether there was one, which is written where `told` says so. Tokens are dropped here
/// alone, as each function that drops one proves how.
pub(crate) fn asked(
    rt: &impl Print,
    way: Way,
    lexer: &mut Lexer,
    told: bool,
) -> io::Result<Result<bool, AllocError>> {
    match way.ask(lexer) {
        Ok(Some(token)) => {
            if told {
                let span = token.span;
                println!(rt; "{}..{} {:?}", span.lo.0, span.hi.0, token.token)?;
            }
            Ok(Ok(true))
        }
        Ok(None) => Ok(Ok(false)),
        Err(refused) => Ok(Err(refused)),
    }
}
