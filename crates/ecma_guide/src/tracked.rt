//! Looking ahead where there is no parser.
ghost use Rattle.std.specs.Prelude.{◌<◌, ◌^◌, length};

use crate::parser::is_arrow;
use crate::{START, settings};
use ecma_lexer::Tracked;
use ecma_lexer::syntax::Context;
use ecma_lexer::token::TokenAndSpan;
use std::alloc::{AllocError, Global};

/// Whether the token after the next one is `=>`. The lexer goes back to where it was.
fn is_arrow_behind_next<'a>(
    tracked: &mut Tracked<'a>,
    slot: &mut Option<TokenAndSpan<'a>>,
) -> Result<bool, AllocError> {
    let here = tracked.checkpoint()?;
    for _ in 0..2 {
        let _is_token = tracked.read_into(slot)?;
    }
    let _went_back = tracked.rewind(&here)?;
    Ok(is_arrow(slot))
}

/// Whether `=>` is the second token of a text, in which the tokens before a slash say what that begins.
pub(crate) fn has_arrow_second(alloc: Global, text: &str) -> Result<bool, AllocError>
    requires { length text.now < 2 ^ 32 }
{
    let mut tracked = Tracked::new(alloc, &settings(false), Context::default(), text, START)?;
    is_arrow_behind_next(&mut tracked, &mut None)
}
