//! Where a reading with no parser above begins.
ghost use Rattle.std.specs.Prelude.{◌≡◌, ◌+◌, ◌<◌, ◌^◌, None, length, IfOk, IsOk};
ghost use Rattle.std.specs.Str.{chars};
ghost use Rattle.ecma_state.specs.Session.{lexer_state, state_of};
ghost use Rattle.ecma_slashes.specs.Rereads.{entered};

use ecma_place::{BytePos, StringInput};
use ecma_state::Settings;
use ecma_stream::lexer::Lexer;
use ecma_stream::tokens::Tokens;
use ecma_syntax::Context;
use std::alloc::{AllocError, Global};

/// A lexer of a text that starts at a place, in a context, which does not allocate. Our own.
///
/// The caller knows that the text fits its places ([`StringInput::fits`]).
///
/// # Errors
///
/// None: the answer is that of [`Tokens::set_ctx`], which has nothing to record.
pub fn enter<'a>(
    alloc: Global,
    settings: &Settings,
    context: Context,
    source: &'a str,
    start: BytePos,
) -> Result<Lexer<'a>, AllocError>
    requires { start.0 + length source.now < 2 ^ 32 }
    ensures shows { IfOk result (λ lexer. lexer_state lexer ≡ state_of (entered settings.now context record { start = start.0; text = chars source.now; at = 0 })) }
    ensures no_reread { IfOk result (λ lexer. lexer.reread ≡ None) }
    ensures free { IsOk result }
{
    let input = StringInput::new(source, start);
    let mut lexer = Lexer::with_settings(alloc, settings, input);
    lexer.set_ctx(context)?;
    Ok(lexer)
}
