//! Where the reading of a text begins, and going on token by token.
ghost use Rattle.std.specs.Prelude.{◌≡◌, ◌^◌, ◌<◌, Err, IfOk, OnErr, OnOk, alloc_error, is_some, length, true};
ghost use Rattle.ecma_state.specs.Run.{reading_of, state_behind};
ghost use Rattle.ecma_state.specs.Session.{lexer_state, state_of};
ghost use Rattle.ecma_options.specs.Begin as starts;

use ecma_options::Options;
use ecma_place::{BytePos, StringInput};
use ecma_stream::{Lexer, Tokens};
use std::alloc::{AllocError, Global};

/// The lexer of a text that starts at the place 0. `comments` says whether comments are collected.
///
/// The caller knows that the text has fewer than 2^32 bytes.
///
/// # Errors
///
/// `AllocError` where allocation fails.
pub fn begin<'a>(
    alloc: Global,
    comments: bool,
    options: Options,
    text: &'a str,
) -> Result<Lexer<'a>, AllocError>
    requires { length text.now < 2 ^ 32 }
    ensures { IfOk result (λ lexer. lexer_state lexer ≡ state_of (starts.begin comments options text.now)) }
{
    let settings = options.settings(comments);
    let input = StringInput::new(text, BytePos(0));
    let mut lexer = Lexer::with_settings(alloc, &settings, input);
    lexer.set_ctx(options.context())?;
    Ok(lexer)
}

/// Reads the next token, and says whether there was one.
///
/// # Errors
///
/// `AllocError` where allocation fails; each later read returns the same.
#[inline(always)]
pub fn pass_next(lexer: &mut Lexer) -> Result<bool, AllocError>
    ensures more { IfOk result (λ more. more ≡ is_some (reading_of (lexer_state lexer.old)).found) }
    ensures after { OnOk result (lexer_state lexer.new ≡ state_behind (lexer_state lexer.old) (reading_of (lexer_state lexer.old))) }
    ensures refused { lexer.old.refused ≡ true → (result ≡ Err alloc_error) × (lexer.new ≡ lexer.old) }
    ensures refusal { OnErr result (lexer.new ≡ record lexer.old { refused = true }) }
{
    Ok(lexer.read()?.is_some())
}
